ghost use Rattle.std.specs.Prelude.{◌≡◌, ◌+◌, ◌<◌, ◌≤◌, ◌↔◌, ℕ, List, [], ◌∷◌, ◌++◌, Contains, IsOk, IfOk, OnOk, OnErr};
ghost use Rattle.dm_base.specs.declared.event.Event.{Event};
ghost use Rattle.dm_sets.specs.Nodes.{Has};
ghost use Rattle.flow_model.specs.declared.which.Which.TheVariants.{Callgraph};
ghost use Rattle.flow_model.specs.Cost.{most_steps};
ghost use Rattle.flow_model.specs.Graph.{Graph, HasFunction};
ghost use Rattle.flow_model.specs.Language.{Walk};
ghost use Rattle.flow_model.specs.Verdict.{IsStep};
ghost use Rattle.callgraph_monitor.specs.Ahead.{IsAnswer, IsCall};
ghost use Rattle.callgraph_monitor.specs.Space.{IsSpaceOf};
ghost use Rattle.callgraph_monitor.specs.Standing.{IsAfter, StandsFor};

use crate::quiet::QuietEdges;
use crate::reading::{answer, read};
use crate::visiting::saturate;
use dm_base::{Event, OutOfMemory, Step};
use dm_sets::NodeSet;
use flow_model::{Model, Monitor, Scratch, Steps, Which};
use std::alloc::Global;
use std::marker::Brand;
use std::sync::ledger::{Blank, Ledger};

/// What the callgraph monitors of one model share: working space, and for each node of the model the
/// nodes to which one step that reads nothing leads from it. Seen as these two. It takes memory only
/// when it is made, in proportion to the model's nodes, edges and candidate entries.
pub struct CallgraphPool {
    scratch: Scratch,
    quiet: QuietEdges,
}

impl Drop for CallgraphPool {
    fn drop(self) {
        let Self {
            scratch: _scratch,
            quiet: _quiet,
        } = self;
    }
}

impl std::marker::Model for CallgraphPool {
    ghost use Rattle.callgraph_monitor.specs.Space.{Space};

    ghost Value = { Space };

    ghost view = { λ p. record { found = p.scratch; quiet = p.quiet } };
}

/// A monitor of the callgraph model, seen as the set of the nodes where a walk may end that reads the
/// system calls of the history. The set is empty exactly where the history was rejected. All memory
/// is taken by `open` and `copy`.
pub struct CallgraphMonitor {
    standing: NodeSet,
}

impl Drop for CallgraphMonitor {
    fn drop(self) {
        let Self {
            standing: _standing,
        } = self;
    }
}

impl std::marker::Model for CallgraphMonitor {
    ghost use Rattle.dm_sets.specs.Nodes.{Nodes, nodes_code};

    ghost Value = { Nodes };

    ghost coded = { nodes_code };

    ghost view = { λ m. m.standing };
}

// Makes the set that of the nodes to which the system call leads from it.
fn go_on<L: Ledger>(
    set: &mut NodeSet,
    pool: &mut CallgraphPool,
    model: &Model,
    event: &Event,
    steps: &mut Steps<L>,
) -> Step
    requires event { IsCall event.now }
    requires pool { IsSpaceOf pool.old model.now }
    requires set { set.old.size ≡ model.now.nodes }
    ensures pool { IsSpaceOf pool.new model.now }
    ensures stands { (k : ℕ) (h : List Event) → StandsFor set.old model.now k h → StandsFor set.new model.now k (h ++ event.now ∷ []) }
    ensures answer { IsAnswer set.new result }
    ensures cost { steps.new ≤ steps.old + most_steps model.now }
    ensures rise { steps.old ≤ steps.new }
{
    if !read(set, &mut pool.scratch, model, event, steps) {
        return Step::Rejected;
    }
    saturate(&mut pool.scratch, &pool.quiet, model, steps);
    pool.scratch.fill(set);
    // It tells that the nodes differ.
    let _size = pool.scratch.size();
    if pool.scratch.len() == 0 {
        return Step::Rejected;
    }
    Step::Kept
}

// Feeds the event over a counter of its own.
fn feed_over<L: Ledger>(
    monitor: &mut CallgraphMonitor,
    pool: &mut CallgraphPool,
    model: &Model,
    event: &Event,
    blank: Blank,
) -> Step
    requires name { blank.name ≡ L.name }
    requires parts { blank.parts ≡ L.parts }
    requires some { 0 < blank.parts }
    requires pool { IsSpaceOf pool.old model.now }
    requires stands { (k : ℕ) × (h : List Event) × StandsFor monitor.old model.now k h }
    ensures pool { IsSpaceOf pool.new model.now }
    ensures stands { (k : ℕ) (h : List Event) → StandsFor monitor.old model.now k h → StandsFor monitor.new model.now k (h ++ event.now ∷ []) }
    ensures exact { (k : ℕ) (h : List Event) → StandsFor monitor.old model.now k h → IsStep Callgraph model.now k (h ++ event.now ∷ []) result }
{
    let mut steps = Steps::<L>::new(blank);
    monitor.feed_counted(pool, model, event, &mut steps)
}

// Makes the set that of the nodes with which a walk begins, over a counter of its own.
fn begin_over<L: Ledger>(set: &mut NodeSet, pool: &mut CallgraphPool, model: &Model, blank: Blank)
    requires name { blank.name ≡ L.name }
    requires parts { blank.parts ≡ L.parts }
    requires some { 0 < blank.parts }
    requires pool { IsSpaceOf pool.old model.now }
    requires set { set.old.size ≡ model.now.nodes }
    ensures pool { IsSpaceOf pool.new model.now }
    ensures size { set.new.size ≡ model.now.nodes }
    ensures begun { (entry : ℕ) × (exit : ℕ) × HasFunction model.now model.now.start entry exit × ((a : ℕ) → Has set.new a ↔ Walk model.now entry [] a) }
{
    let mut steps = Steps::<L>::new(blank);
    begin_list(&mut pool.scratch, model);
    saturate(&mut pool.scratch, &pool.quiet, model, &mut steps);
    pool.scratch.fill(set);
}

// Makes the start function's entry the only node that was found.
fn begin_list(pool: &mut Scratch, model: &Model)
    requires { pool.old.size ≡ model.now.nodes }
    ensures size { pool.new.size ≡ model.now.nodes }
    ensures begun { (entry : ℕ) × (exit : ℕ) × HasFunction model.now model.now.start entry exit × ((a : ℕ) → Contains pool.new.nodes a ↔ (a ≡ entry)) }
{
    // It tells that the model is valid.
    let _nodes = model.nodes();
    pool.clear();
    pool.add(model.functions()[model.start() as usize].entry);
}

impl CallgraphMonitor {
    /// Takes the next event of the process and answers as the verdict on its history has it, without
    /// taking memory. An event takes no more steps than the model has nodes, edges and, counted
    /// twice, candidate entries.
    pub fn feed_counted<L: Ledger>(
        &mut self,
        pool: &mut CallgraphPool,
        model: &Model,
        event: &Event,
        steps: &mut Steps<L>,
    ) -> Step
        requires pool { IsSpaceOf pool.old model.now }
        requires stands { (k : ℕ) × (h : List Event) × StandsFor self.old model.now k h }
        ensures pool { IsSpaceOf pool.new model.now }
        ensures stands { (k : ℕ) (h : List Event) → StandsFor self.old model.now k h → StandsFor self.new model.now k (h ++ event.now ∷ []) }
        ensures exact { (k : ℕ) (h : List Event) → StandsFor self.old model.now k h → IsStep Callgraph model.now k (h ++ event.now ∷ []) result }
        ensures cost { steps.new ≤ steps.old + most_steps model.now }
        ensures rise { steps.old ≤ steps.new }
    {
        match event {
            Event::Sys { .. } => go_on(&mut self.standing, pool, model, event, steps),
            Event::Pre(_) => answer(&self.standing),
            Event::Post(_) => answer(&self.standing),
        }
    }

    /// Takes the next event. It takes no memory.
    pub fn feed_now(&mut self, pool: &mut CallgraphPool, model: &Model, event: &Event) -> Step
        requires pool { IsSpaceOf pool.old model.now }
        requires stands { (k : ℕ) × (h : List Event) × StandsFor self.old model.now k h }
        ensures pool { IsSpaceOf pool.new model.now }
        ensures stands { (k : ℕ) (h : List Event) → StandsFor self.old model.now k h → StandsFor self.new model.now k (h ++ event.now ∷ []) }
        ensures exact { (k : ℕ) (h : List Event) → StandsFor self.old model.now k h → IsStep Callgraph model.now k (h ++ event.now ∷ []) result }
    {
        feed_over::<Brand>(self, pool, model, event, Blank::new(1))
    }

    /// The nodes at which the monitor stands after its history: a node is one of them exactly where a
    /// walk ends at it that reads the system calls of the history. There are none exactly where the
    /// history was rejected.
    pub fn nodes(&self) -> &NodeSet
        ensures size { (g : Graph) (k : ℕ) (h : List Event) → StandsFor self.now g k h → result.now.size ≡ g.nodes }
        ensures exact { (g : Graph) (k : ℕ) (h : List Event) → StandsFor self.now g k h → (a : ℕ) → Has result.now a ↔ IsAfter g h a }
    {
        &self.standing
    }
}

impl Monitor for CallgraphMonitor {
    const WHICH: Which = Which::Callgraph;

    type Pool = CallgraphPool;

    ghost WHICH = { Callgraph };

    ghost is_pool = { IsSpaceOf };

    ghost stands = { λ m p g k h. StandsFor m g k h };

    ghost noted = { λ _ _ _. Unit {0} };

    ghost needed = { λ _ _ _. Unit {0} };

    fn pool(alloc: Global, model: &Model) -> Result<CallgraphPool, OutOfMemory> {
        Ok(CallgraphPool {
            scratch: Scratch::new(alloc, model)?,
            quiet: QuietEdges::new(alloc, model)?,
        })
    }

    fn open(pool: &mut CallgraphPool, model: &Model, _bound: u32) -> Result<Self, OutOfMemory> {
        let mut standing = NodeSet::new(pool.scratch.allocator(), model.nodes())?;
        begin_over::<Brand>(&mut standing, pool, model, Blank::new(1));
        Ok(CallgraphMonitor { standing })
    }

    fn feed(
        &mut self,
        pool: &mut CallgraphPool,
        model: &Model,
        event: &Event,
    ) -> Result<Step, OutOfMemory>
        requires pool { IsSpaceOf pool.old model.now }
        requires stands { (k : ℕ) × (h : List Event) × StandsFor self.old model.now k h }
        ensures memory { IsOk result }
        ensures pool { IsSpaceOf pool.new model.now }
        ensures stands { OnOk result ((k : ℕ) (h : List Event) → StandsFor self.old model.now k h → StandsFor self.new model.now k (h ++ event.now ∷ [])) }
        ensures err { OnErr result ((k : ℕ) (h : List Event) → StandsFor self.old model.now k h → StandsFor self.new model.now k h) }
        ensures exact { IfOk result (λ step. (k : ℕ) (h : List Event) → StandsFor self.old model.now k h → IsStep Callgraph model.now k (h ++ event.now ∷ []) step) }
    {
        Ok(self.feed_now(pool, model, event))
    }

    fn copy(&self, pool: &mut CallgraphPool) -> Result<Self, OutOfMemory>
        ensures copy { IfOk result (λ m. m ≡ self.now) }
        ensures same { pool.new ≡ pool.old }
    {
        let _pool = pool;
        Ok(CallgraphMonitor {
            standing: self.standing.copy()?,
        })
    }

    fn mark(&self, pool: &mut CallgraphPool) -> Result<(), OutOfMemory>
        ensures memory { IsOk result }
        ensures same { pool.new ≡ pool.old }
    {
        let _pool = pool;
        Ok(())
    }

    fn sweep(pool: &mut CallgraphPool)
        ensures { pool.new ≡ pool.old }
    {
        let _unchanged = pool;
    }

    fn held(_pool: &CallgraphPool) -> usize
        ensures { result ≡ 0 }
    {
        0
    }
}
