ghost use Rattle.std.specs.Prelude.{◌≡◌, ◌≤◌, ◌+◌, ◌↔◌, ℕ, List, ◌∷◌, ◌++◌, [], length, Some, IsTrue, IsOk, IfOk, OnOk, OnErr};
ghost use Rattle.dm_base.specs.declared.event.Event.{Event};
ghost use Rattle.dm_base.specs.declared.verdict.Step.TheVariants.{Kept};
ghost use Rattle.flow_model.specs.declared.which.Which.TheVariants.{Dyck};
ghost use Rattle.dm_sets.specs.Nodes.{Has};
ghost use Rattle.flow_model.specs.Graph.{Graph};
ghost use Rattle.flow_model.specs.Rules.{IsValid};
ghost use Rattle.flow_model.specs.Verdict.{IsAccepted, IsStep};
ghost use Rattle.dyck_monitor.specs.Silence.{LeadsTo};
ghost use Rattle.dyck_monitor.specs.Sites.{SitesGoOn, OpensSite};
ghost use Rattle.dyck_monitor.specs.Standing.{IsReached, Stands, StandsFor};
ghost use Rattle.flow_model.specs.Cost.{most_steps};

use crate::moves::{follow, look_ahead};
use dm_base::{Event, OutOfMemory, Step};
use dm_sets::{BoundedStack, NodeSet};
use flow_model::{
    CountedMonitor, Model, Monitor, Scratch, Steps, Which, begin_uncounted, feed_uncounted,
};
use std::alloc::Global;
use std::sync::ledger::Ledger;

/// A monitor of the Dyck model of one process (after Giffin, Jha and Miller 2004). The null calls of
/// a history tell which calls are open after it, so all runs that read it end with the same open
/// sites: the monitor keeps those, the newest first, and the set of the nodes at which the runs end. Seen as these, with its last answer.
/// All its memory is taken when it is opened or copied. It needs of its pool only the space to list
/// nodes, and monitors of different processes may share one.
pub struct DyckMonitor {
    nodes: NodeSet,
    sites: BoundedStack,
    last: Step,
}

impl Drop for DyckMonitor {
    fn drop(self) {
        let Self {
            nodes: _nodes,
            sites: _sites,
            last: _last,
        } = self;
    }
}

impl std::marker::Model for DyckMonitor {
    ghost use Rattle.dyck_monitor.specs.Standing.{Position};
    ghost use Rattle.std.specs.Coded.{codes};
    ghost use Rattle.dm_sets.specs.Nodes.{nodes_code};

    ghost Value = { Position };

    ghost coded = { Prim.hlevel (codes, nodes_code) };

    ghost view = { λ m. record { nodes = m.nodes; sites = m.sites; last = m.last } };
}

// Whether the open sites let the event be the next one: a return is to the newest of them.
fn is_next(sites: &BoundedStack, event: &Event) -> bool
    ensures { IsTrue result ↔ ((z : List ℕ) × SitesGoOn event.now sites.now.items z) }
{
    match event {
        Event::Sys { .. } => true,
        Event::Pre(_) => true,
        Event::Post(site) => sites.top() == Some(*site),
    }
}

// Opens or closes the site of the event. False where no more sites can be open.
fn turn(sites: &mut BoundedStack, event: &Event) -> bool
    requires { (z : List ℕ) × SitesGoOn event.now sites.old.items z }
    ensures bound { sites.new.bound ≡ sites.old.bound }
    ensures went { IsTrue result → SitesGoOn event.now sites.old.items sites.new.items }
    ensures opened { IsTrue result → OpensSite event.now → length sites.new.items ≤ sites.old.bound }
    ensures full { (IsTrue result → ⊥) → OpensSite event.now × (sites.old.bound ≤ length sites.old.items) }
{
    match event {
        Event::Sys { .. } => true,
        Event::Pre(site) => sites.push(*site),
        Event::Post(_) => sites.pop().is_some(),
    }
}

// Takes the next event after an accepted history. That a call can't be entered goes before that it
// opens one call too many.
fn go_on<L: Ledger>(
    nodes: &mut NodeSet,
    sites: &mut BoundedStack,
    pool: &mut Scratch,
    model: &Model,
    event: &Event,
    steps: &mut Steps<L>,
) -> Step
    requires valid { IsValid model.now }
    requires pool { pool.old.size ≡ model.now.nodes }
    requires nodes { nodes.old.size ≡ model.now.nodes }
    ensures pool { pool.new.size ≡ model.now.nodes }
    ensures stands { (k : ℕ) (h : List Event) → Stands model.now k nodes.old sites.old Kept h → Stands model.now k nodes.new sites.new result (h ++ event.now ∷ []) }
    ensures cost { steps.new ≤ steps.old + most_steps model.now }
    ensures rise { steps.old ≤ steps.new }
{
    if !is_next(sites, event) {
        return Step::Rejected;
    }
    pool.clear();
    look_ahead(pool, nodes, model, event, steps);
    if pool.len() == 0 {
        return Step::Rejected;
    }
    follow(pool, model, steps);
    pool.fill(nodes);
    if turn(sites, event) {
        Step::Kept
    } else {
        Step::Bound
    }
}

impl CountedMonitor for DyckMonitor {
    ghost LANGUAGE = { Dyck };

    ghost is_for = { StandsFor };

    ghost leads = { LeadsTo };

    fn close<L: Ledger>(pool: &mut Scratch, model: &Model, steps: &mut Steps<L>) {
        // They tell that the model is valid, and that the nodes differ.
        let _nodes = model.nodes();
        let _size = pool.size();
        follow(pool, model, steps);
    }

    fn feed_counted<L: Ledger>(
        &mut self,
        pool: &mut Scratch,
        model: &Model,
        event: &Event,
        steps: &mut Steps<L>,
    ) -> Step {
        // It tells that the model is valid.
        let _nodes = model.nodes();
        if self.last != Step::Kept {
            return self.last;
        }
        let DyckMonitor { nodes, sites, last } = self;
        *last = go_on(nodes, sites, pool, model, event, steps);
        *last
    }
}

impl DyckMonitor {
    /// Takes the next event of the process and answers as `feed` does, without taking memory.
    pub fn feed_now(&mut self, pool: &mut Scratch, model: &Model, event: &Event) -> Step
        requires pool { pool.old.size ≡ model.now.nodes }
        requires stands { (k : ℕ) × (h : List Event) × StandsFor self.old model.now k h }
        ensures pool { pool.new.size ≡ model.now.nodes }
        ensures stands { (k : ℕ) (h : List Event) → StandsFor self.old model.now k h → StandsFor self.new model.now k (h ++ event.now ∷ []) }
        ensures exact { (k : ℕ) (h : List Event) → StandsFor self.old model.now k h → IsStep Dyck model.now k (h ++ event.now ∷ []) result }
    {
        feed_uncounted(self, pool, model, event)
    }

    /// The nodes at which the monitor stands after a history that is accepted: a node is one of them
    /// exactly where a run that reads the history leads to it.
    pub fn nodes(&self) -> &NodeSet
        ensures size { (g : Graph) (k : ℕ) (h : List Event) → StandsFor self.now g k h → result.now.size ≡ g.nodes }
        ensures exact { (g : Graph) (k : ℕ) (h : List Event) → StandsFor self.now g k h → IsAccepted Dyck g k h → (v : ℕ) → Has result.now v ↔ ((z : List ℕ) × IsReached g h v z) }
    {
        &self.nodes
    }

    /// The newest open site after a history that is accepted, None where no site is open: the runs that
    /// read the history end with it, to whatever nodes they lead.
    pub fn top(&self) -> Option<u32>
        ensures { (g : Graph) (k : ℕ) (h : List Event) → StandsFor self.now g k h → IsAccepted Dyck g k h → (v s : ℕ) → ((z : List ℕ) × IsReached g h v (s ∷ z)) ↔ (((z : List ℕ) × IsReached g h v z) × (result ≡ Some s)) }
    {
        self.sites.top()
    }
}

impl Monitor for DyckMonitor {
    const WHICH: Which = Which::Dyck;

    type Pool = Scratch;

    ghost WHICH = { Dyck };

    ghost is_pool = { λ p g. p.size ≡ g.nodes };

    ghost stands = { λ m _ g k h. StandsFor m g k h };

    ghost noted = { λ _ _ _. Unit {0} };

    ghost needed = { λ _ _ _. Unit {0} };

    fn pool(alloc: Global, model: &Model) -> Result<Scratch, OutOfMemory> {
        Scratch::new(alloc, model)
    }

    fn open(pool: &mut Scratch, model: &Model, bound: u32) -> Result<Self, OutOfMemory> {
        let alloc = pool.allocator();
        let mut nodes = NodeSet::new(alloc, model.nodes())?;
        let sites = BoundedStack::new(alloc, bound)?;
        begin_uncounted::<DyckMonitor>(&mut nodes, pool, model);
        Ok(DyckMonitor {
            nodes,
            sites,
            last: Step::Kept,
        })
    }

    fn feed(
        &mut self,
        pool: &mut Scratch,
        model: &Model,
        event: &Event,
    ) -> Result<Step, OutOfMemory>
        requires pool { pool.old.size ≡ model.now.nodes }
        requires stands { (k : ℕ) × (h : List Event) × StandsFor self.old model.now k h }
        ensures memory { IsOk result }
        ensures pool { pool.new.size ≡ model.now.nodes }
        ensures stands { OnOk result ((k : ℕ) (h : List Event) → StandsFor self.old model.now k h → StandsFor self.new model.now k (h ++ event.now ∷ [])) }
        ensures err { OnErr result ((k : ℕ) (h : List Event) → StandsFor self.old model.now k h → StandsFor self.new model.now k h) }
        ensures exact { IfOk result (λ step. (k : ℕ) (h : List Event) → StandsFor self.old model.now k h → IsStep Dyck model.now k (h ++ event.now ∷ []) step) }
    {
        Ok(self.feed_now(pool, model, event))
    }

    fn copy(&self, pool: &mut Scratch) -> Result<Self, OutOfMemory>
        ensures copy { IfOk result (λ m. m ≡ self.now) }
        ensures same { pool.new ≡ pool.old }
    {
        let _pool = pool;
        Ok(DyckMonitor {
            nodes: self.nodes.copy()?,
            sites: self.sites.copy()?,
            last: self.last,
        })
    }

    fn mark(&self, pool: &mut Scratch) -> Result<(), OutOfMemory>
        ensures memory { IsOk result }
        ensures same { pool.new ≡ pool.old }
    {
        let _pool = pool;
        Ok(())
    }

    fn sweep(pool: &mut Scratch)
        ensures { pool.new ≡ pool.old }
    {
        let _unchanged = pool;
    }

    fn held(_pool: &Scratch) -> usize
        ensures { result ≡ 0 }
    {
        0
    }
}
