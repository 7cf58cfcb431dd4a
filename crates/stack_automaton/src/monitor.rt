ghost use Rattle.std.specs.Prelude.{◌≡◌, ◌<◌, ◌≤◌, ◌↔◌, ◌^◌, ℕ, List, [], ◌∷◌, ◌++◌, Contains, IsOk, IfOk, OnOk, OnErr};
ghost use Rattle.std.specs.FinMap as map;
ghost use Rattle.dm_base.specs.declared.event.Event.{Event as Event'};
ghost use Rattle.dm_base.specs.declared.verdict.Step.TheVariants.{Kept as Kept'};
ghost use Rattle.flow_model.specs.declared.which.Which.TheVariants.{Stack as Stack'};
ghost use Rattle.flow_model.specs.Graph.{Graph};
ghost use Rattle.flow_model.specs.Language.{IsConfig};
ghost use Rattle.flow_model.specs.Verdict.{IsAccepted, IsStep};
ghost use Rattle.stack_automaton.specs.declared.place.Fact.{Fact as Fact'};
ghost use Rattle.stack_automaton.specs.declared.place.Place.TheVariants.{Held};
ghost use Rattle.stack_automaton.specs.Seen.{Contents, Position, edges_at};
ghost use Rattle.stack_automaton.specs.Standing.{IsPool, IsPoolOf, StandsFor, Extends, AreNoted, AreNeeded};
ghost use Rattle.stack_automaton.specs.Storing.{Grows};

use crate::Pool;
use crate::fact_set::FactSet;
use crate::follow::add;
use crate::place::{Edge, Fact, Place};
use dm_base::{Event, OutOfMemory, Step};
use flow_model::{Model, Monitor, Which};
use std::alloc::Global;

/// The monitor of the abstract-stack model. Seen as its last answer, which is Kept at first and never
/// Bound, and a key of the pool. While its history is accepted, just the configurations after the
/// history are held from the key, which may be infinitely many.
pub struct StackMonitor {
    last: Step,
    at: usize,
}

impl Drop for StackMonitor {
    fn drop(self) {
        let Self {
            last: _last,
            at: _at,
        } = self;
    }
}

impl std::marker::Model for StackMonitor {
    ghost use Rattle.stack_automaton.specs.Seen.{Position};

    ghost Value = { Position };

    ghost view = { λ m. record { answer = m.last; key = m.at } };
}

impl StackMonitor {
    /// The edges of the pool that leave the monitor's key after a history that is accepted. Their labels
    /// are the nodes at which the monitor stands: a node is one of them exactly where it is that of a
    /// configuration after the history.
    pub fn tops<'a>(&self, pool: &'a Pool) -> &'a [Edge]
        ensures { (g : Graph) (k : ℕ) (h : List Event') → StandsFor self.now pool.now g k h → IsAccepted Stack' g k h
            → (v : ℕ) → ((q : ℕ) × Contains result.now (record { label = v; to = q })) ↔ ((z : List ℕ) × IsConfig g h v z) }
    {
        pool.edges(self.at)
    }

    // Takes the next event of a history that is accepted.
    fn go_on(&mut self, pool: &mut Pool, model: &Model, event: &Event) -> Result<Step, OutOfMemory>
        requires pool { IsPoolOf pool.old model.now }
        requires kept { self.old.answer ≡ Kept' }
        requires stands { (k : ℕ) × (h : List Event') × StandsFor self.old pool.old model.now k h }
        ensures grows { Grows (edges_at pool.old) (edges_at pool.new) }
        ensures last { pool.new.final ≡ pool.old.final }
        ensures notes { pool.new.noted ≡ pool.old.noted }
        ensures pool { IsPoolOf pool.new model.now }
        ensures stands { OnOk result ((k : ℕ) (h : List Event') → StandsFor self.old pool.old model.now k h → StandsFor self.new pool.new model.now k (h ++ event.now ∷ [])) }
        ensures answer { IfOk result (λ step. self.new.answer ≡ step) }
        ensures err { OnErr result (self.new ≡ self.old) }
    {
        match event {
            Event::Sys { .. } => match pool.move_on(model, self.at, event)? {
                Some(key) => {
                    self.at = key;
                    Ok(Step::Kept)
                }
                None => {
                    self.last = Step::Rejected;
                    Ok(Step::Rejected)
                }
            },
            Event::Pre(_) => Ok(Step::Kept),
            Event::Post(_) => Ok(Step::Kept),
        }
    }

    // Takes the next event.
    fn take(&mut self, pool: &mut Pool, model: &Model, event: &Event) -> Result<Step, OutOfMemory>
        requires pool { IsPoolOf pool.old model.now }
        requires stands { (k : ℕ) × (h : List Event') × StandsFor self.old pool.old model.now k h }
        ensures grows { Grows (edges_at pool.old) (edges_at pool.new) }
        ensures last { pool.new.final ≡ pool.old.final }
        ensures notes { pool.new.noted ≡ pool.old.noted }
        ensures pool { IsPoolOf pool.new model.now }
        ensures stands { OnOk result ((k : ℕ) (h : List Event') → StandsFor self.old pool.old model.now k h → StandsFor self.new pool.new model.now k (h ++ event.now ∷ [])) }
        ensures answer { IfOk result (λ step. self.new.answer ≡ step) }
        ensures err { OnErr result (self.new ≡ self.old) }
    {
        match self.last {
            Step::Kept => self.go_on(pool, model, event),
            Step::Rejected => Ok(Step::Rejected),
            Step::Bound => Ok(Step::Bound),
        }
    }
}

// The fact with which a run begins.
fn first_fact(alloc: Global, node: u32, last: usize) -> Result<FactSet, OutOfMemory>
    ensures { IfOk result (λ facts. (x : Fact') → Contains facts.keys x ↔ (x ≡ record { node = node; place = Held last })) }
{
    let mut facts = FactSet::new(alloc);
    add(
        &mut facts,
        Fact {
            node,
            place: Place::Held(last),
        },
    )?;
    Ok(facts)
}

impl Monitor for StackMonitor {
    const WHICH: Which = Which::Stack;

    type Pool = Pool;

    ghost WHICH = { Stack' };

    ghost is_pool = { IsPoolOf };

    ghost stands = { StandsFor };

    ghost noted = { λ p _ ms. AreNoted p ms };

    ghost needed = { λ p _ ms. AreNeeded p ms };

    fn pool(alloc: Global, _model: &Model) -> Result<Pool, OutOfMemory>
        ensures pool { IfOk result (λ p. IsPoolOf p _model.now) }
        ensures notes { IfOk result (λ p. AreNoted p []) }
    {
        Pool::new(alloc)
    }

    fn open(pool: &mut Pool, model: &Model, bound: u32) -> Result<Self, OutOfMemory>
        requires pool { IsPoolOf pool.old model.now }
        requires bound { (1 ≤ bound) × (bound < 2 ^ 16) }
        ensures pool { IsPoolOf pool.new model.now }
        ensures stands { IfOk result (λ m. StandsFor m pool.new model.now bound []) }
        ensures kept { IfOk result (λ m. m.answer ≡ Kept') }
        ensures empty { OnOk result (IsAccepted Stack' model.now bound []) }
        ensures others { (m : Position) (k : ℕ) (h : List Event') → StandsFor m pool.old model.now k h → StandsFor m pool.new model.now k h }
        ensures notes { AreNoted pool.old [] → AreNoted pool.new [] }
        ensures entries { Extends pool.old pool.new }
    {
        // It tells that the model is valid.
        let _nodes = model.nodes();
        let function = &model.functions()[model.start() as usize];
        let facts = first_fact(pool.memory(), function.entry, pool.last())?;
        let at = pool.settle(model, facts)?;
        Ok(StackMonitor {
            last: Step::Kept,
            at,
        })
    }

    fn feed(&mut self, pool: &mut Pool, model: &Model, event: &Event) -> Result<Step, OutOfMemory>
        requires pool { IsPoolOf pool.old model.now }
        requires stands { (k : ℕ) × (h : List Event') × StandsFor self.old pool.old model.now k h }
        ensures pool { IsPoolOf pool.new model.now }
        ensures stands { OnOk result ((k : ℕ) (h : List Event') → StandsFor self.old pool.old model.now k h → StandsFor self.new pool.new model.now k (h ++ event.now ∷ [])) }
        ensures answer { IfOk result (λ step. self.new.answer ≡ step) }
        ensures exact { IfOk result (λ step. (k : ℕ) (h : List Event') → StandsFor self.old pool.old model.now k h → IsStep Stack' model.now k (h ++ event.now ∷ []) step) }
        ensures err { OnErr result ((k : ℕ) (h : List Event') → StandsFor self.old pool.old model.now k h → StandsFor self.new pool.new model.now k h) }
        ensures unchanged { OnErr result (self.new ≡ self.old) }
        ensures others { (m : Position) (k : ℕ) (h : List Event') → StandsFor m pool.old model.now k h → StandsFor m pool.new model.now k h }
        ensures notes { AreNoted pool.old [] → AreNoted pool.new [] }
        ensures entries { Extends pool.old pool.new }
    {
        self.take(pool, model, event)
    }

    fn copy(&self, pool: &mut Pool) -> Result<Self, OutOfMemory>
        requires stands { (g : Graph) × (k : ℕ) × (h : List Event') × IsPool pool.old × StandsFor self.now pool.old g k h }
        ensures pool { (g : Graph) → IsPoolOf pool.old g → IsPoolOf pool.new g }
        ensures copy { IfOk result (λ m. (g : Graph) (k : ℕ) (h : List Event') → StandsFor self.now pool.old g k h → StandsFor m pool.new g k h) }
        ensures memory { IsOk result }
        ensures same { IfOk result (λ m. m ≡ self.now) }
        ensures others { (m : Position) (g : Graph) (k : ℕ) (h : List Event') → StandsFor m pool.old g k h → StandsFor m pool.new g k h }
        ensures notes { (g : Graph) → AreNoted pool.old [] → AreNoted pool.new [] }
        ensures entries { pool.new ≡ pool.old }
    {
        let _pool = pool;
        Ok(StackMonitor {
            last: self.last,
            at: self.at,
        })
    }

    fn mark(&self, pool: &mut Pool) -> Result<(), OutOfMemory>
        requires stands { (g : Graph) × (k : ℕ) × (h : List Event') × IsPool pool.old × StandsFor self.now pool.old g k h }
        ensures pool { (g : Graph) → IsPoolOf pool.old g → IsPoolOf pool.new g }
        ensures ok { OnOk result ((g : Graph) (ms : List Position) → AreNoted pool.old ms → AreNoted pool.new (ms ++ self.now ∷ [])) }
        ensures err { OnErr result ((g : Graph) → IsPool pool.old → AreNoted pool.new []) }
        ensures others { (m : Position) (g : Graph) (k : ℕ) (h : List Event') → StandsFor m pool.old g k h → StandsFor m pool.new g k h }
        ensures entries { pool.new.entries ≡ pool.old.entries }
        ensures last { pool.new.final ≡ pool.old.final }
    {
        match self.last {
            Step::Kept => pool.note(self.at),
            Step::Rejected => Ok(()),
            Step::Bound => Ok(()),
        }
    }

    fn sweep(pool: &mut Pool)
        requires { (g : Graph) × (ms : List Position) × IsPool pool.old × AreNoted pool.old ms }
        ensures pool { (g : Graph) → IsPool pool.old → IsPoolOf pool.new g }
        ensures notes { (g : Graph) → IsPool pool.old → AreNoted pool.new [] }
        ensures exact { (g : Graph) (ms : List Position) → IsPool pool.old → AreNoted pool.old ms → AreNeeded pool.new ms }
        ensures over { (m : Position) (g : Graph) (k : ℕ) (h : List Event') → (IsAccepted Stack' g k h → ⊥) → StandsFor m pool.old g k h → StandsFor m pool.new g k h }
        ensures kept { (g : Graph) (ms : List Position) (m : Position) (k : ℕ) (h : List Event') → AreNoted pool.old ms → Contains ms m → StandsFor m pool.old g k h → StandsFor m pool.new g k h }
        ensures entries { Extends pool.new pool.old }
    {
        pool.sweep();
    }

    fn held(pool: &Pool) -> usize
        ensures { result ≡ map.len pool.now.entries }
    {
        pool.live()
    }
}
