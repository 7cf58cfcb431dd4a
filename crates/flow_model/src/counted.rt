ghost use Rattle.std.specs.Prelude.{◌≡◌, ◌+◌, ◌<◌, ◌≤◌, ◌↔◌, ℕ, List, [], ◌∷◌, ◌++◌, Contains};
ghost use Rattle.dm_base.specs.declared.event.Event.{Event};
ghost use Rattle.dm_sets.specs.Nodes.{Has};
ghost use Rattle.flow_model.specs.declared.which.Which.{Which};
ghost use Rattle.flow_model.specs.Cost.{most_steps};
ghost use Rattle.flow_model.specs.Graph.{Graph, HasFunction};
ghost use Rattle.flow_model.specs.Verdict.{IsStep};

use crate::{Model, Scratch, Steps};
use dm_base::{Event, Step};
use dm_sets::NodeSet;
use std::marker::Brand;
use std::sync::ledger::{Blank, Ledger};

/// A monitor that follows the nodes at which the reading of a history may end. It needs working space
/// alone, takes no memory once it is opened, and counts each edge and each candidate entry that it
/// reads as a step.
pub trait CountedMonitor: Sized {
    /// The language that is judged.
    ghost LANGUAGE: { Which };

    /// For this model and up to this bound, the monitor stands for this history.
    ghost is_for: { Self → Graph → ℕ → List Event → Type 0 };

    /// What reads nothing leads from the first node to the second.
    ghost leads: { Graph → ℕ → ℕ → Type 0 };

    /// Adds all nodes to which what reads nothing leads from those that were found.
    fn close<L: Ledger>(pool: &mut Scratch, model: &Model, steps: &mut Steps<L>)
        requires { pool.old.size ≡ model.now.nodes }
        ensures pool { pool.new.size ≡ model.now.nodes }
        ensures closed { (c : ℕ) → Contains pool.new.nodes c ↔ ((b : ℕ) × Contains pool.old.nodes b × leads model.now b c) };

    /// Takes the next event of the process and answers as the verdict on its history has it, without
    /// taking memory. An event takes no more steps than the model has nodes, edges and, counted
    /// twice, candidate entries.
    fn feed_counted<L: Ledger>(
        &mut self,
        pool: &mut Scratch,
        model: &Model,
        event: &Event,
        steps: &mut Steps<L>,
    ) -> Step
        requires pool { pool.old.size ≡ model.now.nodes }
        requires stands { (k : ℕ) × (h : List Event) × is_for self.old model.now k h }
        ensures pool { pool.new.size ≡ model.now.nodes }
        ensures stands { (k : ℕ) (h : List Event) → is_for self.old model.now k h → is_for self.new model.now k (h ++ event.now ∷ []) }
        ensures exact { (k : ℕ) (h : List Event) → is_for self.old model.now k h → IsStep LANGUAGE model.now k (h ++ event.now ∷ []) result }
        ensures cost { steps.new ≤ steps.old + most_steps model.now }
        ensures rise { steps.old ≤ steps.new };
}

/// Feeds the event as `feed_counted` does, where nobody sees the steps.
pub fn feed_uncounted<M: CountedMonitor>(
    monitor: &mut M,
    pool: &mut Scratch,
    model: &Model,
    event: &Event,
) -> Step
    requires pool { pool.old.size ≡ model.now.nodes }
    requires stands { (k : ℕ) × (h : List Event) × M.is_for monitor.old model.now k h }
    ensures pool { pool.new.size ≡ model.now.nodes }
    ensures stands { (k : ℕ) (h : List Event) → M.is_for monitor.old model.now k h → M.is_for monitor.new model.now k (h ++ event.now ∷ []) }
    ensures exact { (k : ℕ) (h : List Event) → M.is_for monitor.old model.now k h → IsStep M.LANGUAGE model.now k (h ++ event.now ∷ []) result }
{
    feed_over::<M, Brand>(monitor, pool, model, event, Blank::new(1))
}

/// Makes the set that of the nodes to which what reads nothing leads from the start function's entry,
/// where nobody sees the steps.
pub fn begin_uncounted<M: CountedMonitor>(set: &mut NodeSet, pool: &mut Scratch, model: &Model)
    requires pool { pool.old.size ≡ model.now.nodes }
    requires set { set.old.size ≡ model.now.nodes }
    ensures pool { pool.new.size ≡ model.now.nodes }
    ensures size { set.new.size ≡ model.now.nodes }
    ensures begun { (entry : ℕ) × (exit : ℕ) × HasFunction model.now model.now.start entry exit × ((a : ℕ) → Has set.new a ↔ M.leads model.now entry a) }
{
    begin_over::<M, Brand>(set, pool, model, Blank::new(1))
}

// Feeds the event over a counter of its own.
fn feed_over<M: CountedMonitor, L: Ledger>(
    monitor: &mut M,
    pool: &mut Scratch,
    model: &Model,
    event: &Event,
    blank: Blank,
) -> Step
    requires name { blank.name ≡ L.name }
    requires parts { blank.parts ≡ L.parts }
    requires some { 0 < blank.parts }
    requires pool { pool.old.size ≡ model.now.nodes }
    requires stands { (k : ℕ) × (h : List Event) × M.is_for monitor.old model.now k h }
    ensures pool { pool.new.size ≡ model.now.nodes }
    ensures stands { (k : ℕ) (h : List Event) → M.is_for monitor.old model.now k h → M.is_for monitor.new model.now k (h ++ event.now ∷ []) }
    ensures exact { (k : ℕ) (h : List Event) → M.is_for monitor.old model.now k h → IsStep M.LANGUAGE model.now k (h ++ event.now ∷ []) result }
{
    let mut steps = Steps::<L>::new(blank);
    monitor.feed_counted(pool, model, event, &mut steps)
}

// Makes the set that of the nodes with which a run begins, over a counter of its own.
fn begin_over<M: CountedMonitor, L: Ledger>(
    set: &mut NodeSet,
    pool: &mut Scratch,
    model: &Model,
    blank: Blank,
)
    requires name { blank.name ≡ L.name }
    requires parts { blank.parts ≡ L.parts }
    requires some { 0 < blank.parts }
    requires pool { pool.old.size ≡ model.now.nodes }
    requires set { set.old.size ≡ model.now.nodes }
    ensures pool { pool.new.size ≡ model.now.nodes }
    ensures size { set.new.size ≡ model.now.nodes }
    ensures begun { (entry : ℕ) × (exit : ℕ) × HasFunction model.now model.now.start entry exit × ((a : ℕ) → Has set.new a ↔ M.leads model.now entry a) }
{
    let mut steps = Steps::<L>::new(blank);
    begin_list(pool, model);
    M::close(pool, model, &mut steps);
    pool.fill(set);
}

// Makes the start function's entry the only node that was found.
fn begin_list(pool: &mut Scratch, model: &Model)
    requires { pool.old.size ≡ model.now.nodes }
    ensures size { pool.new.size ≡ model.now.nodes }
    ensures begun { (entry : ℕ) × (exit : ℕ) × HasFunction model.now model.now.start entry exit × ((a : ℕ) → Contains pool.new.nodes a ↔ (a ≡ entry)) }
{
    // It tells that the model is valid.
    let _nodes = model.nodes();
    pool.clear();
    pool.add(model.functions()[model.start() as usize].entry);
}
