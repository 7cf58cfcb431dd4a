ghost use Rattle.std.specs.Prelude.{◌≡◌, ◌<◌, ◌↔◌, ◌⊎◌, ℕ, List, Contains, IfOk};
ghost use Rattle.dm_base.specs.declared.event.Event.{Event};
ghost use Rattle.dm_sets.specs.Nodes.{Has};
ghost use Rattle.flow_model.specs.Verdict.{IsAccepted};
ghost use Rattle.expected_events.specs.Marked.{seen};
ghost use Rattle.expected_events.specs.Next.{IsNext};

use crate::finding::{Found, find};
use callgraph_monitor::CallgraphMonitor;
use dm_base::OutOfMemory;
use dm_sets::NodeSet;
use dyck_monitor::DyckMonitor;
use flow_model::{Model, Monitor};
use stack_automaton::{Edge, StackMonitor};
use std::alloc::Global;

/// A monitor that tells what may come next.
pub trait Standing: Monitor {
    /// What may come next after the history that the monitor stands for in this pool, where it is
    /// accepted.
    fn next(&self, alloc: Global, pool: &Self::Pool, model: &Model) -> Result<Found, OutOfMemory>
        ensures { IfOk result (λ found. (k : ℕ) (h : List Event) → Self.stands self.now pool.now model.now k h → IsAccepted Self.WHICH model.now k h → IsNext Self.WHICH model.now h (seen found)) };
}

impl Standing for CallgraphMonitor {
    fn next(&self, alloc: Global, pool: &Self::Pool, model: &Model) -> Result<Found, OutOfMemory> {
        // It tells that the model is valid.
        let _nodes = model.nodes();
        let _space = pool;
        let found = find(alloc, model, self.nodes(), false, None)?;
        Ok(found)
    }
}

// Adds the node where the set has room for it.
fn mark(at: &mut NodeSet, node: u32)
    ensures size { at.new.size ≡ at.old.size }
    ensures marked { (a : ℕ) → a < at.old.size → Has at.new a ↔ (Has at.old a ⊎ (a ≡ node)) }
{
    if node >= at.size() {
        return;
    }
    at.insert(node);
}

// The labels of the edges.
fn labels(alloc: Global, model: &Model, edges: &[Edge]) -> Result<NodeSet, OutOfMemory>
    ensures { IfOk result (λ at. (a : ℕ) → a < model.now.nodes → Has at a ↔ ((q : ℕ) × Contains edges.now (record { label = a; to = q }))) }
{
    let mut at = NodeSet::new(alloc, model.nodes())?;
    for edge in edges {
        mark(&mut at, edge.label);
    }
    Ok(at)
}

impl Standing for StackMonitor {
    fn next(&self, alloc: Global, pool: &Self::Pool, model: &Model) -> Result<Found, OutOfMemory> {
        // It tells that the model is valid.
        let _nodes = model.nodes();
        let at = labels(alloc, model, self.tops(pool))?;
        let found = find(alloc, model, &at, false, None)?;
        Ok(found)
    }
}

impl Standing for DyckMonitor {
    fn next(&self, alloc: Global, pool: &Self::Pool, model: &Model) -> Result<Found, OutOfMemory> {
        // It tells that the model is valid.
        let _nodes = model.nodes();
        let _space = pool;
        let found = find(alloc, model, self.nodes(), true, self.top())?;
        Ok(found)
    }
}
