ghost use Rattle.std.specs.Prelude.{◌≡◌, ◌+◌, ◌<◌, ◌≤◌, ℕ, length, filter, nat_eq, Contains, IsTrue};
ghost use Rattle.dm_base.specs.Fits.{Fits};
ghost use Rattle.dm_sets.specs.Nodes.{Has};
ghost use Rattle.flow_model.specs.Rules.{IsValid};
ghost use Rattle.flow_model.specs.Growth.{Adds};
ghost use Rattle.callgraph_monitor.specs.Ahead.{IsAhead, IsAnswer};

use dm_base::{Event, Step, fits};
use dm_sets::NodeSet;
use flow_model::{Model, Scratch, Steps, SysEdge};
use std::sync::ledger::Ledger;

// Adds the edge's end where the event fits the edge.
fn read_edge(pool: &mut Scratch, edge: &SysEdge, event: &Event)
    requires { edge.now.to < pool.old.size }
    ensures { Adds pool.old pool.new (λ b. Fits edge.now.name edge.now.args event.now × (edge.now.to ≡ b)) }
{
    if fits(edge.name, &edge.args, event) {
        pool.add(edge.to);
    }
}

// Adds the ends of the edges that leave the node and that the event fits.
fn read_from<L: Ledger>(
    pool: &mut Scratch,
    model: &Model,
    node: u32,
    event: &Event,
    steps: &mut Steps<L>,
)
    requires valid { IsValid model.now }
    requires pool { pool.old.size ≡ model.now.nodes }
    requires node { node < model.now.nodes }
    ensures added { Adds pool.old pool.new (IsAhead model.now event.now node) }
    ensures cost { steps.new ≡ steps.old + length (filter (λ e. nat_eq e.from node) model.now.sys) }
{
    for edge in model.sys_from(node) {
        steps.tick();
        read_edge(pool, edge, event);
    }
}

/// Finds the nodes to which the event leads from the set by one edge, and tells whether the set has
/// a node.
pub fn read<L: Ledger>(
    set: &NodeSet,
    pool: &mut Scratch,
    model: &Model,
    event: &Event,
    steps: &mut Steps<L>,
) -> bool
    requires pool { pool.old.size ≡ model.now.nodes }
    requires set { set.now.size ≡ model.now.nodes }
    ensures pool { pool.new.size ≡ model.now.nodes }
    ensures only { (b : ℕ) → Contains pool.new.nodes b → (a : ℕ) × Has set.now a × IsAhead model.now event.now a b }
    ensures all { (a b : ℕ) → Has set.now a → IsAhead model.now event.now a b → Contains pool.new.nodes b }
    ensures some { IsTrue result → (a : ℕ) × Has set.now a }
    ensures none { (IsTrue result → ⊥) → (a : ℕ) → Has set.now a → ⊥ }
    ensures cost { steps.new ≤ steps.old + length model.now.sys }
    ensures rise { steps.old ≤ steps.new }
{
    // It tells that the model is valid.
    let _nodes = model.nodes();
    pool.clear();
    let mut from = 0;
    while let Some(node) = set.next(from) {
        read_from(pool, model, node, event, steps);
        from = node + 1;
    }
    from > 0
}

/// Kept where the set has a node, and else Rejected.
pub fn answer(set: &NodeSet) -> Step
    ensures { IsAnswer set.now result }
{
    match set.next(0) {
        Some(_) => Step::Kept,
        None => Step::Rejected,
    }
}
