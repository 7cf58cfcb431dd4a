ghost use Rattle.std.specs.Prelude.{◌≡◌, ◌+◌, ◌<◌, ◌≤◌, ℕ, [], length, sum_by, All, Contains};
ghost use Rattle.flow_model.specs.Language.{Walk};
ghost use Rattle.flow_model.specs.Growth.{Adds};
ghost use Rattle.callgraph_monitor.specs.Space.{AreQuiet};
ghost use Rattle.callgraph_monitor.specs.Visits.{visit_cost};

use crate::quiet::QuietEdges;
use flow_model::{Model, Scratch, Steps};
use std::sync::ledger::Ledger;

// Adds the nodes of the list.
fn add_all<L: Ledger>(pool: &mut Scratch, ends: &[u32], steps: &mut Steps<L>)
    requires { All (λ b. b < pool.old.size) ends.now }
    ensures added { Adds pool.old pool.new (Contains ends.now) }
    ensures cost { steps.new ≡ steps.old + length ends.now }
{
    for end in ends {
        steps.tick();
        pool.add(*end);
    }
}

/// Adds all nodes to which walks lead from those of the list that read nothing. Each node is visited
/// once, in the order of the list.
pub fn saturate<L: Ledger>(
    pool: &mut Scratch,
    quiet: &QuietEdges,
    model: &Model,
    steps: &mut Steps<L>,
)
    requires pool { pool.old.size ≡ model.now.nodes }
    requires quiet { AreQuiet model.now quiet.now }
    ensures pool { pool.new.size ≡ model.now.nodes }
    ensures reached { (c : ℕ) → Contains pool.new.nodes c → (b : ℕ) × Contains pool.old.nodes b × Walk model.now b [] c }
    ensures closed { (b c : ℕ) → Contains pool.old.nodes b → Walk model.now b [] c → Contains pool.new.nodes c }
    ensures cost { steps.new ≤ steps.old + sum_by (visit_cost model.now) pool.new.nodes }
    ensures rise { steps.old ≤ steps.new }
{
    let _nodes = model.nodes();
    let mut i = 0;
    while let Some(node) = pool.get(i) {
        add_all(pool, quiet.from(node), steps);
        i += 1;
    }
}
