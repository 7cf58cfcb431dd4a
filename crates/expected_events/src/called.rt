ghost use Rattle.std.specs.Prelude.{◌≡◌, ◌↔◌, Contains, IfOk, OnOk};
ghost use Rattle.std.specs.declared.cmp.Ordering.TheVariants.{Equal};
ghost use Rattle.flow_model.specs.Order.{StrictlyRise};
ghost use Rattle.dm_base.specs.Adding.{Adds, Has};
ghost use Rattle.expected_events.specs.declared.called.Called.{Called as Called'};
ghost use Rattle.expected_events.specs.Marked.{IsCalledBy};
ghost use Rattle.expected_events.specs.Next.{called_order};

use dm_base::{OutOfMemory, Pattern, SysName};
use dm_sets::NodeSet;
use flow_model::{Model, SysEdge};
use std::alloc::Global;

/// A system call, and the pattern of an edge that reads it. They are ordered by their fields from the
/// first on.
#[derive(Clone, Copy, PartialEq, Eq, PartialOrd, Ord)]
pub struct Called {
    pub name: SysName,
    pub args: Pattern,
}

// Adds the call of the edge, where it leaves a node of the set.
fn push_called(calls: &mut Vec<Called>, at: &NodeSet, edge: &SysEdge) -> Result<(), OutOfMemory>
    ensures { OnOk result (Adds calls.old.items calls.new.items (λ c. IsCalledBy at.now c edge.now)) }
{
    if !at.contains(edge.from) {
        return Ok(());
    }
    calls.push(Called {
        name: edge.name,
        args: edge.args,
    })?;
    Ok(())
}

// The calls of the edges that leave a node of the set.
fn gathered(alloc: Global, edges: &[SysEdge], at: &NodeSet) -> Result<Vec<Called>, OutOfMemory>
    ensures { IfOk result (λ calls. (c : Called') → Contains calls.items c ↔ Has (IsCalledBy at.now c) edges.now) }
{
    let mut calls = Vec::new(alloc);
    for edge in edges {
        push_called(&mut calls, at, edge)?;
    }
    Ok(calls)
}

// Puts the items in order, and keeps one of those that the order ties.
fn put_in_order<T: Ord + Drop>(items: &mut Vec<T>)
    ensures rise { StrictlyRise T.cmp items.new.items }
    ensures only { (x : T) → Contains items.new.items x → Contains items.old.items x }
    ensures all { (x : T) → Contains items.old.items x → (y : T) × Contains items.new.items y × (T.cmp x y ≡ Equal) }
{
    items.sort_unstable();
    items.dedup();
}

/// The calls with their patterns of the edges that leave a node of the set, each once and in order.
pub fn calls_at(alloc: Global, model: &Model, at: &NodeSet) -> Result<Vec<Called>, OutOfMemory>
    ensures exact { IfOk result (λ calls. (c : Called') → Contains calls.items c ↔ Has (IsCalledBy at.now c) model.now.sys) }
    ensures rise { IfOk result (λ calls. StrictlyRise called_order calls.items) }
{
    let mut calls = gathered(alloc, model.sys(), at)?;
    put_in_order(&mut calls);
    Ok(calls)
}
