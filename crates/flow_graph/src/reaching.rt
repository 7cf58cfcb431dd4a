ghost use Rattle.std.specs.Prelude.{◌≡◌, ◌↔◌, ◌+◌, ◌<◌, ◌≤◌, ◌^◌, ℕ, Contains, OnOk, IfOk};
ghost use Rattle.dm_base.specs.Adding.{Has, Adds};
ghost use Rattle.flow_graph.specs.Callers.{HasCaller, IsLedTo, IsReaching};

use crate::nodes::Nodes;
use dm_base::OutOfMemory;
use std::alloc::Global;

fn note_each(found: &mut Nodes, nodes: &[usize]) -> Result<(), OutOfMemory>
    ensures { OnOk result (Adds found.old.keys found.new.keys (λ k. Has (λ n. k ≡ n) nodes.now)) }
{
    for node in nodes {
        found.note(*node)?;
    }
    Ok(())
}

// Adds the callers of the node.
fn note_callers(found: &mut Nodes, callers: &[Vec<usize>], node: usize) -> Result<(), OutOfMemory>
    ensures { OnOk result (Adds found.old.keys found.new.keys (λ k. HasCaller callers.now (record { by = k; to = node }))) }
{
    if node >= callers.len() {
        return Ok(());
    }
    note_each(found, &callers[node])
}

// Adds all nodes from which calls lead to those that are there. The callers of each are looked at once.
fn note_all(found: &mut Nodes, callers: &[Vec<usize>]) -> Result<(), OutOfMemory>
    ensures { OnOk result ((k : ℕ) → Contains found.new.keys k ↔ IsLedTo callers.now found.old.keys k) }
{
    let mut i = 0;
    while let Some(&node) = found.as_slice().get(i) {
        note_callers(found, callers, node)?;
        i += 1;
    }
    Ok(())
}

// The 24 nodes from `first` on.
fn system_calls(alloc: Global, first: usize) -> Result<Nodes, OutOfMemory>
    requires { first < 2 ^ 32 }
    ensures { IfOk result (λ found. (k : ℕ) → Contains found.keys k ↔ ((first ≤ k) × (k < first + 24))) }
{
    let mut found = Nodes::new(alloc);
    for node in first..first + 24 {
        found.note(node)?;
    }
    Ok(found)
}

// The nodes from which calls lead to a system call; the system calls are the 24 nodes from `first` on.
pub fn reaching_nodes(
    alloc: Global,
    callers: &[Vec<usize>],
    first: usize,
) -> Result<Nodes, OutOfMemory>
    requires { first < 2 ^ 32 }
    ensures { IfOk result (λ found. (k : ℕ) → Contains found.keys k ↔ IsReaching callers.now first k) }
{
    let mut found = system_calls(alloc, first)?;
    note_all(&mut found, callers)?;
    Ok(found)
}
