ghost use Rattle.std.specs.Prelude.{◌≡◌, ℕ, ◌<◌, ◌≤◌, ◌↔◌, All, AllPairs, length, slice_get, slice_index_or, IsTrue, IfSome, Some};
ghost use Rattle.dm_base.specs.Name.{IsName};
ghost use Rattle.sys_table.specs.Table.{IsRight};
ghost use Rattle.flow_model.specs.declared.records.ModelFunction.{ModelFunction};
ghost use Rattle.flow_model.specs.Ends.{EndsAt};
ghost use Rattle.flow_model.specs.Graph.{Owns, HaveOneOwner, end_of};
ghost use Rattle.flow_model.specs.Rules.{HasRightEntries, HasOwnExits};

use crate::{CallEdge, ModelFunction, SilentEdge, SysEdge};
use dm_base::is_name;
use sys_table::is_right;

// The greatest number of nodes of a model.
const MOST_NODES: u32 = 200_000;

/// Whether there are 1 to 200,000 nodes, the first function begins at node 0, and the entries
/// strictly rise and are nodes.
pub fn has_right_entries(functions: &[ModelFunction], nodes: u32) -> bool
    ensures { IsTrue result ↔ HasRightEntries functions.now nodes }
{
    1 <= nodes
        && nodes <= MOST_NODES
        && does_first_begin_at_zero(functions)
        && do_entries_rise(functions)
        && are_entries_below(functions, nodes)
}

// Whether the first function, where there is one, begins at node 0.
fn does_first_begin_at_zero(functions: &[ModelFunction]) -> bool
    ensures { IsTrue result ↔ ((one : ModelFunction) → slice_get functions.now 0 ≡ Some one → one.entry ≡ 0) }
{
    match functions.first() {
        Some(one) => one.entry == 0,
        None => true,
    }
}

// Whether each entry is less than the next one.
fn do_entries_rise(functions: &[ModelFunction]) -> bool
    ensures { IsTrue result ↔ AllPairs (λ d e. d.entry < e.entry) functions.now }
{
    functions.is_sorted_by(|d, e| d.entry < e.entry)
}

// Whether each entry is one of so many nodes.
fn are_entries_below(functions: &[ModelFunction], nodes: u32) -> bool
    ensures { IsTrue result ↔ All (λ one. one.entry < nodes) functions.now }
{
    functions.iter().all(|one| one.entry < nodes)
}

/// Whether each function owns its exit.
pub fn has_own_exits(functions: &[ModelFunction], nodes: u32) -> bool
    ensures { IsTrue result ↔ HasOwnExits functions.now nodes }
{
    for (i, one) in functions.iter().enumerate() {
        if !owns(functions, nodes, i, one.exit) {
            return false;
        }
    }
    true
}

// Whether the function at this place owns the node.
fn owns(functions: &[ModelFunction], nodes: u32, place: usize, node: u32) -> bool
    requires { place < length functions.now }
    ensures { IsTrue result ↔ Owns functions.now nodes place node }
{
    functions[place].entry <= node && node < end_of(functions, nodes, place)
}

// The first node past those of the function at this place.
fn end_of(functions: &[ModelFunction], nodes: u32, place: usize) -> u32
    requires { place < length functions.now }
    ensures { result ≡ end_of functions.now nodes place }
{
    match functions.get(place + 1) {
        Some(next) => next.entry,
        None => nodes,
    }
}

/// Whether each function has a name.
pub fn are_named(functions: &[ModelFunction]) -> bool
    ensures { IsTrue result ↔ All (λ one. IsName one.name) functions.now }
{
    functions.iter().all(|one| is_name(one.name.as_slice()))
}

// How many functions begin at the node or before it, in log n steps.
fn count_begun(functions: &[ModelFunction], node: u32) -> usize
    requires { AllPairs (λ d e. d.entry < e.entry) functions.now }
    ensures within { result ≤ length functions.now }
    ensures before { (k : ℕ) (d : ModelFunction) → k < result → (slice_index_or functions.now k d).entry ≤ node }
    ensures after { (k : ℕ) (d : ModelFunction) → result ≤ k → k < length functions.now → node < (slice_index_or functions.now k d).entry }
{
    functions.partition_point(|one| one.entry <= node)
}

/// The function that ends at the node, or None where there is none, in log n steps.
pub fn function_ending_at(functions: &[ModelFunction], nodes: u32, node: u32) -> Option<u32>
    requires entries { HasRightEntries functions.now nodes }
    requires exits { HasOwnExits functions.now nodes }
    ensures some { IfSome result (λ f. EndsAt functions.now f node) }
    ensures only { (f : ℕ) → EndsAt functions.now f node → result ≡ Some f }
{
    let begun = count_begun(functions, node);
    if begun > 0 && functions[begun - 1].exit == node {
        return Some((begun - 1) as u32);
    }
    None
}

/// Whether both nodes are owned by one function, in log n steps.
pub fn have_one_owner(functions: &[ModelFunction], nodes: u32, a: u32, b: u32) -> bool
    requires { HasRightEntries functions.now nodes }
    ensures { IsTrue result ↔ HaveOneOwner functions.now nodes a b }
{
    match count_begun(functions, a) {
        0 => false,
        begun => owns(functions, nodes, begun - 1, a) && owns(functions, nodes, begun - 1, b),
    }
}

/// Whether the nodes of each silent edge are owned by one function.
pub fn are_silent_inner(functions: &[ModelFunction], nodes: u32, edges: &[SilentEdge]) -> bool
    requires { HasRightEntries functions.now nodes }
    ensures { IsTrue result ↔ All (λ e. HaveOneOwner functions.now nodes e.from e.to) edges.now }
{
    edges
        .iter()
        .all(|e| have_one_owner(functions, nodes, e.from, e.to))
}

/// Whether the nodes of each system-call edge are owned by one function.
pub fn are_sys_inner(functions: &[ModelFunction], nodes: u32, edges: &[SysEdge]) -> bool
    requires { HasRightEntries functions.now nodes }
    ensures { IsTrue result ↔ All (λ e. HaveOneOwner functions.now nodes e.from e.to) edges.now }
{
    edges
        .iter()
        .all(|e| have_one_owner(functions, nodes, e.from, e.to))
}

/// Whether the nodes of each call edge are owned by one function.
pub fn are_calls_inner(functions: &[ModelFunction], nodes: u32, calls: &[CallEdge]) -> bool
    requires { HasRightEntries functions.now nodes }
    ensures { IsTrue result ↔ All (λ c. HaveOneOwner functions.now nodes c.from c.to) calls.now }
{
    calls
        .iter()
        .all(|c| have_one_owner(functions, nodes, c.from(), c.to()))
}

/// Whether each candidate is one of so many functions.
pub fn are_candidates_below(calls: &[CallEdge], functions: usize) -> bool
    ensures { IsTrue result ↔ All (λ c. All (λ f. f < functions) c.candidates) calls.now }
{
    calls.iter().all(|c| c.candidates().iter().all(|f| (*f as usize) < functions))
}

/// Whether each pattern is right for its system call.
pub fn are_patterns_right(edges: &[SysEdge]) -> bool
    ensures { IsTrue result ↔ All (λ e. IsRight e.name e.args) edges.now }
{
    edges.iter().all(|e| is_right(&e.args, e.name))
}
