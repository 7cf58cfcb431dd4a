ghost use Rattle.std.specs.Prelude.{◌≡◌, ◌≢◌, ◌↔◌, map, All, AllPairs, IsPermutation, IsTrue, IfOk};
ghost use Rattle.std.specs.List.{AllZip};
ghost use Rattle.std.specs.Ordering.{nat_cmp};
ghost use Rattle.flow_model.specs.Built.{IsReordered};
ghost use Rattle.flow_model.specs.Order.{silent_order, sys_order, site_order, StrictlyRise};

use crate::{CallEdge, ModelFunction, SilentEdge, SysEdge};
use dm_base::OutOfMemory;
use std::alloc::Global;
use std::cmp::Ordering;

/// Sorts the items, and tells whether no two of them are equal.
pub fn sort_apart<T: Ord>(items: &mut [T]) -> bool
    ensures same { IsPermutation items.old items.new }
    ensures differ { IsTrue result ↔ AllPairs (λ x y. T.cmp x y ≢ Ordering.Equal) items.old }
    ensures rise { IsTrue result → StrictlyRise T.cmp items.new }
{
    items.sort_unstable();
    items.is_sorted_by(|a, b| a < b)
}

/// Sorts the edges, and tells whether none stands twice.
pub fn sort_silent(edges: &mut [SilentEdge]) -> bool
    ensures same { IsPermutation edges.old edges.new }
    ensures differ { IsTrue result ↔ AllPairs (λ d e. d ≢ e) edges.old }
    ensures rise { IsTrue result → StrictlyRise silent_order edges.new }
{
    sort_apart(edges)
}

/// Sorts the edges, and tells whether none stands twice.
pub fn sort_sys(edges: &mut [SysEdge]) -> bool
    ensures same { IsPermutation edges.old edges.new }
    ensures differ { IsTrue result ↔ AllPairs (λ d e. d ≢ e) edges.old }
    ensures rise { IsTrue result → StrictlyRise sys_order edges.new }
{
    sort_apart(edges)
}

/// Sorts the candidates of each call edge, and tells whether no candidate of a call stands twice.
pub fn sort_candidates(calls: &mut [CallEdge]) -> bool
    ensures same { AllZip IsReordered calls.old calls.new }
    ensures differ { IsTrue result ↔ All (λ c. AllPairs (λ f h. f ≢ h) c.candidates) calls.old }
    ensures rise { IsTrue result → All (λ c. StrictlyRise nat_cmp c.candidates) calls.new }
{
    let mut apart = true;
    for call in calls.iter_mut() {
        apart &= call.sort_candidates();
    }
    apart
}

/// Sorts the call edges by their sites, and tells whether no site stands twice.
pub fn sort_calls(calls: &mut [CallEdge]) -> bool
    ensures same { IsPermutation calls.old calls.new }
    ensures differ { IsTrue result ↔ AllPairs (λ c d. c.site ≢ d.site) calls.old }
    ensures rise { IsTrue result → StrictlyRise site_order calls.new }
{
    calls.sort_unstable_by_key(|c| c.site());
    calls.is_sorted_by(|a, b| a.site() < b.site())
}

/// Whether the functions have different names, in n log n steps.
pub fn do_names_differ(alloc: Global, functions: &[ModelFunction]) -> Result<bool, OutOfMemory>
    ensures { IfOk result (λ differ. IsTrue differ ↔ AllPairs (λ d e. d.name ≢ e.name) functions.now) }
{
    let mut names = names_of(alloc, functions)?;
    Ok(sort_apart(&mut names))
}

// The names of the functions, in their order.
fn names_of<'a>(alloc: Global, functions: &'a [ModelFunction]) -> Result<Vec<&'a [u8]>, OutOfMemory>
    ensures { IfOk result (λ names. map (λ name. name.now) names.items ≡ map (λ one. one.name) functions.now) }
{
    let mut names = Vec::new(alloc);
    for one in functions {
        names.push(one.name.as_slice())?;
    }
    Ok(names)
}
