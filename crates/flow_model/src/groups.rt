ghost use Rattle.std.specs.Prelude.{◌≡◌, ℕ, ◌+◌, ◌++◌, All, filter, map, nat_eq, IfOk, OnOk};
ghost use Rattle.std.specs.List.{list_any};
ghost use Rattle.std.specs.List.Sorted.{IsNonDecreasingBy};
ghost use Rattle.std.specs.Ordering.{nat_cmp};
ghost use Rattle.flow_model.specs.Grouped.{AreGrouped};
ghost use Rattle.flow_model.specs.Order.{silent_order, sys_order, StrictlyRise};
ghost use Rattle.flow_model.specs.Starts.{IsStart, AreStarts, members_of};

use crate::{CallEdge, SilentEdge, SysEdge};
use dm_base::OutOfMemory;
use std::alloc::{AllocError, Global};

/// Lists of sites one after another, and where each begins.
#[derive(Drop)]
pub struct Groups {
    pub starts: Vec<usize>,
    pub sites: Vec<u32>,
}

/// A site as a member of the group with this number.
#[derive(Clone, Copy)]
pub struct Member {
    pub group: u32,
    pub site: u32,
}

// What has a number by which it is grouped.
trait Numbered {
    ghost number: { Self → ℕ };

    fn number(&self) -> u32
        ensures { result ≡ number self.now };
}

impl Numbered for SilentEdge {
    ghost number = { λ e. e.from };

    fn number(&self) -> u32 {
        self.from
    }
}

impl Numbered for SysEdge {
    ghost number = { λ e. e.from };

    fn number(&self) -> u32 {
        self.from
    }
}

impl Numbered for Member {
    ghost number = { λ m. m.group };

    fn number(&self) -> u32 {
        self.group
    }
}

/// Where the edges that leave each node begin, among edges in increasing order.
pub fn silent_starts(
    alloc: Global,
    edges: &[SilentEdge],
    nodes: u32,
) -> Result<Vec<usize>, OutOfMemory>
    requires { StrictlyRise silent_order edges.now }
    ensures { IfOk result (λ starts. AreGrouped starts.items edges.now nodes (λ a. filter (λ e. nat_eq e.from a) edges.now)) }
{
    starts_of(alloc, edges, nodes)
}

/// Where the edges that leave each node begin, among edges in increasing order.
pub fn sys_starts(alloc: Global, edges: &[SysEdge], nodes: u32) -> Result<Vec<usize>, OutOfMemory>
    requires { StrictlyRise sys_order edges.now }
    ensures { IfOk result (λ starts. AreGrouped starts.items edges.now nodes (λ a. filter (λ e. nat_eq e.from a) edges.now)) }
{
    starts_of(alloc, edges, nodes)
}

/// The sites of the calls that leave each node, in the order of the calls.
pub fn sites_by_node(alloc: Global, calls: &[CallEdge], nodes: u32) -> Result<Groups, OutOfMemory>
    ensures { IfOk result (λ groups. AreGrouped groups.starts.items groups.sites.items nodes (λ a. map (λ c. c.site) (filter (λ c. nat_eq c.from a) calls.now))) }
{
    let mut members = Vec::new(alloc);
    for call in calls {
        members.push(Member {
            group: call.from(),
            site: call.site(),
        })?;
    }
    grouped(alloc, members, nodes)
}

/// The sites of the calls that may enter each function, in the order of the calls. The candidates
/// of each call are in increasing order.
pub fn sites_by_function(
    alloc: Global,
    calls: &[CallEdge],
    functions: u32,
) -> Result<Groups, OutOfMemory>
    requires { All (λ c. StrictlyRise nat_cmp c.candidates) calls.now }
    ensures { IfOk result (λ groups. AreGrouped groups.starts.items groups.sites.items functions (λ f. map (λ c. c.site) (filter (λ c. list_any (λ h. nat_eq h f) c.candidates) calls.now))) }
{
    let mut members = Vec::new(alloc);
    for call in calls {
        add_members(&mut members, call)?;
    }
    grouped(alloc, members, functions)
}

// Adds the site of the call to the group of each function that the call may enter.
fn add_members(members: &mut Vec<Member>, call: &CallEdge) -> Result<(), AllocError>
    ensures { OnOk result (members.new.items ≡ members.old.items ++ members_of call.now) }
{
    for function in call.candidates() {
        members.push(Member {
            group: *function,
            site: call.site(),
        })?;
    }
    Ok(())
}

// The sites by their groups, those of one group in the order in which they were given.
fn grouped(alloc: Global, mut members: Vec<Member>, groups: u32) -> Result<Groups, OutOfMemory>
    ensures { IfOk result (λ made. AreGrouped made.starts.items made.sites.items groups (λ k. map (λ m. m.site) (filter (λ m. nat_eq m.group k) members.items))) }
{
    members.sort_by_key(|m| m.group)?;
    let starts = starts_of(alloc, &members, groups)?;
    let sites = sites_of(alloc, &members)?;
    Ok(Groups { starts, sites })
}

// The sites, in their order.
fn sites_of(alloc: Global, members: &[Member]) -> Result<Vec<u32>, AllocError>
    ensures { IfOk result (λ sites. sites.items ≡ map (λ m. m.site) members.now) }
{
    members.iter().map(|m| m.site).collect(alloc)
}

// Where the items with each number from 0 to below the number of groups begin, and those past
// them.
fn starts_of<T: Numbered>(
    alloc: Global,
    items: &[T],
    groups: u32,
) -> Result<Vec<usize>, OutOfMemory>
    requires { IsNonDecreasingBy T.number items.now }
    ensures { IfOk result (λ starts. AreStarts T.number items.now (groups + 1) starts.items) }
{
    let mut starts = Vec::new(alloc);
    for group in 0..=groups {
        starts.push(start_of(items, group))?;
    }
    Ok(starts)
}

// Where the items with this number or a greater one begin, in log n steps.
fn start_of<T: Numbered>(items: &[T], bound: u32) -> usize
    requires { IsNonDecreasingBy T.number items.now }
    ensures { IsStart T.number items.now bound result }
{
    items.partition_point(|item| item.number() < bound)
}
