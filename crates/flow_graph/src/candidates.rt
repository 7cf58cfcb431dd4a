ghost use Rattle.std.specs.Prelude.{◌≡◌, ◌++◌, map, OnOk, IfOk};
ghost use Rattle.std.specs.Ordering.{nat_cmp};
ghost use Rattle.c_tree.specs.View.{program_of};
ghost use Rattle.c_meaning.specs.ShapeOf.{taken_calls, candidate_places};
ghost use Rattle.flow_graph.specs.Calls.{AreCallsOf};
ghost use Rattle.c_meaning.specs.Sorted.{sorted};
ghost use Rattle.flow_graph.specs.Places.{call_of};

use crate::Calls;
use crate::places::places_of;
use crate::sites::{SiteEdge, order_numbers};
use c_tree::Program;
use dm_base::OutOfMemory;
use flow_model::{CallEdge, ModelBuilder};
use std::alloc::Global;

// The places of the functions that may be called at the site, in order; none where the site is not marked.
fn candidates_at(
    alloc: Global,
    program: &Program,
    calls: &Calls,
    taken: &[u32],
    site: u32,
) -> Result<Vec<u32>, OutOfMemory>
    requires calls { AreCallsOf (program_of program.now) calls.now }
    requires taken { taken.now ≡ taken_calls (program_of program.now) }
    ensures { IfOk result (λ found. found.items ≡ sorted nat_cmp (candidate_places (program_of program.now) site)) }
{
    if !calls.marked(site) {
        return Ok(Vec::new(alloc));
    }
    let _sites = program.sites();
    let mut places = places_of(alloc, program.defined(), taken, calls.candidates(site))?;
    order_numbers(&mut places);
    Ok(places)
}

// Adds the calls along these edges, with their candidates in order.
pub fn add_calls(
    builder: &mut ModelBuilder,
    alloc: Global,
    program: &Program,
    calls: &Calls,
    taken: &[u32],
    edges: &[SiteEdge],
) -> Result<(), OutOfMemory>
    requires calls { AreCallsOf (program_of program.now) calls.now }
    requires taken { taken.now ≡ taken_calls (program_of program.now) }
    ensures { OnOk result (builder.new ≡ record builder.old { calls = builder.old.calls ++ map (call_of (candidate_places (program_of program.now))) edges.now }) }
{
    for i in 0..edges.len() {
        let edge = edges[i];
        let found = candidates_at(alloc, program, calls, taken, edge.site)?;
        builder.call(CallEdge::new(edge.from, edge.site, edge.to, found))?;
    }
    Ok(())
}
