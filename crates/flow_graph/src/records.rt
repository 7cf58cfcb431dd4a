ghost use Rattle.std.specs.Prelude.{◌≡◌, ◌<◌, ◌^◌, ◌++◌, [], map, OnOk, IfOk};
ghost use Rattle.c_tree.specs.View.{program_of};
ghost use Rattle.c_meaning.specs.ShapeOf.{shapes_of_functions, names_of_functions, taken_calls, candidate_places};
ghost use Rattle.flow_graph.specs.Calls.{AreCallsOf};
ghost use Rattle.flow_graph.specs.View.{shapes_in};
ghost use Rattle.flow_model.specs.Order.{silent_order, sys_order};
ghost use Rattle.c_meaning.specs.GraphOf.{functions_from, edges_from, nodes_from, silent_edges, sys_edges};
ghost use Rattle.c_meaning.specs.Sorted.{sorted};
ghost use Rattle.flow_graph.specs.Places.{call_of};
ghost use Rattle.flow_graph.specs.SiteEdges.{site_edges, site_edge_order};

use crate::Calls;
use crate::candidates::add_calls;
use crate::lists::{Lists, lists_of};
use crate::model_functions::add_functions;
use crate::shape::Shape;
use crate::sites::{SiteEdge, sites_of};
use crate::taken::taken_of;
use c_tree::Program;
use dm_base::OutOfMemory;
use flow_model::{ModelBuilder, SilentEdge, SysEdge};
use std::alloc::Global;

// Adds silent edges.
fn add_silent(builder: &mut ModelBuilder, edges: &[SilentEdge]) -> Result<(), OutOfMemory>
    ensures { OnOk result (builder.new ≡ record builder.old { silent = builder.old.silent ++ edges.now }) }
{
    for i in 0..edges.len() {
        builder.silent(edges[i])?;
    }
    Ok(())
}

// Adds system-call edges.
fn add_sys(builder: &mut ModelBuilder, edges: &[SysEdge]) -> Result<(), OutOfMemory>
    ensures { OnOk result (builder.new ≡ record builder.old { sys = builder.old.sys ++ edges.now }) }
{
    for i in 0..edges.len() {
        builder.sys(edges[i])?;
    }
    Ok(())
}

// Gives a builder that has nothing the functions of these shapes, these edges, and the calls along these edges at
// sites.
fn fill(
    builder: &mut ModelBuilder,
    alloc: Global,
    program: &Program,
    calls: &Calls,
    shapes: &[Shape],
    taken: &[u32],
    lists: &Lists,
    sites: &[SiteEdge],
) -> Result<(), OutOfMemory>
    requires fresh { builder.old ≡ record { functions = []; silent = []; sys = []; calls = [] } }
    requires calls { AreCallsOf (program_of program.now) calls.now }
    requires shapes { shapes_in shapes.now ≡ shapes_of_functions (program_of program.now) }
    requires taken { taken.now ≡ taken_calls (program_of program.now) }
    requires few { nodes_from 0 (shapes_in shapes.now) < 2 ^ 32 }
    ensures { OnOk result (builder.new ≡ record { functions = functions_from 0 (names_of_functions (program_of program.now)) (shapes_in shapes.now); silent = lists.now.silent.items; sys = lists.now.sys.items; calls = map (call_of (candidate_places (program_of program.now))) sites.now }) }
{
    add_functions(builder, alloc, program, taken, shapes)?;
    add_silent(builder, &lists.silent)?;
    add_sys(builder, &lists.sys)?;
    add_calls(builder, alloc, program, calls, taken, sites)
}

// A builder with them.
fn builder_with(
    alloc: Global,
    program: &Program,
    calls: &Calls,
    shapes: &[Shape],
    taken: &[u32],
    lists: &Lists,
    sites: &[SiteEdge],
) -> Result<ModelBuilder, OutOfMemory>
    requires calls { AreCallsOf (program_of program.now) calls.now }
    requires shapes { shapes_in shapes.now ≡ shapes_of_functions (program_of program.now) }
    requires taken { taken.now ≡ taken_calls (program_of program.now) }
    requires few { nodes_from 0 (shapes_in shapes.now) < 2 ^ 32 }
    ensures { IfOk result (λ b. b ≡ record { functions = functions_from 0 (names_of_functions (program_of program.now)) (shapes_in shapes.now); silent = lists.now.silent.items; sys = lists.now.sys.items; calls = map (call_of (candidate_places (program_of program.now))) sites.now }) }
{
    let mut builder = ModelBuilder::new(alloc)?;
    fill(
        &mut builder,
        alloc,
        program,
        calls,
        shapes,
        taken,
        lists,
        sites,
    )?;
    Ok(builder)
}

// A builder with the functions, the edges and the calls of a program that has these shapes.
pub fn builder_of(
    alloc: Global,
    program: &Program,
    calls: &Calls,
    shapes: &[Shape],
) -> Result<ModelBuilder, OutOfMemory>
    requires calls { AreCallsOf (program_of program.now) calls.now }
    requires shapes { shapes_in shapes.now ≡ shapes_of_functions (program_of program.now) }
    requires few { nodes_from 0 (shapes_in shapes.now) < 2 ^ 32 }
    ensures { IfOk result (λ b. b ≡ record { functions = functions_from 0 (names_of_functions (program_of program.now)) (shapes_in shapes.now); silent = sorted silent_order (silent_edges (edges_from 0 (shapes_in shapes.now))); sys = sorted sys_order (sys_edges (edges_from 0 (shapes_in shapes.now))); calls = map (call_of (candidate_places (program_of program.now))) (sorted site_edge_order (site_edges (edges_from 0 (shapes_in shapes.now)))) }) }
{
    let taken = taken_of(alloc, program, calls)?;
    let lists = lists_of(alloc, shapes)?;
    let sites = sites_of(alloc, shapes)?;
    builder_with(alloc, program, calls, shapes, &taken, &lists, &sites)
}
