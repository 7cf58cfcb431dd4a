ghost use Rattle.std.specs.Prelude.{◌≡◌, ◌+◌, ◌<◌, ◌^◌, ◌++◌, ◌∷◌, [], length, slice_index_or, OnOk, IfOk};
ghost use Rattle.c_tree.specs.View.{program_of};
ghost use Rattle.c_meaning.specs.ShapeOf.{taken_calls, names_of_functions};
ghost use Rattle.flow_graph.specs.View.{shape_of, shapes_in};
ghost use Rattle.c_meaning.specs.GraphOf.{functions_from, nodes_from};
ghost use Rattle.c_meaning.specs.GraphLayout.{width};

use crate::shape::Shape;
use crate::width::width_of;
use c_tree::Program;
use dm_base::{Bytes, OutOfMemory};
use flow_model::{ModelBuilder, ModelFunction};
use std::alloc::Global;

// The name of the function at this place among the defined ones and the taken system calls.
fn name_at<'p>(program: &'p Program, taken: &[u32], place: usize) -> &'p [u8]
    requires taken { taken.now ≡ taken_calls (program_of program.now) }
    requires inside { place < length (names_of_functions (program_of program.now)) }
    ensures { result.now ≡ slice_index_or (names_of_functions (program_of program.now)) place [] }
{
    let defined = program.defined() as usize;
    let _sites = program.sites();
    if place < defined {
        return program.name_of(place as u32);
    }
    program.name_of(defined as u32 + taken[place - defined])
}

// The node past those of a function that begins at this node.
fn next_entry(entry: u32, shape: &Shape) -> u32
    requires { entry + 2 + width (shape_of shape.now) < 2 ^ 32 }
    ensures { result ≡ entry + 2 + width (shape_of shape.now) }
{
    entry + 2 + width_of(shape, u32::MAX)
}

// Adds a function that begins at this node, and gives the node past its own.
fn add_function(
    builder: &mut ModelBuilder,
    alloc: Global,
    name: &[u8],
    entry: u32,
    shape: &Shape,
) -> Result<u32, OutOfMemory>
    requires { entry + 2 + width (shape_of shape.now) < 2 ^ 32 }
    ensures made { OnOk result (builder.new ≡ record builder.old { functions = builder.old.functions ++ record { name = name.now; entry = entry; exit = entry + 1 } ∷ [] }) }
    ensures next { IfOk result (λ next. next ≡ entry + 2 + width (shape_of shape.now)) }
{
    let next = next_entry(entry, shape);
    let name = Bytes::of(alloc, name)?;
    builder.function(ModelFunction {
        name,
        entry,
        exit: entry + 1,
    })?;
    Ok(next)
}

// Adds the functions that have these shapes, each with its entry and its exit.
pub fn add_functions(
    builder: &mut ModelBuilder,
    alloc: Global,
    program: &Program,
    taken: &[u32],
    shapes: &[Shape],
) -> Result<(), OutOfMemory>
    requires taken { taken.now ≡ taken_calls (program_of program.now) }
    requires many { length shapes.now ≡ length (names_of_functions (program_of program.now)) }
    requires few { nodes_from 0 (shapes_in shapes.now) < 2 ^ 32 }
    ensures { OnOk result (builder.new ≡ record builder.old { functions = builder.old.functions ++ functions_from 0 (names_of_functions (program_of program.now)) (shapes_in shapes.now) }) }
{
    let mut entry = 0;
    for i in 0..shapes.len() {
        let name = name_at(program, taken, i);
        entry = add_function(builder, alloc, name, entry, &shapes[i])?;
    }
    Ok(())
}
