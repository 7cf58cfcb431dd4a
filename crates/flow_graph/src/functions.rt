ghost use Rattle.std.specs.Prelude.{◌≡◌, ◌<◌, ◌^◌, min, IfOk};
ghost use Rattle.flow_graph.specs.View.{shapes_in};
ghost use Rattle.flow_graph.specs.Edges.{edges_in};
ghost use Rattle.c_meaning.specs.GraphOf.{nodes_from, edges_from};

use crate::edge::{Edge, Places};
use crate::laying::lay;
use crate::width::add;
use crate::{Shape, width_of};
use dm_base::OutOfMemory;
use std::alloc::Global;

/// How many nodes the graph of functions with these shapes has, or `most` where it has more: two for each
/// function, and the fresh nodes of its shape.
pub fn nodes_of(shapes: &[Shape], most: u32) -> u32
    ensures { result ≡ min (nodes_from 0 (shapes_in shapes.now)) most }
{
    let mut sum = 0;
    for shape in shapes {
        sum = add(sum, add(2, width_of(shape, most), most), most);
    }
    sum
}

// The edges of the graph of functions with these shapes, in the order in which they are laid. Each function
// makes its entry, then its exit, and then lays its shape from entry to exit, where its returns lead too.
pub fn edges_of(alloc: Global, shapes: &[Shape]) -> Result<Vec<Edge>, OutOfMemory>
    requires { nodes_from 0 (shapes_in shapes.now) < 2 ^ 32 }
    ensures { IfOk result (λ edges. edges_in edges.items ≡ edges_from 0 (shapes_in shapes.now)) }
{
    let mut edges = Vec::new(alloc);
    let mut entry = 0;
    for shape in shapes {
        let exit = entry + 1;
        let fresh = entry + 2;
        let ends = Places {
            to: exit,
            brk: exit,
            con: exit,
            ret: exit,
        };
        entry = lay(&mut edges, shape, entry, fresh, ends)?;
    }
    Ok(edges)
}
