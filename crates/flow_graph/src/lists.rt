ghost use Rattle.std.specs.Prelude.{◌≡◌, ◌<◌, ◌^◌, ◌∷◌, ◌++◌, [], Contains, OnOk, IfOk};
ghost use Rattle.flow_graph.specs.View.{shapes_in};
ghost use Rattle.flow_graph.specs.Edges.{edge_of, edges_in};
ghost use Rattle.flow_graph.specs.Lists.{AreLists};
ghost use Rattle.flow_model.specs.Order.{silent_order, sys_order, StrictlyRise};
ghost use Rattle.c_meaning.specs.GraphOf.{edges_from, nodes_from, silent_edges, sys_edges};
ghost use Rattle.c_meaning.specs.Sorted.{sorted};

use crate::edge::{Edge, Label};
use crate::functions::edges_of;
use crate::shape::Shape;
use dm_base::OutOfMemory;
use flow_model::{SilentEdge, SysEdge};
use std::alloc::Global;
use std::cmp::Ordering;

// The edges of a graph of shapes along which nothing is read, and those along which a system call is read,
// in the order of models and each once.
#[derive(Drop)]
pub struct Lists {
    // The silent edges.
    pub silent: Vec<SilentEdge>,
    // The system-call edges.
    pub sys: Vec<SysEdge>,
}

// Sorts the items, and leaves out those that are there already.
pub fn in_order<T: Ord + Drop>(items: &mut Vec<T>)
    ensures rise { StrictlyRise T.cmp items.new.items }
    ensures from { (x : T) → Contains items.new.items x → Contains items.old.items x }
    ensures all { (x : T) → Contains items.old.items x → (y : T) × Contains items.new.items y × (T.cmp x y ≡ Ordering.Equal) }
{
    items.sort_unstable();
    items.dedup();
}

fn order_silent(edges: &mut Vec<SilentEdge>)
    ensures { edges.new.items ≡ sorted silent_order edges.old.items }
{
    in_order(edges);
}

fn order_sys(edges: &mut Vec<SysEdge>)
    ensures { edges.new.items ≡ sorted sys_order edges.old.items }
{
    in_order(edges);
}

// Adds the edge where nothing is read along it.
fn add_silent_edge(into: &mut Vec<SilentEdge>, edge: &Edge) -> Result<(), OutOfMemory>
    ensures { OnOk result (into.new.items ≡ into.old.items ++ silent_edges (edge_of edge.now ∷ [])) }
{
    match &edge.label {
        Label::Silent => {
            into.push(SilentEdge {
                from: edge.from,
                to: edge.to,
            })?;
            Ok(())
        }
        Label::System(_, _) => Ok(()),
        Label::Site(_) => Ok(()),
    }
}

fn silent_in(alloc: Global, edges: &[Edge]) -> Result<Vec<SilentEdge>, OutOfMemory>
    ensures { IfOk result (λ v. v.items ≡ silent_edges (edges_in edges.now)) }
{
    let mut found = Vec::new(alloc);
    for edge in edges {
        add_silent_edge(&mut found, edge)?;
    }
    Ok(found)
}

// Adds the edge where a system call is read along it.
fn add_sys_edge(into: &mut Vec<SysEdge>, edge: &Edge) -> Result<(), OutOfMemory>
    ensures { OnOk result (into.new.items ≡ into.old.items ++ sys_edges (edge_of edge.now ∷ [])) }
{
    match &edge.label {
        Label::Silent => Ok(()),
        Label::System(name, args) => {
            into.push(SysEdge {
                from: edge.from,
                name: *name,
                to: edge.to,
                args: *args,
            })?;
            Ok(())
        }
        Label::Site(_) => Ok(()),
    }
}

fn sys_in(alloc: Global, edges: &[Edge]) -> Result<Vec<SysEdge>, OutOfMemory>
    ensures { IfOk result (λ v. v.items ≡ sys_edges (edges_in edges.now)) }
{
    let mut found = Vec::new(alloc);
    for edge in edges {
        add_sys_edge(&mut found, edge)?;
    }
    Ok(found)
}

// The silent and the system-call edges of the graph of functions with these shapes, as a model keeps them.
pub fn lists_of(alloc: Global, shapes: &[Shape]) -> Result<Lists, OutOfMemory>
    requires { nodes_from 0 (shapes_in shapes.now) < 2 ^ 32 }
    ensures { IfOk result (AreLists (edges_from 0 (shapes_in shapes.now))) }
{
    let edges = edges_of(alloc, shapes)?;
    let mut silent = silent_in(alloc, &edges)?;
    order_silent(&mut silent);
    let mut sys = sys_in(alloc, &edges)?;
    order_sys(&mut sys);
    Ok(Lists { silent, sys })
}
