ghost use Rattle.std.specs.Prelude.{◌≡◌, ◌<◌, ◌^◌, ◌∷◌, ◌++◌, [], OnOk, IfOk};
ghost use Rattle.std.specs.Ordering.{nat_cmp};
ghost use Rattle.flow_graph.specs.View.{shapes_in};
ghost use Rattle.flow_graph.specs.Edges.{edge_of, edges_in};
ghost use Rattle.c_meaning.specs.GraphOf.{edges_from, nodes_from};
ghost use Rattle.c_meaning.specs.Sorted.{sorted};
ghost use Rattle.flow_graph.specs.SiteEdges.{site_edges, site_edge_order};

use crate::edge::{Edge, Label};
use crate::functions::edges_of;
use crate::lists::in_order;
use crate::shape::Shape;
use dm_base::OutOfMemory;
use std::alloc::Global;

// An edge that passes the call at a site. Such edges are ordered by their fields from the first on.
#[derive(Clone, Copy, PartialEq, Eq, PartialOrd, Ord)]
pub struct SiteEdge {
    pub site: u32,
    pub from: u32,
    pub to: u32,
}

// Sorts the numbers, and leaves each once.
pub fn order_numbers(numbers: &mut Vec<u32>)
    ensures { numbers.new.items ≡ sorted nat_cmp numbers.old.items }
{
    in_order(numbers);
}

fn order_sites(edges: &mut Vec<SiteEdge>)
    ensures { edges.new.items ≡ sorted site_edge_order edges.old.items }
{
    in_order(edges);
}

// Adds the edge where it passes a call at a site.
fn add_site_edge(into: &mut Vec<SiteEdge>, edge: &Edge) -> Result<(), OutOfMemory>
    ensures { OnOk result (into.new.items ≡ into.old.items ++ site_edges (edge_of edge.now ∷ [])) }
{
    match &edge.label {
        Label::Silent => Ok(()),
        Label::System(_, _) => Ok(()),
        Label::Site(site) => {
            into.push(SiteEdge {
                site: *site,
                from: edge.from,
                to: edge.to,
            })?;
            Ok(())
        }
    }
}

fn sites_in(alloc: Global, edges: &[Edge]) -> Result<Vec<SiteEdge>, OutOfMemory>
    ensures { IfOk result (λ v. v.items ≡ site_edges (edges_in edges.now)) }
{
    let mut found = Vec::new(alloc);
    for edge in edges {
        add_site_edge(&mut found, edge)?;
    }
    Ok(found)
}

// The edges at sites of the graph of functions with these shapes, in the order of the sites.
pub fn sites_of(alloc: Global, shapes: &[Shape]) -> Result<Vec<SiteEdge>, OutOfMemory>
    requires { nodes_from 0 (shapes_in shapes.now) < 2 ^ 32 }
    ensures { IfOk result (λ v. v.items ≡ sorted site_edge_order (site_edges (edges_from 0 (shapes_in shapes.now)))) }
{
    let edges = edges_of(alloc, shapes)?;
    let mut found = sites_in(alloc, &edges)?;
    order_sites(&mut found);
    Ok(found)
}
