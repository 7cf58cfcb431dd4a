ghost use Rattle.std.specs.Prelude.{◌≡◌, ◌<◌, ℕ, length, map, slice_index, Contains, IfOk};
ghost use Rattle.inline_model.specs.Entries.{AreEntries};
ghost use Rattle.inline_model.specs.Depth.{HasLength, HasCycle, HasDepth};
ghost use Rattle.inline_model.specs.Places.{site_at};
ghost use Rattle.inline_model.specs.Searching.{Closes};

use crate::depths::Depth;
use crate::search::{Search, Turn};
use crate::turns::{begin, turn};
use crate::{Entry, Sites, openings};
use dm_base::OutOfMemory;
use flow_model::Model;
use std::alloc::Global;

// The site of the call edge at the place.
fn site_of(model: &Model, place: usize) -> u32
    requires { place < length model.now.calls }
    ensures { result ≡ site_at model.now place }
{
    model.calls()[place].site()
}

// The sites of the call edges at the places.
fn sites_at(alloc: Global, model: &Model, places: &[usize]) -> Result<Sites, OutOfMemory>
    requires { (p : ℕ) → Contains places.now p → p < length model.now.calls }
    ensures { IfOk result (λ sites. sites ≡ map (site_at model.now) places.now) }
{
    let mut sites = Vec::new(alloc);
    for place in places {
        sites.push(site_of(model, *place))?;
    }
    Ok(Sites::new(sites))
}

// Where the place stands among the others.
fn find_place(places: &[usize], place: usize) -> usize
    requires { Contains places.now place }
    ensures { (result < length places.now) × (slice_index places.now result ≡ place) }
{
    for (at, one) in places.iter().enumerate() {
        if *one == place {
            return at;
        }
    }
    unreachable!()
}

// The chain of the path, whose newest call edge opens the one at the place, which is on the path.
fn recursion(
    alloc: Global,
    search: &Search,
    model: &Model,
    place: usize,
) -> Result<Depth, OutOfMemory>
    requires { Closes model.now search.now place }
    ensures length { IfOk result (HasLength model.now) }
    ensures cycle { IfOk result (HasCycle model.now) }
{
    let _nodes = model.nodes();
    let places = search.path.places()?;
    let at = find_place(&places, place);
    let (before, after) = places.split_at(at);
    let first = sites_at(alloc, model, before)?;
    let cycle = sites_at(alloc, model, after)?;
    Ok(Depth::Unbounded { first, cycle })
}

/// How many calls may be open at once in the model whose openings these are, by one search over the call edges that are
/// reached, in the order of their sites. Each call edge is searched once, and each candidate's call edges are gone through
/// once.
pub fn depth_of(alloc: Global, model: &Model, entries: &[Entry]) -> Result<Depth, OutOfMemory>
    requires { AreEntries model.now entries.now }
    ensures length { IfOk result (HasLength model.now) }
    ensures cycle { IfOk result (HasCycle model.now) }
    ensures words { IfOk result (HasDepth model.now) }
{
    let _nodes = model.nodes();
    let mut search = begin(alloc, model)?;
    'turns: loop {
        match turn(&mut search, model, entries)? {
            Turn::Goes => {}
            Turn::Ends(height) => return Ok(Depth::Greatest(height)),
            Turn::Returns(place) => return recursion(alloc, &search, model, place),
        }
    }
}

/// How many calls may be open at once in the model: the length of the longest chains of sites of which each opens the
/// next, or a chain that ends in a cycle.
///
/// # Errors
///
/// `OutOfMemory` where memory was refused.
pub fn depth(alloc: Global, model: &Model) -> Result<Depth, OutOfMemory>
    ensures length { IfOk result (HasLength model.now) }
    ensures cycle { IfOk result (HasCycle model.now) }
    ensures words { IfOk result (HasDepth model.now) }
{
    let entries = openings(alloc, model)?;
    depth_of(alloc, model, &entries)
}
