ghost use Rattle.std.specs.Prelude.{◌≡◌, ◌<◌, ℕ, nat_eq, None, Some, length, slice_index_or, IfOk, if◌then◌else◌};
ghost use Rattle.c_meaning.specs.CallGraph.{callee_at};
ghost use Rattle.flow_graph.specs.declared.call_sites.Place.{Place as Placed};
ghost use Rattle.flow_graph.specs.Saying.{mention_of, said};
ghost use Rattle.flow_graph.specs.Types.{types_at};
ghost use Rattle.flow_graph.specs.CallGraphPlaces.{first_of, placed, place_or_none, single};

use crate::mention::Mention;
use crate::types::place_of;
use c_tree::CType;
use dm_base::OutOfMemory;
use std::alloc::Global;

// What is called at a site: the function with this number, or a pointer of the type at this place.
#[derive(Clone, Copy)]
pub enum Place {
    Function(u32),
    Pointer(usize),
}

// Puts what is called at the site there, unless something is there.
fn put(places: &mut [Option<Place>], site: u32, place: Place)
    ensures { (s : ℕ) → s < length places.old → slice_index_or places.new s None ≡ first_of (slice_index_or places.old s None) (place_or_none (nat_eq s site) place) }
{
    let site = site as usize;
    if site >= places.len() {
        return;
    }
    if places[site].is_some() {
        return;
    }
    places[site] = Some(place);
}

// Puts what the mention calls at its site.
fn put_call(places: &mut [Option<Place>], types: &[&CType], m: &Mention)
    ensures { (s : ℕ) → s < length places.old → slice_index_or places.new s None ≡ first_of (slice_index_or places.old s None) (placed (types_at types.now) (callee_at s (single (mention_of m.now)))) }
{
    match m {
        Mention::Named(_) => {}
        Mention::Direct { site, function } => put(places, *site, Place::Function(*function)),
        Mention::Through { site, ctype } => {
            put(places, *site, Place::Pointer(place_of(types, ctype)))
        }
    }
}

// Puts what the mentions call at their sites.
fn put_calls(places: &mut [Option<Place>], types: &[&CType], ms: &[Mention])
    ensures length { length places.new ≡ length places.old }
    ensures put { (s : ℕ) → s < length places.old → slice_index_or places.old s None ≡ None → slice_index_or places.new s None ≡ placed (types_at types.now) (callee_at s (said ms.now)) }
{
    for m in ms {
        put_call(places, types, m);
    }
}

// So many sites without a call.
fn no_places(alloc: Global, sites: u32) -> Result<Vec<Option<Place>>, OutOfMemory>
    ensures length { IfOk result (λ v. length v.items ≡ sites) }
    ensures none { IfOk result (λ v. (s : ℕ) → slice_index_or v.items s None ≡ None) }
{
    let mut places = Vec::new(alloc);
    for _site in 0..sites {
        places.push(None)?;
    }
    Ok(places)
}

// What is called at each site.
pub fn places_of(
    alloc: Global,
    ms: &[Mention],
    types: &[&CType],
    sites: u32,
) -> Result<Vec<Option<Place>>, OutOfMemory>
    ensures length { IfOk result (λ v. length v.items ≡ sites) }
    ensures are { IfOk result (λ v. (s : ℕ) → s < sites → slice_index_or v.items s None ≡ placed (types_at types.now) (callee_at s (said ms.now))) }
{
    let mut places = no_places(alloc, sites)?;
    put_calls(&mut places, types, ms);
    Ok(places)
}
