ghost use Rattle.std.specs.Prelude.{◌≡◌, ◌≢◌, ◌↔◌, ◌<◌, ℕ, [], Contains, IsTrue, IfOk, OnOk, length, slice_index_or};
ghost use Rattle.slab.specs.Slab.{get};
ghost use Rattle.stack_automaton.specs.declared.place.Link.{Link as Linked};
ghost use Rattle.stack_automaton.specs.declared.place.Place.TheVariants.{Held};
ghost use Rattle.dm_base.specs.Adding.{Adds};
ghost use Rattle.stack_automaton.specs.Held.{IsThere};
ghost use Rattle.stack_automaton.specs.Links.{HasLink, functions_of};
ghost use Rattle.stack_automaton.specs.Resolving.{IsKnown, AreResolved};
ghost use Rattle.stack_automaton.specs.Storing.{Grows};

use crate::edges::link_edges;
use crate::key_set::KeySet;
use crate::links::Links;
use crate::order::order;
use crate::place::{Edge, Link, Place, State};
use crate::shared::{Shared, share};
use dm_base::OutOfMemory;
use slab::Slab;
use std::alloc::Global;

// Keys of the states of the functions that are entered, by their places, and the places at which the key
// is known.
#[derive(Drop)]
pub struct Resolved {
    pub keys: Vec<usize>,
    pub known: KeySet,
}

impl Resolved {
    // No key is known.
    pub fn new(alloc: Global) -> Resolved {
        Resolved {
            keys: Vec::new(alloc),
            known: KeySet::new(alloc),
        }
    }
}

// Whether the key at the place is known.
pub fn is_among(known: &KeySet, place: usize) -> bool
    ensures { IsTrue result ↔ Contains known.now.keys place }
{
    known.contains(place)
}

// Whether the key of what stands below is known.
fn is_known(links: &Links, known: &KeySet, place: Place) -> bool
    ensures { IsTrue result → IsKnown (functions_of links.now) known.now.keys place }
{
    match place {
        Place::Held(_) => true,
        Place::Entered(function) => is_among(known, links.place(function)),
    }
}

// Whether all keys to which these calls lead are known.
fn are_known(links: &Links, known: &KeySet, list: &[Link]) -> bool
    ensures { IsTrue result → (l : Linked) → Contains list.now l → IsKnown (functions_of links.now) known.now.keys l.place }
{
    for link in list {
        if !is_known(links, known, link.place) {
            return false;
        }
    }
    true
}

// Whether the keys at the first places are known.
pub fn are_all_known(known: &KeySet, count: usize) -> bool
    ensures { IsTrue result → (i : ℕ) → i < count → Contains known.now.keys i }
{
    for place in 0..count {
        if !is_among(known, place) {
            return false;
        }
    }
    true
}

// Notes the key at the place.
fn note_key(
    keys: &mut Vec<usize>,
    known: &mut KeySet,
    place: usize,
    key: usize,
) -> Result<(), OutOfMemory>
    requires within { place < length keys.old.items }
    ensures long { length keys.new.items ≡ length keys.old.items }
    ensures at { slice_index_or keys.new.items place 0 ≡ key }
    ensures others { (i : ℕ) → i ≢ place → slice_index_or keys.new.items i 0 ≡ slice_index_or keys.old.items i 0 }
    ensures known { OnOk result (Adds known.old.keys known.new.keys (λ i. i ≡ place)) }
{
    keys[place] = key;
    known.insert(place)
}

// Stores the state of the function at the place, where all keys to which its calls lead are known.
fn resolve_one(
    alloc: Global,
    states: &mut Slab<State>,
    shared: &mut Shared,
    edges: &mut Vec<Edge>,
    keys: &mut Vec<usize>,
    known: &mut KeySet,
    links: &Links,
    place: usize,
) -> Result<(), OutOfMemory>
    requires resolved { AreResolved (get states.old) keys.old.items known.old.keys links.now }
    requires held { (f q : ℕ) (l : Linked) → HasLink links.now f l → l.place ≡ Held q → IsThere (get states.old) q }
    ensures grows { Grows (get states.old) (get states.new) }
    ensures resolved { OnOk result (AreResolved (get states.new) keys.new.items known.new.keys links.now) }
{
    let Some(function) = links.function(place) else {
        return Ok(());
    };
    if is_among(known, place) {
        return Ok(());
    }
    if !are_known(links, known, links.of(function)) {
        return Ok(());
    }
    link_edges(edges, links, keys, links.of(function))?;
    let key = share(alloc, states, shared, edges)?;
    note_key(keys, known, place, key)
}

// Stores the states of the functions in the order in which they were found. A function is mostly found
// after those that call it, and so most states are stored here.
fn resolve_as_found(
    alloc: Global,
    states: &mut Slab<State>,
    shared: &mut Shared,
    edges: &mut Vec<Edge>,
    keys: &mut Vec<usize>,
    known: &mut KeySet,
    links: &Links,
) -> Result<(), OutOfMemory>
    requires resolved { AreResolved (get states.old) keys.old.items known.old.keys links.now }
    requires held { (f q : ℕ) (l : Linked) → HasLink links.now f l → l.place ≡ Held q → IsThere (get states.old) q }
    ensures grows { Grows (get states.old) (get states.new) }
    ensures resolved { OnOk result (AreResolved (get states.new) keys.new.items known.new.keys links.now) }
{
    for place in 0..links.len() {
        resolve_one(alloc, states, shared, edges, keys, known, links, place)?;
    }
    Ok(())
}

// Stores the states of the functions in an order in which each stands after those to which its calls lead.
fn resolve_in_order(
    alloc: Global,
    states: &mut Slab<State>,
    shared: &mut Shared,
    edges: &mut Vec<Edge>,
    keys: &mut Vec<usize>,
    known: &mut KeySet,
    links: &Links,
) -> Result<(), OutOfMemory>
    requires resolved { AreResolved (get states.old) keys.old.items known.old.keys links.now }
    requires held { (f q : ℕ) (l : Linked) → HasLink links.now f l → l.place ≡ Held q → IsThere (get states.old) q }
    ensures grows { Grows (get states.old) (get states.new) }
    ensures resolved { OnOk result (AreResolved (get states.new) keys.new.items known.new.keys links.now) }
{
    let order = order(alloc, links)?;
    for place in &order {
        resolve_one(alloc, states, shared, edges, keys, known, links, *place)?;
    }
    Ok(())
}

// Makes room for the keys of so many functions, of which none is known.
fn begin(keys: &mut Vec<usize>, known: &mut KeySet, count: usize) -> Result<(), OutOfMemory>
    ensures long { OnOk result (length keys.new.items ≡ count) }
    ensures none { known.new.keys ≡ [] }
{
    known.clear();
    keys.clear();
    keys.resize(count, 0)?;
    Ok(())
}

// Stores the states of the functions that are entered, bottom up, but for those from which a cycle of
// calls is reached.
pub fn resolve(
    alloc: Global,
    states: &mut Slab<State>,
    shared: &mut Shared,
    edges: &mut Vec<Edge>,
    found: &mut Resolved,
    links: &Links,
) -> Result<(), OutOfMemory>
    requires held { (f q : ℕ) (l : Linked) → HasLink links.now f l → l.place ≡ Held q → IsThere (get states.old) q }
    ensures grows { Grows (get states.old) (get states.new) }
    ensures resolved { OnOk result (AreResolved (get states.new) found.new.keys.items found.new.known.keys links.now) }
{
    let Resolved { keys, known } = found;
    begin(keys, known, links.len())?;
    resolve_as_found(alloc, states, shared, edges, keys, known, links)?;
    if known.len() == links.len() {
        return Ok(());
    }
    resolve_in_order(alloc, states, shared, edges, keys, known, links)
}
