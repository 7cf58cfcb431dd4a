ghost use Rattle.std.specs.Prelude.{◌≡◌, ◌≢◌, ◌<◌, ℕ, List, Contains, IfOk, OnOk, Some, length, slice_index_or};
ghost use Rattle.slab.specs.Slab.{ContainsKey, get};
ghost use Rattle.stack_automaton.specs.declared.place.Fact.{Fact as Fact'};
ghost use Rattle.stack_automaton.specs.declared.place.Link.{Link as Linked};
ghost use Rattle.stack_automaton.specs.Held.{States, IsThere};
ghost use Rattle.stack_automaton.specs.Links.{HasLink, functions_of};
ghost use Rattle.stack_automaton.specs.Resolving.{AreResolved, IsChosen};
ghost use Rattle.stack_automaton.specs.Storing.{IsClosed, Grows, IsPut, key_at, Planned, IsFilled, Rewrites, Filled, IsEvent, AreStored, IsStored};

use crate::edges::{link_edges, tops};
use crate::key_set::KeySet;
use crate::links::Links;
use crate::place::{Edge, State};
use crate::resolve::{Resolved, are_all_known, is_among, resolve};
use crate::saturate::Closure;
use crate::shared::{Shared, insert, share};
use dm_base::OutOfMemory;
use flow_model::Model;
use slab::Slab;
use std::alloc::Global;

// Puts another state under the key.
fn put(states: &mut Slab<State>, key: usize, state: State)
    requires { ContainsKey states.old key }
    ensures { IsPut (get states.old) (get states.new) key (Some state) }
{
    states.remove(key);
    states.insert_reserved(state);
}

// The key of the state of the function at the place: the known one, or else a new one, at which there are
// no edges yet.
fn plan_one(
    alloc: Global,
    states: &mut Slab<State>,
    found: &[usize],
    known: &KeySet,
    place: usize,
) -> Result<usize, OutOfMemory>
    requires within { place < length found.now }
    requires there { Contains known.now.keys place → IsThere (get states.old) (slice_index_or found.now place 0) }
    ensures grows { Grows (get states.old) (get states.new) }
    ensures there { IfOk result (λ key. IsThere (get states.new) key) }
    ensures chosen { IfOk result (λ key. IsChosen (get states.old) found.now known.now.keys place key) }
{
    if is_among(known, place) {
        return Ok(found[place]);
    }
    insert(states, State::empty(alloc))
}

// A key for the state of each function that is entered. The new states have no edges yet.
fn plan(
    alloc: Global,
    states: &mut Slab<State>,
    found: &[usize],
    known: &KeySet,
) -> Result<Vec<usize>, OutOfMemory>
    requires there { (i : ℕ) → Contains known.now.keys i → IsThere (get states.old) (slice_index_or found.now i 0) }
    ensures grows { Grows (get states.old) (get states.new) }
    ensures planned { IfOk result (λ keys. Planned (get states.old) (get states.new) found.now known.now.keys keys.items (length found.now)) }
{
    let mut keys = Vec::new(alloc);
    for place in 0..found.len() {
        let key = plan_one(alloc, states, found, known, place)?;
        keys.push(key)?;
    }
    Ok(keys)
}

// Gives the state at the place the edges of its calls, unless it has them.
fn fill_one(
    alloc: Global,
    states: &mut Slab<State>,
    edges: &mut Vec<Edge>,
    keys: &[usize],
    known: &KeySet,
    links: &Links,
    place: usize,
) -> Result<(), OutOfMemory>
    requires within { place < length keys.now }
    requires own { IsThere (get states.old) (slice_index_or keys.now place 0) }
    requires targets { (f : ℕ) (l : Linked) → HasLink links.now f l → IsThere (get states.old) (key_at (functions_of links.now) keys.now l.place) }
    requires known { Contains known.now.keys place → IsFilled (get states.old) keys.now links.now place }
    ensures filled { OnOk result (IsFilled (get states.new) keys.now links.now place) }
    ensures others { (k : ℕ) → ((Contains known.now.keys place → ⊥) → slice_index_or keys.now place 0 ≢ k) → get states.new k ≡ get states.old k }
    ensures there { (k : ℕ) → IsThere (get states.old) k → IsThere (get states.new) k }
    ensures closed { IsClosed (get states.old) → IsClosed (get states.new) }
{
    if is_among(known, place) {
        return Ok(());
    }
    if let Some(function) = links.function(place) {
        link_edges(edges, links, keys, links.of(function))?;
        put(states, keys[place], State::of(alloc, edges)?);
    }
    Ok(())
}

// Gives each state the edges of its calls.
fn fill(
    alloc: Global,
    states: &mut Slab<State>,
    edges: &mut Vec<Edge>,
    keys: &[usize],
    known: &KeySet,
    links: &Links,
) -> Result<(), OutOfMemory>
    requires own { (i : ℕ) → i < length keys.now → IsThere (get states.old) (slice_index_or keys.now i 0) }
    requires targets { (f : ℕ) (l : Linked) → HasLink links.now f l → IsThere (get states.old) (key_at (functions_of links.now) keys.now l.place) }
    requires apart { (i j : ℕ) → i < length keys.now → j < length keys.now → i ≢ j → (Contains known.now.keys j → ⊥) → slice_index_or keys.now i 0 ≢ slice_index_or keys.now j 0 }
    requires known { (i : ℕ) → i < length keys.now → Contains known.now.keys i → IsFilled (get states.old) keys.now links.now i }
    ensures rewrites { Rewrites (get states.old) (get states.new) keys.now known.now.keys }
    ensures filled { OnOk result (Filled (get states.old) (get states.new) keys.now known.now.keys links.now (length keys.now)) }
{
    for place in 0..keys.len() {
        fill_one(alloc, states, edges, keys, known, links, place)?;
    }
    Ok(())
}

// Stores the states of the entered functions under the keys that are known, and new keys for the others.
fn store_others(
    alloc: Global,
    states: &mut Slab<State>,
    model: &Model,
    done: &Closure,
    edges: &mut Vec<Edge>,
    found: &[usize],
    known: &KeySet,
) -> Result<Vec<usize>, OutOfMemory>
    requires event { (begin : List Fact') × (s : States) × IsEvent model.now s begin done.now × IsClosed s × Grows s (get states.old) }
    requires resolved { AreResolved (get states.old) found.now known.now.keys done.now.links }
    ensures grows { Grows (get states.old) (get states.new) }
    ensures entered { IfOk result (λ keys. AreStored (get states.new) done.now keys.items) }
{
    let links = &done.links;
    let vec = plan(alloc, states, found, known)?;
    let keys: &[usize] = &vec;
    fill(alloc, states, edges, keys, known, links)?;
    Ok(vec)
}

// The keys of the functions that were entered, with the edges of their calls. A function has a new key
// only where a cycle of calls is reached from it.
fn store_entered(
    alloc: Global,
    states: &mut Slab<State>,
    shared: &mut Shared,
    model: &Model,
    done: &Closure,
    found: &mut Resolved,
    edges: &mut Vec<Edge>,
) -> Result<(), OutOfMemory>
    requires event { (begin : List Fact') × IsEvent model.now (get states.old) begin done.now }
    requires closed { IsClosed (get states.old) }
    ensures grows { Grows (get states.old) (get states.new) }
    ensures entered { OnOk result (AreStored (get states.new) done.now found.new.keys.items) }
{
    resolve(alloc, states, shared, edges, found, &done.links)?;
    let Resolved { keys, known } = found;
    if are_all_known(known, keys.len()) {
        return Ok(());
    }
    *keys = store_others(alloc, states, model, done, edges, keys, known)?;
    Ok(())
}

// Stores the states of an event, and gives the key of its own.
pub fn store(
    alloc: Global,
    states: &mut Slab<State>,
    shared: &mut Shared,
    model: &Model,
    done: &Closure,
    found: &mut Resolved,
    edges: &mut Vec<Edge>,
) -> Result<usize, OutOfMemory>
    requires event { (begin : List Fact') × IsEvent model.now (get states.old) begin done.now }
    requires closed { IsClosed (get states.old) }
    ensures grows { Grows (get states.old) (get states.new) }
    ensures stored { IfOk result (λ key. (begin : List Fact') → IsEvent model.now (get states.old) begin done.now → IsStored model.now (get states.old) (get states.new) begin key) }
    ensures there { IfOk result (λ key. IsThere (get states.new) key) }
{
    store_entered(alloc, states, shared, model, done, found, edges)?;
    tops(edges, &done.links, &found.keys, done.facts.as_slice())?;
    share(alloc, states, shared, edges)
}
