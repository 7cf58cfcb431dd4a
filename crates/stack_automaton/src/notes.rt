ghost use Rattle.std.specs.Prelude.{◌≡◌, ◌≢◌, ◌⊎◌, ◌↔◌, ℕ, List, Contains, IsTrue, OnOk, Some, None};
ghost use Rattle.slab.specs.Slab.{get};
ghost use Rattle.stack_automaton.specs.declared.place.Edge.{Edge as Edge'};
ghost use Rattle.dm_base.specs.Adding.{Has, Adds};
ghost use Rattle.stack_automaton.specs.Held.{HasEdge, Leads};
ghost use Rattle.stack_automaton.specs.Noting.{IsNextTo, IsLedTo};

use crate::key_set::KeySet;
use crate::place::{Edge, State};
use dm_base::OutOfMemory;
use slab::Slab;

// Whether the key is noted.
fn is_noted(noted: &KeySet, key: usize) -> bool
    ensures { IsTrue result ↔ Contains noted.now.keys key }
{
    noted.contains(key)
}

// Notes the key where it isn't noted.
fn note(noted: &mut KeySet, key: usize) -> Result<(), OutOfMemory>
    ensures { OnOk result (Adds noted.old.keys noted.new.keys (λ k. k ≡ key)) }
{
    noted.insert(key)
}

fn note_edges(noted: &mut KeySet, edges: &[Edge]) -> Result<(), OutOfMemory>
    ensures { OnOk result (Adds noted.old.keys noted.new.keys (λ k. Has (λ e. k ≡ e.to) edges.now)) }
{
    for edge in edges {
        note(noted, edge.to)?;
    }
    Ok(())
}

// Notes the keys to which the edges of a state lead.
fn note_next(noted: &mut KeySet, states: &Slab<State>, key: usize) -> Result<(), OutOfMemory>
    ensures { OnOk result (Adds noted.old.keys noted.new.keys (IsNextTo (get states.now) key)) }
{
    match states.get(key) {
        Some(state) => note_edges(noted, state.edges()),
        None => Ok(()),
    }
}

// Notes all keys to which edges lead from the noted keys.
fn note_all(noted: &mut KeySet, states: &Slab<State>) -> Result<(), OutOfMemory>
    ensures { OnOk result ((k : ℕ) → Contains noted.new.keys k ↔ IsLedTo (get states.now) noted.old.keys k) }
{
    let mut i = 0;
    while let Some(&key) = noted.as_slice().get(i) {
        note_next(noted, states, key)?;
        i += 1;
    }
    Ok(())
}

// Notes the key, and all keys to which edges lead from it.
pub fn note_from(noted: &mut KeySet, states: &Slab<State>, key: usize) -> Result<(), OutOfMemory>
    ensures { OnOk result ((k : ℕ) → Contains noted.new.keys k ↔ ((j : ℕ) × (Contains noted.old.keys j ⊎ (j ≡ key)) × Leads (HasEdge (get states.now)) j k)) }
{
    note(noted, key)?;
    note_all(noted, states)
}

// Frees the state at the key, unless it is noted or the last.
fn sweep_one(states: &mut Slab<State>, noted: &KeySet, last: usize, key: usize)
    ensures kept { (k : ℕ) → Contains noted.now.keys k ⊎ (k ≡ last) → get states.new k ≡ get states.old k }
    ensures others { (k : ℕ) → k ≢ key → get states.new k ≡ get states.old k }
    ensures gone { (Contains noted.now.keys key → ⊥) → key ≢ last → get states.new key ≡ None }
    ensures fewer { (k : ℕ) (edges : List Edge') → get states.new k ≡ Some edges → get states.old k ≡ Some edges }
{
    if key == last {
        return;
    }
    if is_noted(noted, key) {
        return;
    }
    states.try_remove(key);
}

// Frees the states that aren't noted, but for the last.
pub fn sweep_states(states: &mut Slab<State>, noted: &KeySet, last: usize)
    ensures kept { (k : ℕ) → Contains noted.now.keys k ⊎ (k ≡ last) → get states.new k ≡ get states.old k }
    ensures gone { (k : ℕ) → (Contains noted.now.keys k → ⊥) → k ≢ last → get states.new k ≡ None }
    ensures fewer { (k : ℕ) (edges : List Edge') → get states.new k ≡ Some edges → get states.old k ≡ Some edges }
{
    for key in 0..states.capacity() {
        sweep_one(states, noted, last, key);
    }
}
