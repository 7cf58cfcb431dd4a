ghost use Rattle.std.specs.Prelude.{◌≡◌, Contains, IfOk, Some, None, IsTrue, IfSome};
ghost use Rattle.slab.specs.Slab.{get};
ghost use Rattle.stack_automaton.specs.declared.place.Edge.{Edge as Edge'};
ghost use Rattle.stack_automaton.specs.Held.{IsThere};
ghost use Rattle.stack_automaton.specs.Storing.{Grows, IsPut};

use crate::place::{Edge, State};
use dm_base::OutOfMemory;
use slab::Slab;
use std::alloc::Global;
use std::collections::HashMap;

// Keys of states, by a digest of their edges, so that equal states are stored once. A key counts only
// where the states have just the edges under it, so a key that is out of date does no harm.
#[derive(Drop)]
pub struct Shared {
    keys: HashMap<u64, usize>,
    // The key behind the last one that was told. It is tried first, since a trace that does again what it
    // did before mostly comes to states in the order in which they were stored.
    next: usize,
}

impl Shared {
    // No key is known.
    pub fn new(alloc: Global) -> Shared {
        Shared {
            keys: HashMap::new(alloc),
            next: 0,
        }
    }

    // A key under which the states have these edges, where it is known.
    pub fn find(&self, states: &Slab<State>, edges: &[Edge]) -> Option<usize>
        ensures { IfSome result (λ key. get states.now key ≡ Some edges.now) }
    {
        if has_edges(states, self.next, edges) {
            return Some(self.next);
        }
        let key = self.known(edges)?;
        if has_edges(states, key, edges) {
            Some(key)
        } else {
            None
        }
    }

    // The key that was noted last for such edges, or for others with the same digest.
    fn known(&self, edges: &[Edge]) -> Option<usize> {
        match self.keys.get(&digest(edges)) {
            Some(key) => Some(*key),
            None => None,
        }
    }

    // The key behind this one is tried first next time.
    pub fn go_on_from(&mut self, key: usize) {
        self.next = key.wrapping_add(1);
    }

    // Notes the key of a state with this digest.
    pub fn note(&mut self, digest: u64, key: usize) -> Result<(), OutOfMemory> {
        self.keys.insert(digest, key)?;
        Ok(())
    }

    // Forgets the keys that are gone.
    pub fn sweep(&mut self, states: &Slab<State>) {
        self.keys.retain(|_, key| states.contains(*key));
    }
}

fn are_equal(a: &[Edge], b: &[Edge]) -> bool
    ensures { IsTrue result → a.now ≡ b.now }
{
    a == b
}

// Whether the state at the key is there, with just these edges.
fn has_edges(states: &Slab<State>, key: usize, edges: &[Edge]) -> bool
    ensures { IsTrue result → get states.now key ≡ Some edges.now }
{
    match states.get(key) {
        Some(state) => are_equal(state.edges(), edges),
        None => false,
    }
}

// The digest of the edges (the hash FNV-1a over whole numbers).
fn digest(edges: &[Edge]) -> u64 {
    let mut hash: u64 = 0xcbf2_9ce4_8422_2325;
    for edge in edges {
        hash = (hash ^ u64::from(edge.label)).wrapping_mul(0x100_0000_01b3);
        hash = (hash ^ edge.to as u64).wrapping_mul(0x100_0000_01b3);
    }
    hash
}

// Puts the state under a new key.
pub fn insert(states: &mut Slab<State>, state: State) -> Result<usize, OutOfMemory>
    ensures vacant { IfOk result (λ key. get states.old key ≡ None) }
    ensures put { IfOk result (λ key. IsPut (get states.old) (get states.new) key (Some state)) }
    ensures grows { ((e : Edge') → Contains state e → IsThere (get states.old) e.to) → Grows (get states.old) (get states.new) }
{
    let key = states.insert(state)?;
    Ok(key)
}

// The key of the state with these edges: that of an equal state, where one is known, or else a new key.
pub fn share(
    alloc: Global,
    states: &mut Slab<State>,
    shared: &mut Shared,
    edges: &[Edge],
) -> Result<usize, OutOfMemory>
    ensures grows { ((e : Edge') → Contains edges.now e → IsThere (get states.old) e.to) → Grows (get states.old) (get states.new) }
    ensures found { IfOk result (λ key. get states.new key ≡ Some edges.now) }
{
    if let Some(key) = shared.find(states, edges) {
        shared.go_on_from(key);
        return Ok(key);
    }
    let key = insert(states, State::of(alloc, edges)?)?;
    shared.note(digest(edges), key)?;
    shared.go_on_from(key);
    Ok(key)
}
