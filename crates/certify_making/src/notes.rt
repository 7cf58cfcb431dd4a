ghost use Rattle.std.specs.Prelude.{◌≡◌, ◌⊎◌, ◌↔◌, ℕ, Contains, OnOk, Some};
ghost use Rattle.certify_making.specs.declared.notes.Key.{Key as Key'};
ghost use Rattle.certify_making.specs.Notes.{HasKey, HasNote, other_side};

use certify_facts::Fact;
use certify_steps::ends_activation;
use dm_base::OutOfMemory;
use flow_model::Model;
use indexmap::IndexMap;
use std::alloc::Global;

// The facts that are noted of an activation, which has its function and was entered after so many events.
#[derive(Clone, Copy, PartialEq, Eq, Hash)]
pub enum Key {
    // Those at its exit.
    Exits { entered: u32, function: u32 },
    // The links that say where it was called.
    Links { entered: u32, function: u32 },
}

// Under which key the fact is noted, if it is.
pub fn key_of(model: &Model, fact: Fact) -> Option<Key>
    ensures { (key : Key') → (result ≡ Some key) ↔ HasKey model.now fact key }
{
    match fact {
        Fact::Callgraph { .. } => None,
        Fact::At { i, f, .. } => {
            if ends_activation(model, fact) {
                Some(Key::Exits {
                    entered: i,
                    function: f,
                })
            } else {
                None
            }
        }
        Fact::Link { i, f, .. } => Some(Key::Links {
            entered: i,
            function: f,
        }),
    }
}

// The key of the facts with which those of the key give returns.
pub fn other_side(key: Key) -> Key
    ensures { result ≡ other_side key }
{
    match key {
        Key::Exits { entered, function } => Key::Links { entered, function },
        Key::Links { entered, function } => Key::Exits { entered, function },
    }
}

// For each key the numbers of its facts.
#[derive(Drop)]
pub struct Notes {
    alloc: Global,
    lists: IndexMap<Key, Vec<u32>>,
}

impl Notes {
    // No fact is noted yet.
    pub fn new(alloc: Global) -> Notes {
        Notes {
            alloc,
            lists: IndexMap::new(alloc),
        }
    }

    // Takes the numbers of the key out.
    fn take(&mut self, key: Key) -> Vec<u32>
        ensures numbers { (n : ℕ) → Contains result.items n ↔ HasNote self.old key n }
        ensures others { (k : Key') (n : ℕ) → (k ≡ key → ⊥) → HasNote self.new k n ↔ HasNote self.old k n }
    {
        match self.lists.swap_remove(&key) {
            Some(numbers) => numbers,
            None => Vec::new(self.alloc),
        }
    }

    // Puts the numbers of the key in.
    fn put(&mut self, key: Key, numbers: Vec<u32>) -> Result<(), OutOfMemory>
        ensures numbers { OnOk result ((n : ℕ) → HasNote self.new key n ↔ Contains numbers.items n) }
        ensures others { OnOk result ((k : Key') (n : ℕ) → (k ≡ key → ⊥) → HasNote self.new k n ↔ HasNote self.old k n) }
    {
        self.lists.insert(key, numbers)?;
        Ok(())
    }

    // Notes a number under the key.
    pub fn add(&mut self, key: Key, number: u32) -> Result<(), OutOfMemory>
        ensures { OnOk result ((k : Key') (n : ℕ) → HasNote self.new k n ↔ (HasNote self.old k n ⊎ ((k ≡ key) × (n ≡ number)))) }
    {
        let mut numbers = self.take(key);
        numbers.push(number)?;
        self.put(key, numbers)?;
        Ok(())
    }

    // The numbers that are noted under the key.
    pub fn of(&self, key: Key) -> &[u32]
        ensures { (n : ℕ) → Contains result.now n ↔ HasNote self.now key n }
    {
        match self.lists.get(&key) {
            Some(numbers) => numbers,
            None => &[],
        }
    }
}
