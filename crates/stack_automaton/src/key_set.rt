ghost use Rattle.std.specs.Prelude.{◌≡◌, ◌↔◌, ◌<◌, ℕ, [], Contains, IsTrue, OnOk, length, false, slice_index_or};
ghost use Rattle.dm_base.specs.Adding.{Adds};

use dm_base::OutOfMemory;
use std::alloc::Global;

// Different small numbers, as keys and places, in the order in which they were added. Seen as their list.
#[derive(Drop)]
pub struct KeySet {
    list: Vec<usize>,
    // Whether each number is in the list. Those past the end are not.
    marks: Vec<bool>,
}

impl std::marker::Model for KeySet {
    ghost use Rattle.stack_automaton.specs.Marks.{Keys, AreMarked};

    ghost Value = { Keys };

    ghost view = { λ s. record { keys = s.list.items } };

    ghost invariant = { λ s. AreMarked s.list.items s.marks.items };
}

// Makes room for the mark of a key. The marks stay.
fn make_room(marks: &mut Vec<bool>, key: usize) -> Result<(), OutOfMemory>
    ensures same { (k : ℕ) → slice_index_or marks.new.items k false ≡ slice_index_or marks.old.items k false }
    ensures long { OnOk result (key < length marks.new.items) }
{
    while marks.len() <= key {
        marks.push(false)?;
    }
    Ok(())
}

impl KeySet {
    // No key is in it.
    pub fn new(alloc: Global) -> KeySet
        ensures { result.keys ≡ [] }
    {
        KeySet {
            list: Vec::new(alloc),
            marks: Vec::new(alloc),
        }
    }

    // How many keys there are.
    pub fn len(&self) -> usize
        ensures { result ≡ length self.now.keys }
    {
        self.list.len()
    }

    // The keys.
    pub fn as_slice(&self) -> &[usize]
        ensures { result.now ≡ self.now.keys }
    {
        &self.list
    }

    // Whether the key is among them.
    pub fn contains(&self, key: usize) -> bool
        ensures { IsTrue result ↔ Contains self.now.keys key }
    {
        match self.marks.get(key) {
            Some(mark) => *mark,
            None => false,
        }
    }

    // Adds the key where it isn't among them.
    pub fn insert(&mut self, key: usize) -> Result<(), OutOfMemory>
        ensures { OnOk result (Adds self.old.keys self.new.keys (λ k. k ≡ key)) }
    {
        if self.contains(key) {
            return Ok(());
        }
        make_room(&mut self.marks, key)?;
        self.list.push(key)?;
        self.marks[key] = true;
        Ok(())
    }

    // Takes all keys away.
    pub fn clear(&mut self)
        ensures { self.new.keys ≡ [] }
    {
        self.list.clear();
        self.marks.clear();
    }
}
