ghost use Rattle.std.specs.Prelude.{◌≡◌, ◌↔◌, [], ◌∷◌, ◌++◌, Contains, IsTrue, IfOk, OnOk, OnErr, length};
ghost use Rattle.dm_base.specs.Adding.{Adds, Gains};
ghost use Rattle.stack_automaton.specs.declared.place.Fact.{Fact as Fact'};

use crate::place::Fact;
use dm_base::OutOfMemory;
use std::alloc::Global;
use std::collections::HashSet;

// So many facts are gone through one after another. Where there are more, an index tells which are there.
const FEW: usize = 64;

// Different facts, in the order in which they were added. Seen as their list.
pub struct FactSet {
    alloc: Global,
    list: Vec<Fact>,
    // The facts of the list, where there are more than few.
    index: HashSet<Fact>,
}

// Written, so that a function that drops one proves no more than a call of it.
impl Drop for FactSet {
    fn drop(self) {
        let Self {
            alloc: _,
            list: _list,
            index: _index,
        } = self;
    }
}

impl std::marker::Model for FactSet {
    ghost use Rattle.stack_automaton.specs.Marks.{Facts, AreIndexed};

    ghost Value = { Facts };

    ghost view = { λ s. record { keys = s.list.items } };

    ghost invariant = { λ s. AreIndexed s.list.items s.index.keys };
}

// Whether the fact is one of these.
fn is_one_of(facts: &[Fact], fact: Fact) -> bool
    ensures { IsTrue result ↔ Contains facts.now fact }
{
    facts.contains(&fact)
}

// Whether the index has the fact.
fn is_in(index: &HashSet<Fact>, fact: Fact) -> bool
    ensures { IsTrue result ↔ Contains index.now.keys fact }
{
    index.contains(&fact)
}

// Puts the fact into the index.
fn put(index: &mut HashSet<Fact>, fact: Fact) -> Result<(), OutOfMemory>
    ensures added { OnOk result (Gains (Contains index.old.keys) (Contains index.new.keys) (λ x. x ≡ fact)) }
    ensures kept { OnErr result (index.new.keys ≡ index.old.keys) }
{
    index.insert(fact)?;
    Ok(())
}

// The index of these facts alone.
fn index_of(alloc: Global, facts: &[Fact]) -> Result<HashSet<Fact>, OutOfMemory>
    ensures { IfOk result (λ index. (x : Fact') → Contains index.keys x ↔ Contains facts.now x) }
{
    let mut index = HashSet::new(alloc);
    for fact in facts {
        put(&mut index, *fact)?;
    }
    Ok(index)
}

// Adds a fact to the list and to the index of its facts.
fn add_to_both(
    list: &mut Vec<Fact>,
    index: &mut HashSet<Fact>,
    fact: Fact,
) -> Result<(), OutOfMemory>
    requires { (x : Fact') → Contains index.old.keys x ↔ Contains list.old.items x }
    ensures added { OnOk result (list.new.items ≡ list.old.items ++ fact ∷ []) }
    ensures kept { OnErr result (list.new.items ≡ list.old.items) }
    ensures indexed { (x : Fact') → Contains index.new.keys x ↔ Contains list.new.items x }
{
    list.push(fact)?;
    match put(index, fact) {
        Ok(()) => Ok(()),
        Err(refused) => {
            list.pop();
            Err(refused)
        }
    }
}

impl FactSet {
    // No fact is in it.
    pub fn new(alloc: Global) -> FactSet
        ensures { result.keys ≡ [] }
    {
        FactSet {
            alloc,
            list: Vec::new(alloc),
            index: HashSet::new(alloc),
        }
    }

    // Takes all facts away.
    pub fn clear(&mut self)
        ensures { self.new.keys ≡ [] }
    {
        self.list.clear();
        self.index.clear();
    }

    // How many facts there are.
    pub fn len(&self) -> usize {
        self.list.len()
    }

    // The facts.
    pub fn as_slice(&self) -> &[Fact]
        ensures { result.now ≡ self.now.keys }
    {
        &self.list
    }

    // Whether there are none.
    pub fn is_empty(&self) -> bool
        ensures { IsTrue result ↔ (length self.now.keys ≡ 0) }
    {
        self.list.is_empty()
    }

    // Whether the fact is among them.
    pub fn contains(&self, fact: Fact) -> bool
        ensures { IsTrue result ↔ Contains self.now.keys fact }
    {
        if self.list.len() > FEW {
            return is_in(&self.index, fact);
        }
        is_one_of(&self.list, fact)
    }

    // Adds a fact where they are few, so that the index begins.
    fn begin_index(&mut self, fact: Fact) -> Result<(), OutOfMemory>
        requires { length self.old.keys ≡ 64 }
        ensures { OnOk result (self.new.keys ≡ self.old.keys ++ fact ∷ []) }
    {
        self.index = index_of(self.alloc, &self.list)?;
        add_to_both(&mut self.list, &mut self.index, fact)
    }

    // Adds a fact at the end.
    fn push(&mut self, fact: Fact) -> Result<(), OutOfMemory>
        ensures { OnOk result (self.new.keys ≡ self.old.keys ++ fact ∷ []) }
    {
        if self.list.len() < FEW {
            self.list.push(fact)?;
            return Ok(());
        }
        if self.list.len() == FEW {
            return self.begin_index(fact);
        }
        add_to_both(&mut self.list, &mut self.index, fact)
    }

    // Adds the fact where it isn't among them.
    pub fn insert(&mut self, fact: Fact) -> Result<(), OutOfMemory>
        ensures { OnOk result (Adds self.old.keys self.new.keys (λ x. x ≡ fact)) }
    {
        if self.contains(fact) {
            return Ok(());
        }
        self.push(fact)
    }
}
