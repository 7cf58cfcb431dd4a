ghost use Rattle.std.specs.Prelude.{◌≡◌, ◌⊎◌, [], Contains, IfOk, IfSome, IsTrue};
ghost use Rattle.std.specs.HashMap.{values};
ghost use Rattle.stack_automaton.specs.Seen.{Memory};

use crate::place::{Fact, Place};
use dm_base::OutOfMemory;
use std::alloc::Global;
use std::collections::HashMap;

// The most facts that a memo holds for all its events together.
const ROOM: usize = 65_536;

// The facts with which an event began, and the key of the state that was stored of it. Seen as both.
#[derive(Drop)]
pub struct Remembered {
    begin: Vec<Fact>,
    key: usize,
}

impl std::marker::Model for Remembered {
    ghost use Rattle.stack_automaton.specs.Seen.{Memory};

    ghost Value = { Memory };

    ghost view = { λ m. record { begin = m.begin.items; key = m.key } };
}

impl Remembered {
    // The event began with these facts, and the key is that of its state.
    pub fn new(begin: Vec<Fact>, key: usize) -> Remembered
        ensures { result ≡ record { begin = begin.items; key = key } }
    {
        Remembered { begin, key }
    }

    // The facts with which the event began.
    pub fn begin(&self) -> &[Fact]
        ensures { result.now ≡ self.now.begin }
    {
        &self.begin
    }

    // The key of the event's state.
    pub fn key(&self) -> usize
        ensures { result ≡ self.now.key }
    {
        self.key
    }
}

// The keys to which events led, by a digest of the facts with which they began. A key is found only for
// just the facts that were noted with it, so equal digests do no harm.
#[derive(Drop)]
pub struct Memo {
    entries: HashMap<u64, Remembered>,
    facts: usize,
}

impl Memo {
    // Nothing is remembered.
    pub fn new(alloc: Global) -> Memo
        ensures { values result.entries ≡ [] }
    {
        Memo {
            entries: HashMap::new(alloc),
            facts: 0,
        }
    }

    // The key that was noted with these facts, where it is remembered.
    pub fn find(&self, begin: &[Fact]) -> Option<usize>
        ensures { IfSome result (λ key. Contains (values self.now.entries) (record { begin = begin.now; key = key })) }
    {
        let memory = self.entries.get(&digest(begin))?;
        if are_same(memory.begin(), begin) {
            Some(memory.key())
        } else {
            None
        }
    }

    // Remembers the facts with the key, unless they are too many or memory is refused. Where there is no
    // room for them all else is forgotten.
    pub fn note(&mut self, begin: Vec<Fact>, key: usize)
        ensures { (m : Memory) → Contains (values self.new.entries) m → Contains (values self.old.entries) m ⊎ (m ≡ record { begin = begin.items; key = key }) }
    {
        if begin.len() > ROOM {
            return;
        }
        self.make_room(begin.len());
        self.put(begin, key);
    }

    // Forgets all, where so many facts more find no room.
    fn make_room(&mut self, more: usize)
        ensures { (m : Memory) → Contains (values self.new.entries) m → Contains (values self.old.entries) m }
    {
        self.facts = self.facts.saturating_add(more);
        if self.facts > ROOM {
            self.clear();
            self.facts = more;
        }
    }

    // Remembers the facts with the key, where memory isn't refused.
    fn put(&mut self, begin: Vec<Fact>, key: usize)
        ensures { (m : Memory) → Contains (values self.new.entries) m → Contains (values self.old.entries) m ⊎ (m ≡ record { begin = begin.items; key = key }) }
    {
        let digest = digest(&begin);
        let _noted = self.entries.insert(digest, Remembered::new(begin, key));
    }

    // Forgets all.
    pub fn clear(&mut self)
        ensures { values self.new.entries ≡ [] }
    {
        self.entries.clear();
        self.facts = 0;
    }
}

fn are_same(a: &[Fact], b: &[Fact]) -> bool
    ensures { IsTrue result → a.now ≡ b.now }
{
    a == b
}

// The same facts once more.
pub fn copied(alloc: Global, facts: &[Fact]) -> Result<Vec<Fact>, OutOfMemory>
    ensures { IfOk result (λ copy. copy.items ≡ facts.now) }
{
    let copy = facts.iter().copied().collect(alloc)?;
    Ok(copy)
}

// The digest of the facts (the hash FNV-1a over whole numbers).
fn digest(facts: &[Fact]) -> u64 {
    let mut hash: u64 = 0xcbf2_9ce4_8422_2325;
    for fact in facts {
        hash = (hash ^ u64::from(fact.node)).wrapping_mul(0x100_0000_01b3);
        hash = (hash ^ number_of(fact.place)).wrapping_mul(0x100_0000_01b3);
    }
    hash
}

// The number of the place's key or function.
fn number_of(place: Place) -> u64 {
    match place {
        Place::Held(key) => key as u64,
        Place::Entered(function) => u64::from(function),
    }
}
