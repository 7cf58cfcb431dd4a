ghost use Rattle.std.specs.Prelude.{◌≡◌, ◌≢◌, ◌⊎◌, ◌↔◌, ℕ, List, [], Contains, IfOk, OnOk, OnErr, IfSome, IfNone, Some, None};
ghost use Rattle.std.specs.FinMap as map;
ghost use Rattle.stack_automaton.specs.declared.place.Edge.{Edge as Edge'};
ghost use Rattle.stack_automaton.specs.Event.{IsNext};
ghost use Rattle.stack_automaton.specs.Following.{AreHeld, IsFirst};
ghost use Rattle.stack_automaton.specs.Held.{IsThere, HasEdge, Leads};
ghost use Rattle.stack_automaton.specs.Moving.{IsMoved, LeadsBy, LiveAt};
ghost use Rattle.stack_automaton.specs.Seen.{Memory, edges_at};
ghost use Rattle.stack_automaton.specs.Standing.{IsPool, IsPoolOf, IsKeyOf, IsLive};
ghost use Rattle.stack_automaton.specs.Storing.{Grows, IsStored};

use crate::event::{Room, begin_at, settle};
use crate::fact_set::FactSet;
use crate::key_set::KeySet;
use crate::memo::{Memo, copied};
use crate::notes::{note_from, sweep_states};
use crate::place::{Edge, Fact, State};
use crate::shared::Shared;
use dm_base::{Event, OutOfMemory};
use flow_model::Model;
use slab::Slab;
use std::alloc::Global;
use std::mem;

// Of so many events one after another that aren't remembered ..
const ROUND: u32 = 16_384;

// .. so many are looked up, and remembered then.
const TRIED: u32 = 1_024;

/// The states of all monitors of a model. Seen as a finite map from keys to lists of edges, with the
/// final key, at which every stack ends, the keys that are noted for a sweep, and the events whose keys
/// are remembered, up to 65,536 facts of them. The configuration of a node v with the open sites s1 to
/// sk is held from a key where edges labelled v, s1, .., sk lead from it to the final key.
pub struct Pool {
    alloc: Global,
    states: Slab<State>,
    shared: Shared,
    last: usize,
    notes: KeySet,
    memo: Memo,
    // What the next event uses.
    room: Room,
    // How many of the last events, one after another, weren't remembered.
    misses: u32,
}

// Written, so that the crates that own a pool prove no more than a call of it where they drop one.
impl Drop for Pool {
    fn drop(self) {
        let Self {
            alloc: _,
            states: _states,
            shared: _shared,
            last: _,
            notes: _notes,
            memo: _memo,
            room: _room,
            misses: _,
        } = self;
    }
}

impl std::marker::Model for Pool {
    ghost use Rattle.stack_automaton.specs.Seen.{Contents, contents_code};

    ghost Value = { Contents };

    ghost coded = { contents_code };

    ghost use Rattle.std.specs.FinMap.{from_sorted};
    ghost use Rattle.slab.specs.Slab.{entries};
    ghost use Rattle.std.specs.HashMap.{values};

    ghost view = { λ p. record { entries = from_sorted (entries p.states); final = p.last; noted = p.notes.keys; remembered = values p.memo.entries } };
}

impl Pool {
    // A pool with the final key alone.
    pub(crate) fn new(alloc: Global) -> Result<Pool, OutOfMemory>
        ensures pool { IfOk result IsPool }
        ensures notes { IfOk result (λ p. p.noted ≡ []) }
        ensures remembered { IfOk result (λ p. p.remembered ≡ []) }
    {
        let mut states = Slab::new(alloc);
        let last = states.insert(State::empty(alloc))?;
        let notes = KeySet::new(alloc);
        let memo = Memo::new(alloc);
        Ok(Pool {
            alloc,
            states,
            shared: Shared::new(alloc),
            last,
            notes,
            memo,
            room: Room::new(alloc),
            misses: 0,
        })
    }

    /// How many keys are held, the final key included. It takes no memory.
    pub fn live(&self) -> usize
        ensures { result ≡ map.len self.now.entries }
    {
        self.states.len()
    }

    // The edges of the state at the key, none where it isn't there.
    pub(crate) fn edges(&self, key: usize) -> &[Edge]
        ensures there { (edges : List Edge') → edges_at self.now key ≡ Some edges → result.now ≡ edges }
        ensures none { edges_at self.now key ≡ None → result.now ≡ [] }
    {
        match self.states.get(key) {
            Some(state) => state.edges(),
            None => &[],
        }
    }

    // Where the pool takes its memory.
    pub(crate) fn memory(&self) -> Global {
        self.alloc
    }

    // The final key.
    pub(crate) fn last(&self) -> usize
        ensures { result ≡ self.now.final }
    {
        self.last
    }

    // Stores the states of the event that begins with these facts, and gives the key of its own.
    pub(crate) fn settle(&mut self, model: &Model, begin: FactSet) -> Result<usize, OutOfMemory>
        requires pool { IsPool self.old }
        requires held { AreHeld begin.keys }
        requires there { (b q : ℕ) → IsFirst begin.keys b q → IsThere (edges_at self.old) q }
        ensures grows { Grows (edges_at self.old) (edges_at self.new) }
        ensures last { self.new.final ≡ self.old.final }
        ensures notes { self.new.noted ≡ self.old.noted }
        ensures remembered { self.new.remembered ≡ self.old.remembered }
        ensures stored { IfOk result (λ key. IsStored model.now (edges_at self.old) (edges_at self.new) begin.keys key) }
        ensures there { IfOk result (λ key. IsThere (edges_at self.new) key) }
    {
        let key = settle(
            self.alloc,
            &mut self.states,
            &mut self.shared,
            model,
            begin,
            &mut self.room,
        )?;
        self.misses = self.misses.wrapping_add(1);
        Ok(key)
    }

    // The facts with which the event begins at the key.
    fn begin_at(&mut self, model: &Model, key: usize, event: &Event) -> Result<FactSet, OutOfMemory>
        requires { IsThere (edges_at self.old) key }
        ensures same { self.new ≡ self.old }
        ensures leads { IfOk result (λ facts. LeadsBy model.now (edges_at self.old) key event.now facts.keys) }
        ensures held { IfOk result (λ facts. AreHeld facts.keys) }
    {
        let mut facts = mem::replace(&mut self.room.facts, FactSet::new(self.alloc));
        begin_at(&mut facts, &self.states, model, key, event)?;
        Ok(facts)
    }

    // The key of an event that began with these facts, where it is remembered.
    fn recalled(&self, begin: &[Fact]) -> Option<usize>
        ensures { IfSome result (λ key. Contains self.now.remembered (record { begin = begin.now; key = key })) }
    {
        self.memo.find(begin)
    }

    // Remembers the key of an event that began with these facts, where there is memory for it.
    fn remember(&mut self, begin: Vec<Fact>, key: usize)
        ensures entries { self.new.entries ≡ self.old.entries }
        ensures last { self.new.final ≡ self.old.final }
        ensures notes { self.new.noted ≡ self.old.noted }
        ensures remembered { (m : Memory) → Contains self.new.remembered m → Contains self.old.remembered m ⊎ (m ≡ record { begin = begin.items; key = key }) }
    {
        self.memo.note(begin, key);
    }

    // The last event was remembered.
    fn found_again(&mut self)
        ensures { self.new ≡ self.old }
    {
        self.misses = 0;
    }

    // The key of the event that begins with these facts, by the states that are stored of it.
    fn arrive_anew(&mut self, model: &Model, begin: FactSet) -> Result<usize, OutOfMemory>
        requires pool { IsPoolOf self.old model.now }
        requires held { AreHeld begin.keys }
        requires live { (b q : ℕ) → IsFirst begin.keys b q → LiveAt (edges_at self.old) self.old.final q }
        ensures grows { Grows (edges_at self.old) (edges_at self.new) }
        ensures last { self.new.final ≡ self.old.final }
        ensures notes { self.new.noted ≡ self.old.noted }
        ensures pool { IsPoolOf self.new model.now }
        ensures key { IfOk result (λ key. IsKeyOf model.now (edges_at self.new) self.old.final begin.keys key) }
    {
        self.settle(model, begin)
    }

    // The key of the event that begins with these facts: the one that is remembered, or else that of the
    // states that are stored of it.
    fn arrive_again(&mut self, model: &Model, begin: FactSet) -> Result<usize, OutOfMemory>
        requires pool { IsPoolOf self.old model.now }
        requires held { AreHeld begin.keys }
        requires live { (b q : ℕ) → IsFirst begin.keys b q → LiveAt (edges_at self.old) self.old.final q }
        ensures grows { Grows (edges_at self.old) (edges_at self.new) }
        ensures last { self.new.final ≡ self.old.final }
        ensures notes { self.new.noted ≡ self.old.noted }
        ensures pool { IsPoolOf self.new model.now }
        ensures key { IfOk result (λ key. IsKeyOf model.now (edges_at self.new) self.old.final begin.keys key) }
    {
        if let Some(key) = self.recalled(begin.as_slice()) {
            self.found_again();
            return Ok(key);
        }
        let facts = copied(self.memory(), begin.as_slice())?;
        let key = self.settle(model, begin)?;
        self.remember(facts, key);
        Ok(key)
    }

    // The key of the event that begins with these facts. Where one event after another isn't remembered, as
    // in a recursion that goes deeper, or in one that is too deep to be remembered, most aren't looked up.
    fn arrive(&mut self, model: &Model, begin: FactSet) -> Result<usize, OutOfMemory>
        requires pool { IsPoolOf self.old model.now }
        requires held { AreHeld begin.keys }
        requires live { (b q : ℕ) → IsFirst begin.keys b q → LiveAt (edges_at self.old) self.old.final q }
        ensures grows { Grows (edges_at self.old) (edges_at self.new) }
        ensures last { self.new.final ≡ self.old.final }
        ensures notes { self.new.noted ≡ self.old.noted }
        ensures pool { IsPoolOf self.new model.now }
        ensures key { IfOk result (λ key. IsKeyOf model.now (edges_at self.new) self.old.final begin.keys key) }
    {
        if self.misses % ROUND >= TRIED {
            return self.arrive_anew(model, begin);
        }
        self.arrive_again(model, begin)
    }

    // The key after the event, or None where it leads nowhere.
    pub(crate) fn move_on(
        &mut self,
        model: &Model,
        key: usize,
        event: &Event,
    ) -> Result<Option<usize>, OutOfMemory>
        requires pool { IsPoolOf self.old model.now }
        requires there { IsThere (edges_at self.old) key }
        requires live { IsLive (edges_at self.old) self.old.final key }
        ensures grows { Grows (edges_at self.old) (edges_at self.new) }
        ensures last { self.new.final ≡ self.old.final }
        ensures notes { self.new.noted ≡ self.old.noted }
        ensures pool { IsPoolOf self.new model.now }
        ensures moved { IfOk result (λ next. IfSome next (λ next. IsMoved model.now (edges_at self.old) (edges_at self.new) self.old.final key event.now next)) }
        ensures none { IfOk result (λ next. IfNone next ((b q : ℕ) → IsNext model.now (HasEdge (edges_at self.old)) key event.now b q → ⊥)) }
    {
        let facts = self.begin_at(model, key, event)?;
        if facts.is_empty() {
            return Ok(None);
        }
        let next = self.arrive(model, facts)?;
        Ok(Some(next))
    }

    // Notes the key, and all keys to which edges lead from it. Where memory is refused nothing is noted.
    pub(crate) fn note(&mut self, key: usize) -> Result<(), OutOfMemory>
        ensures entries { self.new.entries ≡ self.old.entries }
        ensures last { self.new.final ≡ self.old.final }
        ensures remembered { self.new.remembered ≡ self.old.remembered }
        ensures ok { OnOk result ((k : ℕ) → Contains self.new.noted k ↔ ((j : ℕ) × (Contains self.old.noted j ⊎ (j ≡ key)) × Leads (HasEdge (edges_at self.old)) j k)) }
        ensures err { OnErr result (self.new.noted ≡ []) }
    {
        match note_from(&mut self.notes, &self.states, key) {
            Ok(()) => Ok(()),
            Err(error) => {
                self.notes.clear();
                Err(error)
            }
        }
    }

    // Frees the states that aren't noted, but for the final key, and the notes, and forgets all events.
    pub(crate) fn sweep(&mut self)
        ensures last { self.new.final ≡ self.old.final }
        ensures notes { self.new.noted ≡ [] }
        ensures remembered { self.new.remembered ≡ [] }
        ensures kept { (k : ℕ) → Contains self.old.noted k ⊎ (k ≡ self.old.final) → edges_at self.new k ≡ edges_at self.old k }
        ensures gone { (k : ℕ) → (Contains self.old.noted k → ⊥) → k ≢ self.old.final → edges_at self.new k ≡ None }
        ensures fewer { (k : ℕ) (edges : List Edge') → edges_at self.new k ≡ Some edges → edges_at self.old k ≡ Some edges }
    {
        sweep_states(&mut self.states, &self.notes, self.last);
        self.shared.sweep(&self.states);
        self.memo.clear();
        self.notes.clear();
    }
}
