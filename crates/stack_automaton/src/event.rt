ghost use Rattle.std.specs.Prelude.{◌≡◌, ◌↔◌, ℕ, Contains, IfOk, OnOk};
ghost use Rattle.slab.specs.Slab.{get};
ghost use Rattle.stack_automaton.specs.declared.place.Fact.{Fact as Fact'};
ghost use Rattle.dm_base.specs.Adding.{Has, Adds};
ghost use Rattle.stack_automaton.specs.Held.{IsThere};
ghost use Rattle.stack_automaton.specs.Following.{AreHeld, IsFirst};
ghost use Rattle.stack_automaton.specs.Moving.{IsRead, IsReadFrom, LeadsBy};
ghost use Rattle.stack_automaton.specs.Storing.{IsClosed, Grows, IsStored};

use crate::fact_set::FactSet;
use crate::follow::add;
use crate::links::Links;
use crate::place::{Edge, Fact, Place, State};
use crate::reading::sys_from;
use crate::resolve::Resolved;
use crate::saturate::{Closure, saturate};
use crate::shared::Shared;
use crate::store::store;
use dm_base::{Event, OutOfMemory, fits};
use flow_model::{Model, SysEdge};
use slab::Slab;
use std::alloc::Global;
use std::collections::HashSet;
use std::mem;

// The most facts and the most functions of an event whose room is kept.
const MOST: usize = 64;

// Adds where the edge of the model leads, if the event is read along it.
fn read_one(
    facts: &mut FactSet,
    edge: Edge,
    sys: &SysEdge,
    event: &Event,
) -> Result<(), OutOfMemory>
    ensures { OnOk result (Adds facts.old.keys facts.new.keys (λ x. IsRead event.now edge x sys.now)) }
{
    if fits(sys.name, &sys.args, event) {
        return add(
            facts,
            Fact {
                node: sys.to,
                place: Place::Held(edge.to),
            },
        );
    }
    Ok(())
}

fn read_each(
    facts: &mut FactSet,
    edge: Edge,
    sys: &[SysEdge],
    event: &Event,
) -> Result<(), OutOfMemory>
    ensures { OnOk result (Adds facts.old.keys facts.new.keys (λ x. Has (IsRead event.now edge x) sys.now)) }
{
    for one in sys {
        read_one(facts, edge, one, event)?;
    }
    Ok(())
}

// Adds where the event leads from the node with which the edge is labelled.
fn read_from(
    facts: &mut FactSet,
    model: &Model,
    edge: Edge,
    event: &Event,
) -> Result<(), OutOfMemory>
    ensures { OnOk result (Adds facts.old.keys facts.new.keys (IsReadFrom model.now event.now edge)) }
{
    read_each(facts, edge, sys_from(model, edge.label), event)
}

// Makes the facts those to which the event leads from the edges of a state.
fn first_facts(
    facts: &mut FactSet,
    model: &Model,
    edges: &[Edge],
    event: &Event,
) -> Result<(), OutOfMemory>
    ensures { OnOk result ((x : Fact') → Contains facts.new.keys x ↔ Has (λ e. IsReadFrom model.now event.now e x) edges.now) }
{
    facts.clear();
    for edge in edges {
        read_from(facts, model, *edge, event)?;
    }
    Ok(())
}

// What an event uses. The next event uses it again, where this one was small.
pub struct Room {
    pub facts: FactSet,
    pub links: Links,
    pub ended: HashSet<u32>,
    pub found: Resolved,
    pub edges: Vec<Edge>,
}

// Written, so that a function that drops one proves no more than a call of it.
impl Drop for Room {
    fn drop(self) {
        let Self {
            facts: _facts,
            links: _links,
            ended: _ended,
            found: _found,
            edges: _edges,
        } = self;
    }
}

impl Room {
    // It holds nothing.
    pub fn new(alloc: Global) -> Room {
        Room {
            facts: FactSet::new(alloc),
            links: Links::new(alloc),
            ended: HashSet::new(alloc),
            found: Resolved::new(alloc),
            edges: Vec::new(alloc),
        }
    }

    // Keeps what the event used for the next one.
    fn take_back(&mut self, alloc: Global, done: Closure) {
        let Closure { facts, links } = done;
        if facts.len() > MOST || links.len() > MOST {
            *self = Room::new(alloc);
            return;
        }
        self.facts = facts;
        self.links = links;
    }
}

// Stores the states of the event that begins with these facts, and gives the key of its own. The room of
// an earlier event is used again.
pub fn settle(
    alloc: Global,
    states: &mut Slab<State>,
    shared: &mut Shared,
    model: &Model,
    begin: FactSet,
    room: &mut Room,
) -> Result<usize, OutOfMemory>
    requires held { AreHeld begin.keys }
    requires there { (b q : ℕ) → IsFirst begin.keys b q → IsThere (get states.old) q }
    requires closed { IsClosed (get states.old) }
    ensures grows { Grows (get states.old) (get states.new) }
    ensures stored { IfOk result (λ key. IsStored model.now (get states.old) (get states.new) begin.keys key) }
    ensures there { IfOk result (λ key. IsThere (get states.new) key) }
{
    let links = mem::replace(&mut room.links, Links::new(alloc));
    let done = saturate(model, states, begin, links, &mut room.ended)?;
    let key = store(
        alloc,
        states,
        shared,
        model,
        &done,
        &mut room.found,
        &mut room.edges,
    )?;
    room.take_back(alloc, done);
    Ok(key)
}

// Makes the facts those with which the event begins at the key.
pub fn begin_at(
    facts: &mut FactSet,
    states: &Slab<State>,
    model: &Model,
    key: usize,
    event: &Event,
) -> Result<(), OutOfMemory>
    requires { IsThere (get states.now) key }
    ensures leads { OnOk result (LeadsBy model.now (get states.now) key event.now facts.new.keys) }
    ensures held { OnOk result (AreHeld facts.new.keys) }
{
    match states.get(key) {
        Some(state) => first_facts(facts, model, state.edges(), event),
        None => {
            facts.clear();
            Ok(())
        }
    }
}
