ghost use Rattle.std.specs.Prelude.{◌≡◌, IfOk};
ghost use Rattle.slab.specs.Slab.{get};
ghost use Rattle.stack_automaton.specs.Following.{AreHeld, IsClosure};

use crate::fact_set::FactSet;
use crate::follow::follow_fact;
use crate::links::Links;
use crate::place::{Fact, State};
use dm_base::OutOfMemory;
use flow_model::Model;
use slab::Slab;
use std::collections::HashSet;

// All facts of an event, and the calls that are made at it.
#[derive(Drop)]
pub struct Closure {
    pub facts: FactSet,
    pub links: Links,
}

// All facts of the event that begins with these. Each fact is followed once. The calls and the functions
// that end are put into the room of those of an earlier event.
pub fn saturate(
    model: &Model,
    states: &Slab<State>,
    begin: FactSet,
    room: Links,
    ended: &mut HashSet<u32>,
) -> Result<Closure, OutOfMemory>
    requires { AreHeld begin.keys }
    ensures { IfOk result (λ done. IsClosure model.now (get states.now) begin.keys done) }
{
    let mut facts = begin;
    let mut links = room;
    links.clear();
    ended.clear();
    // It tells that the model is valid.
    let _nodes = model.nodes();
    let mut i = 0;
    while let Some(&fact) = facts.as_slice().get(i) {
        follow_fact(&mut facts, &mut links, ended, model, states, fact)?;
        i += 1;
    }
    Ok(Closure { facts, links })
}
