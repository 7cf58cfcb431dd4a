ghost use Rattle.std.specs.Prelude.{◌↔◌, Contains, IfErr, IfOk, OnOk};
ghost use Rattle.certify_facts.specs.declared.fact.FactLine.{FactLine as Line};
ghost use Rattle.certify_making.specs.Adding.{IsKept};
ghost use Rattle.certify_making.specs.Pairs.{CannotTurn, HasTurn, IsFound, NotesMore};

use crate::CertifyError;
use crate::facts::Facts;
use crate::notes::{Notes, key_of};
use crate::pairs::follow_pairs;
use certify_facts::{Fact, FactLine};
use certify_steps::follow;
use dm_base::{Event, OutOfMemory};
use flow_model::Model;
use std::alloc::Global;

// What follows from the fact, which has the number, alone or with one that is noted.
fn found_from(
    alloc: Global,
    lines: &[FactLine],
    notes: &Notes,
    model: &Model,
    trace: &[Event],
    fact: Fact,
    number: u32,
) -> Result<Vec<FactLine>, OutOfMemory>
    ensures { IfOk result (λ found. (l : Line) → Contains found.items l ↔ IsFound model.now trace.now lines.now notes.now fact number l) }
{
    let mut found = Vec::new(alloc);
    follow(&mut found, model, trace, u32::MAX, fact, number)?;
    follow_pairs(&mut found, lines, notes, model, fact, number)?;
    Ok(found)
}

// Notes the fact, which has the number, where it is at the exit of an activation, or a link.
fn note(notes: &mut Notes, model: &Model, fact: Fact, number: u32) -> Result<(), OutOfMemory>
    ensures { OnOk result (NotesMore model.now fact number notes.old notes.new) }
{
    if let Some(key) = key_of(model, fact) {
        notes.add(key, number)?;
    }
    Ok(())
}

// The turn of the fact, which has the number: what follows from it is added, and it is noted.
pub fn take_turn(
    alloc: Global,
    facts: &mut Facts,
    notes: &mut Notes,
    model: &Model,
    trace: &[Event],
    fact: Fact,
    number: u32,
) -> Result<(), CertifyError>
    requires { IsKept facts.old }
    ensures kept { OnOk result (IsKept facts.new) }
    ensures turn { OnOk result (HasTurn model.now trace.now fact number facts.old.lines.items notes.old facts.new.lines.items notes.new) }
    ensures large { IfErr result (CannotTurn model.now trace.now fact number facts.old.lines.items notes.old) }
{
    let found = found_from(alloc, &facts.lines, notes, model, trace, fact, number)?;
    match facts.add_each(&found) {
        Ok(()) => {}
        Err(error) => return Err(error),
    }
    note(notes, model, fact, number)?;
    Ok(())
}
