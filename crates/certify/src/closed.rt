ghost use Rattle.std.specs.Prelude.{◌≡◌, ◌↔◌, Contains, IsTrue, IfOk, OnOk};
ghost use Rattle.certify_facts.specs.declared.fact.Fact.{Fact as Fact'};
ghost use Rattle.certify_facts.specs.declared.fact.FactLine.{FactLine as Line};
ghost use Rattle.certify_facts.specs.Confirms.{IsClosed, facts_of};
ghost use Rattle.certify_facts.specs.Form.{IsOfModel};
ghost use Rattle.certify_facts.specs.Reasons.{IsStart};
ghost use Rattle.certify.specs.Closing.{IsFollowed, IsReturnKnown};
ghost use Rattle.certify.specs.Ends.{HasEndOf};

use crate::ends::{Activation, Ends, ends_of};
use crate::known::{are_known, has_fact, known_facts};
use certify_facts::{Fact, FactLine, Judge};
use certify_steps::{follow, is_within, returned_along};
use dm_base::{Event, OutOfMemory};
use flow_model::Model;
use indexmap::IndexSet;
use std::alloc::Global;

// Whether what follows from the fact alone is known.
fn is_followed(
    alloc: Global,
    model: &Model,
    trace: &[Event],
    last: u32,
    known: &IndexSet<Fact>,
    fact: Fact,
) -> Result<bool, OutOfMemory>
    ensures { IfOk result (λ yes. IsTrue yes ↔ IsFollowed model.now trace.now last known.now.keys fact) }
{
    let mut found = Vec::new(alloc);
    follow(&mut found, model, trace, last, fact, 0)?;
    Ok(are_known(known, &found))
}

// Whether what follows from each fact alone is known.
fn are_followed(
    alloc: Global,
    model: &Model,
    trace: &[Event],
    last: u32,
    known: &IndexSet<Fact>,
    lines: &[FactLine],
) -> Result<bool, OutOfMemory>
    ensures { IfOk result (λ yes. IsTrue yes ↔ ((l : Line) → Contains lines.now l → IsFollowed model.now trace.now last known.now.keys l.fact)) }
{
    for line in lines {
        let followed = is_followed(alloc, model, trace, last, known, line.fact)?;
        if !followed {
            return Ok(false);
        }
    }
    Ok(true)
}

/// The fact with which a run begins.
pub fn start_of(model: &Model, judge: Judge) -> Fact
    ensures model { IsOfModel judge result }
    ensures start { IsStart model.now result }
    ensures only { (y : Fact') → IsOfModel judge y → IsStart model.now y → result ≡ y }
{
    // It tells that the start is a function.
    let start = model.start();
    let function = &model.functions()[start as usize];
    match judge {
        Judge::Callgraph => Fact::Callgraph {
            k: 0,
            v: function.entry,
        },
        Judge::Stack => Fact::At {
            k: 0,
            i: 0,
            f: start,
            v: function.entry,
        },
    }
}

// Whether the fact with which a run begins is known.
fn is_start_known(model: &Model, judge: Judge, known: &IndexSet<Fact>) -> bool
    ensures { IsTrue result ↔ ((y : Fact') → IsOfModel judge y → IsStart model.now y → Contains known.now.keys y) }
{
    has_fact(known, start_of(model, judge))
}

// Whether what follows from the fact and the link is known.
fn is_return_known(model: &Model, last: u32, known: &IndexSet<Fact>, x: Fact, z: Fact) -> bool
    ensures { IsTrue result ↔ IsReturnKnown model.now last known.now.keys x z }
{
    match returned_along(model, x, z) {
        Some(y) => {
            if is_within(last, y) {
                has_fact(known, y)
            } else {
                true
            }
        }
        None => true,
    }
}

// Whether what follows from each of the facts and the link is known.
fn are_returns_known(
    model: &Model,
    last: u32,
    known: &IndexSet<Fact>,
    ends: &[Fact],
    z: Fact,
) -> bool
    ensures { IsTrue result ↔ ((x : Fact') → Contains ends.now x → IsReturnKnown model.now last known.now.keys x z) }
{
    for x in ends {
        if !is_return_known(model, last, known, *x, z) {
            return false;
        }
    }
    true
}

// Whether what follows from the link, where it is one, and each end of its activation is known.
fn is_link_closed(model: &Model, last: u32, known: &IndexSet<Fact>, ends: &Ends, z: Fact) -> bool
    ensures { IsTrue result ↔ ((x : Fact') → HasEndOf ends.now z x → IsReturnKnown model.now last known.now.keys x z) }
{
    match z {
        Fact::Callgraph { .. } => true,
        Fact::At { .. } => true,
        Fact::Link { i, f, .. } => {
            let activation = Activation {
                entered: i,
                function: f,
            };
            are_returns_known(model, last, known, ends.of(activation), z)
        }
    }
}

// Whether what follows from each link and each end of its activation is known.
fn are_links_closed(
    model: &Model,
    last: u32,
    known: &IndexSet<Fact>,
    ends: &Ends,
    lines: &[FactLine],
) -> bool
    ensures { IsTrue result ↔ ((l : Line) → Contains lines.now l → (x : Fact') → HasEndOf ends.now l.fact x → IsReturnKnown model.now last known.now.keys x l.fact) }
{
    for line in lines {
        if !is_link_closed(model, last, known, ends, line.fact) {
            return false;
        }
    }
    true
}

// Whether the facts have each fact about the first events that follows from them.
pub fn is_closed(
    alloc: Global,
    model: &Model,
    trace: &[Event],
    judge: Judge,
    last: u32,
    lines: &[FactLine],
) -> Result<bool, OutOfMemory>
    ensures { IfOk result (λ yes. IsTrue yes ↔ IsClosed judge model.now trace.now last (facts_of lines.now)) }
{
    let known = known_facts(alloc, lines)?;
    if !is_start_known(model, judge, &known) {
        return Ok(false);
    }
    let ends = ends_of(alloc, model, lines)?;
    if !are_links_closed(model, last, &known, &ends, lines) {
        return Ok(false);
    }
    let followed = are_followed(alloc, model, trace, last, &known, lines)?;
    Ok(followed)
}
