ghost use Rattle.std.specs.Prelude.{IfErr, OnOk};
ghost use Rattle.certify_facts.specs.declared.fact.Judge.{Judge as Judge'};
ghost use Rattle.certify_making.specs.Adding.{IsKept};
ghost use Rattle.certify_making.specs.Ahead.{AreClosed, IsBegun};
ghost use Rattle.certify_making.specs.Made.{IsCertifyRefusal};

use crate::CertifyError;
use crate::facts::{Facts, MOST};
use crate::notes::Notes;
use crate::turn::take_turn;
use dm_base::Event;
use flow_model::Model;
use std::alloc::Global;

// Adds each fact that follows from the one that a run begins with.
pub fn saturate(
    alloc: Global,
    facts: &mut Facts,
    model: &Model,
    trace: &[Event],
) -> Result<(), CertifyError>
    requires { IsKept facts.old }
    ensures kept { OnOk result (IsKept facts.new) }
    ensures closed { OnOk result ((judge : Judge') → IsBegun judge model.now facts.old.lines.items → AreClosed judge model.now trace.now facts.new.lines.items) }
    ensures large { IfErr result (λ error. (judge : Judge') → IsBegun judge model.now facts.old.lines.items → IsCertifyRefusal judge model.now trace.now error) }
{
    let mut notes = Notes::new(alloc);
    for place in 0..MOST {
        let Some(&line) = facts.lines.get(place) else {
            return Ok(());
        };
        let number = place as u32 + 1;
        match take_turn(alloc, facts, &mut notes, model, trace, line.fact, number) {
            Ok(()) => {}
            Err(error) => return Err(error),
        }
    }
    Ok(())
}
