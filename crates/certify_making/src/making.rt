ghost use Rattle.std.specs.Prelude.{◌≡◌, ◌<◌, ◌^◌, IfErr, IfOk};
ghost use Rattle.certify_making.specs.declared.error.CertifyError.TheVariants.{OutOfMemory as NoMemory};
ghost use Rattle.certify_making.specs.Adding.{IsKept};
ghost use Rattle.certify_making.specs.Ahead.{IsBegun, verdict_at};
ghost use Rattle.certify_making.specs.Made.{HasTooMany, IsCertifyRefusal, IsMade};

use crate::CertifyError;
use crate::deepest::deepest;
use crate::facts::Facts;
use crate::saturating::saturate;
use certify::start_of;
use certify_facts::{Certificate, FactLine, Judge, Reason};
use dm_base::{Event, Verdict};
use flow_model::Model;
use std::alloc::Global;

// The line of the fact with which a run begins.
fn first_facts(alloc: Global, model: &Model, judge: Judge) -> Result<Facts, CertifyError>
    ensures kept { IfOk result (λ facts. IsKept facts) }
    ensures begun { IfOk result (λ facts. IsBegun judge model.now facts.lines.items) }
    ensures memory { IfErr result (λ error. error ≡ NoMemory) }
{
    let mut facts = Facts::new(alloc);
    let line = FactLine {
        fact: start_of(model, judge),
        reason: Reason::Start,
    };
    facts.add(line)?;
    Ok(facts)
}

// The verdict on the trace, where a run can go on through so many of its events and no more.
fn verdict_at(trace: &[Event], events: u32) -> Verdict
    ensures { result ≡ verdict_at trace.now events }
{
    if events as usize == trace.len() {
        Verdict::Accepted {
            events: u64::from(events),
        }
    } else {
        Verdict::Rejected {
            at: u64::from(events) + 1,
        }
    }
}

/// Makes a certificate of the judge's verdict on the trace in the model. It lists each fact that follows, once, with a
/// reason that names earlier facts alone. The facts are about the events of an accepted trace, or about those before the
/// rejected one.
///
/// # Errors
///
/// `TooLarge` where more than 1,000,000 facts follow, and `OutOfMemory`.
pub fn certify(
    alloc: Global,
    judge: Judge,
    model: &Model,
    trace: &[Event],
) -> Result<Certificate, CertifyError>
    ensures made { IfOk result (IsMade judge model.now trace.now) }
    ensures cause { IfErr result (IsCertifyRefusal judge model.now trace.now) }
    ensures many { HasTooMany judge model.now trace.now → IfOk result (λ _. ⊥) }
{
    // It tells that the model is valid.
    let _nodes = model.nodes();
    let mut facts = first_facts(alloc, model, judge)?;
    match saturate(alloc, &mut facts, model, trace) {
        Ok(()) => {}
        Err(error) => return Err(error),
    }
    let events = deepest(&facts.lines);
    Ok(Certificate::new(judge, verdict_at(trace, events), facts.lines))
}
