ghost use Rattle.std.specs.Prelude.{◌≡◌, ◌↔◌, ◌<◌, ◌^◌, IsTrue, IfOk};
ghost use Rattle.certify_facts.specs.Confirms.{IsAfter, IsAcceptedBy, IsRejectedBy, IsClaim, facts_of};
ghost use Rattle.certify_facts.specs.Form.{IsCounted};
ghost use Rattle.dm_base.specs.Adding.{Has};
ghost use Rattle.certify.specs.Closing.{GoesPast};

use crate::closed::is_closed;
use certify_facts::{Fact, FactLine, Judge};
use certify_steps::goes_on;
use dm_base::{Event, OutOfMemory, Verdict};
use flow_model::Model;
use std::alloc::Global;

// Whether the fact says where a run may be after so many events.
fn is_after(fact: Fact, events: u64) -> bool
    ensures { IsTrue result ↔ IsAfter events fact }
{
    match fact {
        Fact::Callgraph { k, .. } => u64::from(k) == events,
        Fact::At { k, .. } => u64::from(k) == events,
        Fact::Link { .. } => false,
    }
}

// Whether one of the facts says where a run may be after so many events.
fn has_after(lines: &[FactLine], events: u64) -> bool
    ensures { IsTrue result ↔ Has (λ l. IsAfter events l.fact) lines.now }
{
    for line in lines {
        if is_after(line.fact, events) {
            return true;
        }
    }
    false
}

// Whether the fact is after so many events, and one by the next event follows from it.
fn goes_past(model: &Model, trace: &[Event], last: u64, fact: Fact) -> bool
    ensures { IsTrue result ↔ GoesPast model.now trace.now last fact }
{
    is_after(fact, last) && goes_on(model, trace, fact)
}

// Whether one of the facts is after so many events, and one by the next event follows from it.
fn has_past(model: &Model, trace: &[Event], last: u64, lines: &[FactLine]) -> bool
    ensures { IsTrue result ↔ Has (λ l. GoesPast model.now trace.now last l.fact) lines.now }
{
    for line in lines {
        if goes_past(model, trace, last, line.fact) {
            return true;
        }
    }
    false
}

// Whether there are so many events, and a fact after them.
fn is_accepted(trace: &[Event], events: u64, lines: &[FactLine]) -> bool
    ensures { IsTrue result ↔ IsAcceptedBy trace.now events (facts_of lines.now) }
{
    if events != trace.len() as u64 {
        return false;
    }
    has_after(lines, events)
}

// Whether the facts are just those after fewer events, and none leads on.
fn is_rejected(
    alloc: Global,
    model: &Model,
    trace: &[Event],
    judge: Judge,
    at: u64,
    lines: &[FactLine],
) -> Result<bool, OutOfMemory>
    requires { at < 2 ^ 32 }
    ensures { IfOk result (λ yes. IsTrue yes ↔ IsRejectedBy judge model.now trace.now at (facts_of lines.now)) }
{
    if at < 1 {
        return Ok(false);
    }
    if (trace.len() as u64) < at {
        return Ok(false);
    }
    if !has_after(lines, at - 1) {
        return Ok(false);
    }
    if has_past(model, trace, at - 1, lines) {
        return Ok(false);
    }
    let closed = is_closed(alloc, model, trace, judge, (at - 1) as u32, lines)?;
    Ok(closed)
}

// Whether the claim holds.
pub fn is_claim(
    alloc: Global,
    model: &Model,
    trace: &[Event],
    judge: Judge,
    verdict: Verdict,
    lines: &[FactLine],
) -> Result<bool, OutOfMemory>
    requires { IsCounted verdict }
    ensures { IfOk result (λ yes. IsTrue yes ↔ IsClaim judge model.now trace.now verdict (facts_of lines.now)) }
{
    match verdict {
        Verdict::Accepted { events } => Ok(is_accepted(trace, events, lines)),
        Verdict::Rejected { at } => {
            let holds = is_rejected(alloc, model, trace, judge, at, lines)?;
            Ok(holds)
        }
        Verdict::Bound { .. } => Ok(false),
    }
}
