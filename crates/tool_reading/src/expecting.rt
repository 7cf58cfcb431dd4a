ghost use Rattle.std.specs.Prelude.{◌≡◌, ◌≤◌, ◌<◌, ◌^◌, ◌↔◌, [], ◌∷◌, ◌++◌, All, slice_get, IfOk, IfSome, IsTrue};
ghost use Rattle.std.specs.Option.{option_copied};
ghost use Rattle.report.specs.VerdictLine.{verdict_text, IsGiven};
ghost use Rattle.sys_table.specs.Table.{IsRecorded};
ghost use Rattle.tool_reading.specs.Expected.{AreExpected};
ghost use Rattle.tool_frame.specs.Stop.{IsFinished};
ghost use Rattle.tool_monitors.specs.Judged.{worse as worse'};
ghost use Rattle.tool_monitors.specs.Monitors.{monitors_of};

use callgraph_monitor::CallgraphMonitor;
use dm_base::{Event, OutOfMemory, Verdict};
use dyck_monitor::DyckMonitor;
use expected_events::{Standing, follow, push_next};
use flow_model::{Model, Which};
use report::verdict_line;
use stack_automaton::StackMonitor;
use std::alloc::Global;
use sys_table::recorded;
use tool_frame::Finished;
use tool_monitors::{Asked, status_of, worse};

// The event at the place, counted from 0.
fn event_at(events: &[Event], place: usize) -> Option<&Event>
    ensures { option_copied result ≡ slice_get events.now place }
{
    events.get(place)
}

// Whether a trace may record the event, where there is one.
fn is_recorded(event: Option<&Event>) -> bool
    ensures { IsTrue result ↔ IfSome event.entry (λ e. IsRecorded e.now) }
{
    match event {
        Some(event) => recorded(event),
        None => true,
    }
}

// The line of the verdict; of an event that no trace records there is none.
fn line_of(
    alloc: Global,
    which: Which,
    verdict: &Verdict,
    event: Option<&Event>,
) -> Result<Vec<u8>, OutOfMemory>
    requires { IsGiven verdict.now (option_copied event) }
    ensures { IfOk result (λ line. IfSome event.entry (λ e. IsRecorded e.now) → line.items ≡ verdict_text which verdict.now (option_copied event.entry)) }
{
    if !is_recorded(event) {
        return Ok(Vec::new(alloc));
    }
    let line = verdict_line(alloc, which, verdict, event)?;
    Ok(line)
}

// The verdict of one monitor on the events, and what may come next after those that it keeps.
fn finding<M: Standing>(
    alloc: Global,
    model: &Model,
    events: &[Event],
    bound: u32,
) -> Result<Finished, OutOfMemory>
    requires { (1 ≤ bound) × (bound < 2 ^ 16) }
    ensures expected { IfOk result (λ done. All IsRecorded events.now → AreExpected (M.WHICH ∷ []) model.now bound events.now done.status done.text.items) }
    ensures finished { IfOk result (λ done. IsFinished done.status) }
{
    let followed = follow::<M>(alloc, model, events, bound)?;
    let found = followed.monitor.next(alloc, &followed.pool, model)?;
    let event = event_at(events, followed.kept);
    let mut text = line_of(alloc, M::WHICH, &followed.verdict, event)?;
    push_next(alloc, &mut text, model, &found)?;
    Ok(Finished {
        status: status_of(followed.verdict),
        text,
    })
}

// What two have told, one after the other.
fn joined(first: Finished, second: Finished) -> Result<Finished, OutOfMemory>
    ensures status { IfOk result (λ done. done.status ≡ worse' first.status second.status) }
    ensures text { IfOk result (λ done. done.text.items ≡ first.text.items ++ second.text.items) }
{
    let mut text = first.text;
    text.extend_from_slice(&second.text)?;
    Ok(Finished {
        status: worse(first.status, second.status),
        text,
    })
}

// The findings of all three monitors.
fn all_findings(
    alloc: Global,
    model: &Model,
    events: &[Event],
    bound: u32,
) -> Result<Finished, OutOfMemory>
    requires { (1 ≤ bound) × (bound < 2 ^ 16) }
    ensures expected { IfOk result (λ done. All IsRecorded events.now → AreExpected (monitors_of Asked.All) model.now bound events.now done.status done.text.items) }
    ensures finished { IfOk result (λ done. IsFinished done.status) }
{
    let callgraph = finding::<CallgraphMonitor>(alloc, model, events, bound)?;
    let stack = finding::<StackMonitor>(alloc, model, events, bound)?;
    let dyck = finding::<DyckMonitor>(alloc, model, events, bound)?;
    let last = joined(stack, dyck)?;
    let all = joined(callgraph, last)?;
    Ok(all)
}

/// The findings of the monitors that are asked for.
pub fn findings(
    alloc: Global,
    model: &Model,
    events: &[Event],
    asked: Asked,
    bound: u32,
) -> Result<Finished, OutOfMemory>
    requires { (1 ≤ bound) × (bound < 2 ^ 16) }
    ensures expected { IfOk result (λ done. All IsRecorded events.now → AreExpected (monitors_of asked) model.now bound events.now done.status done.text.items) }
    ensures finished { IfOk result (λ done. IsFinished done.status) }
{
    match asked {
        Asked::Callgraph => finding::<CallgraphMonitor>(alloc, model, events, bound),
        Asked::Stack => finding::<StackMonitor>(alloc, model, events, bound),
        Asked::Dyck => finding::<DyckMonitor>(alloc, model, events, bound),
        Asked::All => all_findings(alloc, model, events, bound),
    }
}
