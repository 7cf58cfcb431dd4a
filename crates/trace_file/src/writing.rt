ghost use Rattle.std.specs.Prelude.{◌≡◌, ◌≤◌, ◌++◌, All, IfOk, OnOk, flat_map};
ghost use Rattle.sys_table.specs.Table.{IsRecorded};
ghost use Rattle.trace_file.specs.EventText.{event_text, outcome_text, IsCountedEnd, IsCountedOutcome, IsRightEnd, IsRightOutcome, IsWritten};
ghost use Rattle.trace_file.specs.Lines.{event_line, end_line, record_line, IsWrittenRecord};
ghost use Rattle.trace_file.specs.Trace.{trace_text, IsTrace};
ghost use Rattle.trace_file.specs.Traces.{traces_text, AreTraces};

use crate::event_writing::push_event;
use crate::{Record, TracesVersion};
use dm_base::{Event, OutOfMemory, Outcome, TraceEnd};
use line_text::{push_bytes, push_decimal, push_signed};
use std::alloc::Global;

/// The text of an event, as in a trace file: `S NAME args = RESULT`, `B n` or `E n`.
pub fn event_text(alloc: Global, event: &Event) -> Result<Vec<u8>, OutOfMemory>
    requires { IsRecorded event.now }
    ensures { IfOk result (λ text. text.items ≡ event_text event.now) }
{
    let mut text = Vec::new(alloc);
    push_event(alloc, &mut text, event)?;
    Ok(text)
}

/// What follows `end ` in a trace that ended so. The number of a `BadResult` is at least 1.
pub fn outcome_text(alloc: Global, outcome: &Outcome) -> Result<Vec<u8>, OutOfMemory>
    requires { IsCountedOutcome outcome.now }
    ensures { IfOk result (λ text. text.items ≡ outcome_text outcome.now) }
{
    let mut text = Vec::new(alloc);
    push_outcome(alloc, &mut text, outcome)?;
    Ok(text)
}

/// The text of a trace file with these events and this end. Each event is recorded, and the number
/// of a `BadResult` is at least 1.
pub fn write_trace(alloc: Global, events: &[Event], end: &TraceEnd) -> Result<Vec<u8>, OutOfMemory>
    requires events { All IsRecorded events.now }
    requires end { IsCountedEnd end.now }
    ensures text { IfOk result (λ text. text.items ≡ trace_text events.now end.now) }
    ensures formed { IfOk result (λ text. IsTrace text.items events.now end.now) }
{
    let mut text = Vec::new(alloc);
    push_bytes(&mut text, b"dyckmon-trace 1\n")?;
    push_events(alloc, &mut text, events)?;
    push_end(alloc, &mut text, end)?;
    Ok(text)
}

/// The text of a file of interleaved traces of this version with these records. Each event is
/// recorded.
pub fn write_traces(
    alloc: Global,
    version: TracesVersion,
    records: &[Record],
) -> Result<Vec<u8>, OutOfMemory>
    requires { All (λ r. IsRecorded r.event) records.now }
    ensures text { IfOk result (λ text. text.items ≡ traces_text version records.now) }
    ensures formed { IfOk result (λ text. AreTraces text.items version records.now) }
{
    let head = match version {
        TracesVersion::One => b"dyckmon-traces 1\n",
        TracesVersion::Two => b"dyckmon-traces 2\n",
    };
    let mut text = Vec::new(alloc);
    push_bytes(&mut text, head)?;
    push_records(alloc, &mut text, records)?;
    push_bytes(&mut text, b"end\n")?;
    Ok(text)
}

// Adds a line for each event.
fn push_events(alloc: Global, text: &mut Vec<u8>, events: &[Event]) -> Result<(), OutOfMemory>
    requires { All IsRecorded events.now }
    ensures text { OnOk result (text.new.items ≡ text.old.items ++ flat_map event_line events.now) }
    ensures written { OnOk result (All IsWritten events.now) }
{
    for event in events {
        push_event(alloc, text, event)?;
        push_bytes(text, b"\n")?;
    }
    Ok(())
}

// Adds a line for each record.
fn push_records(alloc: Global, text: &mut Vec<u8>, records: &[Record]) -> Result<(), OutOfMemory>
    requires { All (λ r. IsRecorded r.event) records.now }
    ensures text { OnOk result (text.new.items ≡ text.old.items ++ flat_map record_line records.now) }
    ensures written { OnOk result (All IsWrittenRecord records.now) }
{
    for one in records {
        push_record(alloc, text, one)?;
    }
    Ok(())
}

// Adds the line of a record.
fn push_record(alloc: Global, text: &mut Vec<u8>, one: &Record) -> Result<(), OutOfMemory>
    requires { IsRecorded one.now.event }
    ensures text { OnOk result (text.new.items ≡ text.old.items ++ record_line one.now) }
    ensures written { OnOk result (IsWrittenRecord one.now) }
{
    push_decimal(alloc, text, u64::from(one.pid))?;
    push_bytes(text, b" ")?;
    push_event(alloc, text, &one.event)?;
    push_bytes(text, b"\n")
}

// Adds the end line of a trace.
fn push_end(alloc: Global, text: &mut Vec<u8>, end: &TraceEnd) -> Result<(), OutOfMemory>
    requires { IsCountedEnd end.now }
    ensures text { OnOk result (text.new.items ≡ text.old.items ++ end_line end.now) }
    ensures right { OnOk result (IsRightEnd end.now) }
{
    match end {
        TraceEnd::Open => push_bytes(text, b"end open\n"),
        TraceEnd::Ended(outcome) => {
            push_bytes(text, b"end ")?;
            push_outcome(alloc, text, outcome)?;
            push_bytes(text, b"\n")
        }
    }
}

// Adds the text of an outcome.
fn push_outcome(alloc: Global, text: &mut Vec<u8>, outcome: &Outcome) -> Result<(), OutOfMemory>
    requires { IsCountedOutcome outcome.now }
    ensures text { OnOk result (text.new.items ≡ text.old.items ++ outcome_text outcome.now) }
    ensures right { OnOk result (IsRightOutcome outcome.now) }
{
    match outcome {
        Outcome::Exit(value) => {
            push_bytes(text, b"exit ")?;
            push_signed(alloc, text, i64::from(*value))
        }
        Outcome::Undefined(kind) => {
            push_bytes(text, b"undefined U")?;
            push_decimal(alloc, text, u64::from(kind.number()))
        }
        Outcome::Turns => push_bytes(text, b"turns"),
        Outcome::Results => push_bytes(text, b"results"),
        Outcome::BadResult(number) => {
            push_bytes(text, b"badresult ")?;
            push_decimal(alloc, text, *number)
        }
    }
}
