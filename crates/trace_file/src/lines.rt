ghost use Rattle.std.specs.Prelude.{◌≤◌, ◌<◌, ◌^◌, [], ◌++◌, codes, IsTrue};
ghost use Rattle.line_text.specs.OneLine.{IsLine};
ghost use Rattle.line_text.specs.Reading.{Reads};
ghost use Rattle.line_text.specs.Words.{number_word};
ghost use Rattle.trace_file.specs.EventText.{IsWritten};
ghost use Rattle.trace_file.specs.LineParts.{has_no_feed};
ghost use Rattle.trace_file.specs.Lines.{event_line, record_line, IsWrittenRecord};
ghost use Rattle.trace_file.specs.LineParts.{trace_line, IsTraceLine, traces_line, IsTracesLine};

use crate::Record;
use crate::call::{take_call, take_labelled};
use crate::ending::take_end;
use dm_base::{Event, TraceEnd};
use line_text::{Cursor, Miss};
use std::alloc::Global;

/// A line of a trace after the first.
#[derive(Drop)]
pub enum TraceLine {
    Event(Event),
    End(TraceEnd),
}

/// A line of interleaved traces after the first.
#[derive(Drop)]
pub enum TracesLine {
    Record(Record),
    End,
}

/// The line of a trace that the whole of this one is.
pub fn read_trace_line(alloc: Global, line: &[u8]) -> Result<TraceLine, Miss>
    requires { IsLine line.now }
    ensures { Reads IsTraceLine trace_line line.now [] result }
{
    let mut cursor = Cursor { rest: line };
    take_trace_line(alloc, &mut cursor)
}

/// The line of interleaved traces that the whole of this one is.
pub fn read_traces_line(alloc: Global, line: &[u8]) -> Result<TracesLine, Miss>
    requires { IsLine line.now }
    ensures { Reads IsTracesLine traces_line line.now [] result }
{
    let mut cursor = Cursor { rest: line };
    take_traces_line(alloc, &mut cursor)
}

/// Takes the text of an event, and the line feed after it.
pub fn take_event(alloc: Global, cursor: &mut Cursor) -> Result<Event, Miss>
    ensures { Reads IsWritten event_line cursor.old.rest.now cursor.new.rest.now result }
{
    match cursor.rest {
        [] => Err(Miss::Short),
        [b'S', ..] => take_call(alloc, cursor),
        [b'B', ..] => Ok(Event::Pre(take_site(cursor, b"B ")?)),
        [b'E', ..] => Ok(Event::Post(take_site(cursor, b"E ")?)),
        _ => Err(Miss::Wrong),
    }
}

// Takes the letter of a null call and its space, the number of the site and the line feed.
fn take_site(cursor: &mut Cursor, letter: &[u8]) -> Result<u32, Miss>
    requires { IsTrue (has_no_feed letter.now) }
    ensures { Reads (λ n. n < 2 ^ 32) (λ n. letter.now ++ number_word 10 n) cursor.old.rest.now cursor.new.rest.now result }
{
    let site = take_labelled(cursor, letter, 0, 4_294_967_295)?;
    Ok(site as u32)
}

// Takes a line of a trace.
fn take_trace_line(alloc: Global, cursor: &mut Cursor) -> Result<TraceLine, Miss>
    ensures { Reads IsTraceLine trace_line cursor.old.rest.now cursor.new.rest.now result }
{
    match cursor.rest {
        [] => Err(Miss::Short),
        [b'e', ..] => Ok(TraceLine::End(take_end(cursor)?)),
        _ => Ok(TraceLine::Event(take_event(alloc, cursor)?)),
    }
}

// Takes a line of interleaved traces.
fn take_traces_line(alloc: Global, cursor: &mut Cursor) -> Result<TracesLine, Miss>
    ensures { Reads IsTracesLine traces_line cursor.old.rest.now cursor.new.rest.now result }
{
    match cursor.rest {
        [] => Err(Miss::Short),
        [b'e', ..] => {
            cursor.take(b"end\n")?;
            Ok(TracesLine::End)
        }
        _ => Ok(TracesLine::Record(take_record(alloc, cursor)?)),
    }
}

// Takes the line of a record.
fn take_record(alloc: Global, cursor: &mut Cursor) -> Result<Record, Miss>
    ensures { Reads IsWrittenRecord record_line cursor.old.rest.now cursor.new.rest.now result }
{
    let pid = cursor.number(0, 4_294_967_295, b' ')?;
    let event = take_event(alloc, cursor)?;
    Ok(Record {
        pid: pid as u32,
        event,
    })
}
