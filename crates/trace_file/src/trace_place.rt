ghost use Rattle.std.specs.Prelude.{◌≡◌, ◌≤◌, ℕ, List, [], ◌++◌, Contains, length, IfOk, IfErr, OnOk};
ghost use Rattle.dm_base.specs.declared.event.Event.{Event};
ghost use Rattle.line_text.specs.OneLine.{IsLine};
ghost use Rattle.line_text.specs.Reading.{StandsFirst};
ghost use Rattle.trace_file.specs.LineParts.{trace_line, IsTraceLine};
ghost use Rattle.trace_file.specs.Trace.{longest, trace_head, IsTraceWithin, IsTraceRefusal};
ghost use Rattle.trace_file.specs.TraceReading.{ReachesTrace};
ghost use Rattle.trace_file.specs.Refusals.{IsHeadRefusal, HasRoom, IsLineRefusal};

use crate::TraceError;
use crate::lines::{TraceLine, read_trace_line};
use crate::pieces::Place;
use dm_base::{Event, TraceEnd};
use line_text::{Cursor, Miss, version_of};
use std::alloc::Global;

/// The greatest number of events or records.
const MOST: u32 = 1_000_000;

/// How far a trace was read.
#[derive(Clone, Copy)]
pub enum TracePlace {
    /// No line was read.
    Start,
    /// The first line was read, and the lines of so many events.
    Events(u32),
    /// The end line was read too.
    End(u32, TraceEnd),
}

// The first line of a trace, which may be unfinished.
fn read_head(line: &[u8]) -> Result<(), TraceError>
    ensures head { OnOk result ((rest : List ℕ) × (line.now ≡ trace_head ++ rest)) }
    ensures refused { IfErr result (λ error. IsHeadRefusal error line.now) }
{
    let mut cursor = Cursor { rest: line };
    match cursor.take(b"dyckmon-trace 1\n") {
        Ok(()) => Ok(()),
        Err(Miss::OutOfMemory) => Err(TraceError::OutOfMemory),
        Err(Miss::Short) => Err(TraceError::NoEnd),
        Err(Miss::Wrong) => match version_of(line, b"dyckmon-trace ") {
            Some(_) => Err(TraceError::Version),
            None => Err(TraceError::BadLine(1)),
        },
    }
}

// A line after those of so many events, which may be unfinished.
fn read_next(alloc: Global, count: u32, line: &[u8]) -> Result<TraceLine, TraceError>
    requires { IsLine line.now }
    ensures read { IfOk result (λ found. StandsFirst IsTraceLine trace_line line.now [] found) }
    ensures room { IfOk result (HasRoom count) }
    ensures refused { IfErr result (λ error. IsLineRefusal count error line.now) }
{
    match read_trace_line(alloc, line) {
        Ok(TraceLine::Event(event)) => {
            if count < MOST {
                Ok(TraceLine::Event(event))
            } else {
                Err(TraceError::TooLong)
            }
        }
        Ok(TraceLine::End(end)) => Ok(TraceLine::End(end)),
        Err(Miss::OutOfMemory) => Err(TraceError::OutOfMemory),
        Err(Miss::Short) => Err(TraceError::NoEnd),
        Err(Miss::Wrong) => Err(TraceError::BadLine(u64::from(count) + 2)),
    }
}

impl Place for TracePlace {
    type Item = Event;

    type Mark = TracePlace;

    ghost use Rattle.std.specs.Prelude.{◌≡◌};
    ghost use Rattle.trace_file.specs.Trace.{IsTraceRefusal};
    ghost use Rattle.trace_file.specs.TraceReading.{ReachesTrace};

    ghost reaches = { ReachesTrace };

    ghost refuses = { λ place error text. IsTraceRefusal error text };

    ghost marks = { λ mark first now. mark ≡ first };

    fn read(&mut self, alloc: Global, line: &[u8]) -> Result<Option<Event>, TraceError> {
        match *self {
            TracePlace::Start => {
                read_head(line)?;
                *self = TracePlace::Events(0);
                Ok(None)
            }
            TracePlace::Events(count) => match read_next(alloc, count, line)? {
                TraceLine::Event(event) => {
                    *self = TracePlace::Events(count + 1);
                    Ok(Some(event))
                }
                TraceLine::End(end) => {
                    *self = TracePlace::End(count, end);
                    Ok(None)
                }
            },
            TracePlace::End(count, _) => Err(TraceError::BadLine(u64::from(count) + 3)),
        }
    }

    fn mark(&self) -> TracePlace {
        *self
    }

    fn restore(&mut self, mark: TracePlace) {
        *self = mark;
    }

    ghost memory = { λ place text. tt };
}

impl TracePlace {
    /// How the text ends that has this tail after the lines before this place.
    pub fn finish(self, alloc: Global, tail: &[u8]) -> Result<TraceEnd, TraceError>
        requires { Contains tail.now 10 → ⊥ }
        ensures within { IfOk result (λ end. (lines : List ℕ) (events : List Event) → ReachesTrace self lines events → length (lines ++ tail.now) ≤ longest → IsTraceWithin (lines ++ tail.now) events end) }
        ensures refused { IfErr result (λ error. (lines : List ℕ) (events : List Event) → ReachesTrace self lines events → length (lines ++ tail.now) ≤ longest → IsTraceRefusal error (lines ++ tail.now)) }
    {
        match self {
            TracePlace::Start => {
                read_head(tail)?;
                Err(TraceError::NoEnd)
            }
            TracePlace::Events(count) => {
                read_next(alloc, count, tail)?;
                Err(TraceError::NoEnd)
            }
            TracePlace::End(count, end) => {
                if tail.is_empty() {
                    Ok(end)
                } else {
                    Err(TraceError::BadLine(u64::from(count) + 3))
                }
            }
        }
    }
}
