ghost use Rattle.std.specs.Prelude.{◌≡◌, ◌≤◌, ℕ, List, [], ◌++◌, Contains, length, IfOk, IfErr, OnOk};
ghost use Rattle.line_text.specs.OneLine.{IsLine};
ghost use Rattle.line_text.specs.Reading.{StandsFirst};
ghost use Rattle.trace_file.specs.declared.record.Record.{Record};
ghost use Rattle.trace_file.specs.LineParts.{traces_line, IsTracesLine};
ghost use Rattle.trace_file.specs.Trace.{longest};
ghost use Rattle.trace_file.specs.Traces.{traces_head, AreTracesWithin, IsTracesRefusal};
ghost use Rattle.trace_file.specs.TracesReading.{ReachesTraces, stage_version};
ghost use Rattle.trace_file.specs.Refusals.{IsTracesHeadRefusal, HasRecordRoom, IsRecordRefusal, EndsIn};

use crate::lines::{TracesLine, read_traces_line};
use crate::pieces::Place;
use crate::processes::Processes;
use crate::{Record, TraceError, TracesVersion};
use line_text::{Cursor, Miss, version_of};
use std::alloc::Global;

/// The greatest number of records.
const MOST: u32 = 1_000_000;

/// The greatest number of known processes.
const MOST_PROCESSES: usize = 4_096;

/// How far the lines of interleaved traces were read.
#[derive(Clone, Copy)]
pub enum TracesStage {
    /// No line was read.
    Start,
    /// The first line, of this version, was read, and the lines of so many records.
    Records(TracesVersion, u32),
    /// The end line was read too.
    End(TracesVersion, u32),
}

/// How far interleaved traces were read.
#[derive(Drop)]
pub struct TracesPlace {
    pub stage: TracesStage,
    pub known: Processes,
}

/// The stage of a place, and how many processes were known there.
#[derive(Clone, Copy)]
pub struct TracesMark {
    stage: TracesStage,
    known: usize,
}

// The first line of interleaved traces, which may be unfinished.
fn read_head(line: &[u8]) -> Result<TracesVersion, TraceError>
    ensures head { IfOk result (λ version. (rest : List ℕ) × (line.now ≡ traces_head version ++ rest)) }
    ensures refused { IfErr result (λ error. IsTracesHeadRefusal error line.now) }
{
    match (Cursor { rest: line }).take(b"dyckmon-traces 1\n") {
        Ok(()) => Ok(TracesVersion::One),
        Err(Miss::OutOfMemory) => Err(TraceError::OutOfMemory),
        Err(Miss::Short) => Err(TraceError::NoEnd),
        Err(Miss::Wrong) => match (Cursor { rest: line }).take(b"dyckmon-traces 2\n") {
            Ok(()) => Ok(TracesVersion::Two),
            Err(Miss::OutOfMemory) => Err(TraceError::OutOfMemory),
            Err(Miss::Short) => Err(TraceError::NoEnd),
            Err(Miss::Wrong) => match version_of(line, b"dyckmon-traces ") {
                Some(_) => Err(TraceError::Version),
                None => Err(TraceError::BadLine(1)),
            },
        },
    }
}

// A line after those of so many records, which may be unfinished.
fn read_next(alloc: Global, count: u32, line: &[u8]) -> Result<TracesLine, TraceError>
    requires { IsLine line.now }
    ensures read { IfOk result (λ found. StandsFirst IsTracesLine traces_line line.now [] found) }
    ensures room { IfOk result (HasRecordRoom count) }
    ensures refused { IfErr result (λ error. IsRecordRefusal count error line.now) }
{
    match read_traces_line(alloc, line) {
        Ok(TracesLine::Record(found)) => {
            if count < MOST {
                Ok(TracesLine::Record(found))
            } else {
                Err(TraceError::TooLong)
            }
        }
        Ok(TracesLine::End) => Ok(TracesLine::End),
        Err(Miss::OutOfMemory) => Err(TraceError::OutOfMemory),
        Err(Miss::Short) => Err(TraceError::NoEnd),
        Err(Miss::Wrong) => Err(TraceError::BadLine(u64::from(count) + 2)),
    }
}

impl Place for TracesPlace {
    type Item = Record;

    type Mark = TracesMark;

    ghost use Rattle.std.specs.Prelude.{◌≡◌, ℕ, List, ◌++◌, length};
    ghost use Rattle.std.proofs.Common.{refl};
    ghost use Rattle.trace_file.specs.TracesReading.{ReachesTraces};
    ghost use Rattle.trace_file.specs.Refusals.{IsRefusedAt};

    ghost reaches = { ReachesTraces };

    ghost refuses = { λ place error text. IsRefusedAt place.stage error text };

    ghost marks = { λ mark first now. (mark.stage ≡ first.stage) × (mark.known ≡ length first.known) × ((more : List ℕ) × (now.known ≡ first.known ++ more)) };

    fn read(&mut self, alloc: Global, line: &[u8]) -> Result<Option<Record>, TraceError> {
        match self.stage {
            TracesStage::Start => {
                let version = read_head(line)?;
                self.stage = TracesStage::Records(version, 0);
                Ok(None)
            }
            TracesStage::Records(version, count) => match read_next(alloc, count, line)? {
                TracesLine::Record(found) => {
                    self.known.add_record(version, &found)?;
                    if MOST_PROCESSES < self.known.len() {
                        return Err(TraceError::TooManyProcesses(u64::from(count) + 2));
                    }
                    self.stage = TracesStage::Records(version, count + 1);
                    Ok(Some(found))
                }
                TracesLine::End => {
                    self.stage = TracesStage::End(version, count);
                    Ok(None)
                }
            },
            TracesStage::End(_, count) => Err(TraceError::BadLine(u64::from(count) + 3)),
        }
    }

    fn mark(&self) -> TracesMark {
        TracesMark {
            stage: self.stage,
            known: self.known.len(),
        }
    }

    fn restore(&mut self, mark: TracesMark) {
        self.stage = mark.stage;
        self.known.truncate(mark.known);
    }

    ghost memory = { λ place text. record { refusal = tt; tells = λ other. absurd (other refl); first = λ other. absurd (other refl) } };
}

impl TracesPlace {
    /// A place before the first line.
    pub fn new(alloc: Global) -> TracesPlace
        ensures { ReachesTraces result [] [] }
    {
        TracesPlace {
            stage: TracesStage::Start,
            known: Processes::new(alloc),
        }
    }

    /// The version, once the first line was read.
    pub fn version(&self) -> Option<TracesVersion>
        ensures { result ≡ stage_version self.now.stage }
    {
        match self.stage {
            TracesStage::Start => None,
            TracesStage::Records(version, _) | TracesStage::End(version, _) => Some(version),
        }
    }

    /// Whether the text ends here that has this tail after the lines before this place.
    pub fn finish(&self, alloc: Global, tail: &[u8]) -> Result<(), TraceError>
        requires { Contains tail.now 10 → ⊥ }
        ensures within { OnOk result (EndsIn self.now tail.now) }
        ensures refused { IfErr result (λ error. (lines : List ℕ) (records : List Record) → ReachesTraces self.now lines records → length (lines ++ tail.now) ≤ longest → IsTracesRefusal error (lines ++ tail.now)) }
    {
        match self.stage {
            TracesStage::Start => {
                read_head(tail)?;
                Err(TraceError::NoEnd)
            }
            TracesStage::Records(_, count) => {
                read_next(alloc, count, tail)?;
                Err(TraceError::NoEnd)
            }
            TracesStage::End(_, count) => {
                if tail.is_empty() {
                    Ok(())
                } else {
                    Err(TraceError::BadLine(u64::from(count) + 3))
                }
            }
        }
    }
}
