ghost use Rattle.std.specs.Prelude.{◌≡◌, ◌≤◌, ◌++◌, ◌↔◌, ◌+◌, IfOk, IfErr, IsTrue, MatchResult, length};
ghost use Rattle.line_text.specs.OneLine.{IsLine};
ghost use Rattle.fleet_schedule.specs.Lines.{HasOtherNumber, IsHeadRefusal, IsLinesRefusal, head_refusal_of, refusal_of};
ghost use Rattle.fleet_schedule.specs.Plan.{Plan};
ghost use Rattle.fleet_schedule.specs.ScheduleText.{AreWithin, IsSchedule, IsScheduleRefusal, IsScheduleWithin, most_advances, most_processes, schedule_head};
ghost use Rattle.fleet_schedule.specs.declared.error.ScheduleError.TheVariants.{OutOfMemory as NoMemory};

use crate::line_reading::{ScheduleLine, read_schedule_line};
use crate::{Schedule, ScheduleError};
use line_text::{Cursor, Miss, first_line, version_of};
use std::alloc::Global;

// The greatest length of a schedule, in bytes.
const LONGEST: usize = 16_777_216;

// The greatest number of processes.
const MOST_PROCESSES: usize = 64;

// The greatest number of advances.
const MOST_ADVANCES: usize = 1_000_000;

/// The schedule of a text; see `ScheduleError` for why a text is refused.
pub fn read_schedule(alloc: Global, text: &[u8]) -> Result<Schedule, ScheduleError>
    ensures read { IfOk result (λ schedule. IsScheduleWithin text.now schedule) }
    ensures refused { IfErr result (λ error. IsScheduleRefusal error text.now) }
    ensures complete { (plan : Plan) → IsScheduleWithin text.now plan → IfErr result (λ error. error ≡ NoMemory) }
    ensures same { (plan : Plan) → IsScheduleWithin text.now plan → IfOk result (λ schedule. schedule ≡ plan) }
{
    if LONGEST < text.len() {
        return Err(ScheduleError::TooLong);
    }
    let (line, rest) = first_line(text);
    match read_head(line) {
        Ok(()) => read_lines(alloc, rest),
        Err(error) => Err(error),
    }
}

// Takes the first line of a schedule.
fn read_head(line: &[u8]) -> Result<(), ScheduleError>
    requires { IsLine line.now }
    ensures { MatchResult result (λ _. line.now ≡ schedule_head) (λ error. IsHeadRefusal error line.now) }
{
    if has_other_number(line) {
        return Err(ScheduleError::Version);
    }
    match (Cursor { rest: line }).take(b"dyckmon-fleet 1\n") {
        Ok(()) => Ok(()),
        Err(miss) => Err(refusal_of_head(miss)),
    }
}

// Whether the first line has the number of another version than 1.
fn has_other_number(line: &[u8]) -> bool
    ensures { IsTrue result ↔ HasOtherNumber line.now }
{
    match version_of(line, b"dyckmon-fleet ") {
        Some(number) => number != 1,
        None => false,
    }
}

// Why a schedule is refused whose first line was not read.
fn refusal_of_head(miss: Miss) -> ScheduleError
    ensures { result ≡ head_refusal_of miss }
{
    match miss {
        Miss::OutOfMemory => ScheduleError::OutOfMemory,
        Miss::Short => ScheduleError::NoEnd,
        Miss::Wrong => ScheduleError::BadLine(1),
    }
}

// The schedule of the lines after the first.
fn read_lines(alloc: Global, text: &[u8]) -> Result<Schedule, ScheduleError>
    ensures { MatchResult result
        (λ schedule. IsSchedule (schedule_head ++ text.now) schedule × AreWithin schedule)
        (λ error. IsLinesRefusal error (schedule_head ++ text.now)) }
{
    let mut processes = Vec::new(alloc);
    let mut order = Vec::new(alloc);
    let mut rest = text;
    'lines: loop {
        let (line, later) = first_line(rest);
        match read_schedule_line(alloc, line, &processes, !order.is_empty()) {
            Ok(ScheduleLine::Process(process)) => {
                if processes.len() == MOST_PROCESSES {
                    return Err(ScheduleError::TooLong);
                }
                processes.push(process)?;
                rest = later;
            }
            Ok(ScheduleLine::Advance(pid)) => {
                if order.len() == MOST_ADVANCES {
                    return Err(ScheduleError::TooLong);
                }
                order.push(pid)?;
                rest = later;
            }
            Ok(ScheduleLine::End) => {
                if later.is_empty() {
                    return Ok(Schedule::of(processes, order));
                }
                return Err(ScheduleError::BadLine((processes.len() + order.len()) as u64 + 3));
            }
            Err(miss) => return Err(refusal_of_line(miss, processes.len() + order.len())),
        }
    }
}

// Why a schedule is refused whose line after so many lines of processes and advances was not read.
fn refusal_of_line(miss: Miss, lines: usize) -> ScheduleError
    requires { lines ≤ most_processes + most_advances }
    ensures { result ≡ refusal_of miss lines }
{
    match miss {
        Miss::OutOfMemory => ScheduleError::OutOfMemory,
        Miss::Short => ScheduleError::NoEnd,
        Miss::Wrong => ScheduleError::BadLine(lines as u64 + 2),
    }
}
