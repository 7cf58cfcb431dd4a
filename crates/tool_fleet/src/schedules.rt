ghost use Rattle.std.specs.Prelude.{◌≡◌, ◌≤◌, ℕ, List, IfOk, IfErr, IfSome};
ghost use Rattle.dm_io.specs.Store.{file_at, IsMissing};
ghost use Rattle.fleet_schedule.specs.ScheduleText.{IsScheduleWithin};
ghost use Rattle.tool_fleet.specs.Fleet.{RefusesSchedule, schedule_refusal};
ghost use Rattle.tool_fleet.specs.Inputs.{IsStopOfSchedule};
ghost use Rattle.tool_frame.specs.Stop.{Stops};

use dm_base::OutOfMemory;
use dm_io::{Store, read_whole};
use fleet_schedule::{Schedule, ScheduleError, read_schedule};
use std::alloc::Global;
use tool_frame::{Stop, fixed_line, numbered_line};

// One byte more than a schedule may have.
const MOST: usize = 16_777_217;

// The line of a refused schedule.
fn schedule_line(alloc: Global, error: ScheduleError) -> Result<Vec<u8>, OutOfMemory>
    ensures { IfOk result (λ line. line.items ≡ schedule_refusal error) }
{
    match error {
        ScheduleError::OutOfMemory => fixed_line(alloc, b"out of memory\n"),
        ScheduleError::BadLine(line) => numbered_line(alloc, b"record refused S1 line ", line),
        ScheduleError::NoEnd => fixed_line(alloc, b"record refused S2\n"),
        ScheduleError::TooLong => fixed_line(alloc, b"record refused S3\n"),
        ScheduleError::Version => fixed_line(alloc, b"record refused S4\n"),
    }
}

// The stop of a refused schedule.
fn refused_with(alloc: Global, error: ScheduleError) -> Stop
    ensures { IsStopOfSchedule result error }
{
    if error == ScheduleError::OutOfMemory {
        return Stop::OutOfMemory;
    }
    match schedule_line(alloc, error) {
        Ok(line) => Stop::Record(line),
        Err(_) => Stop::OutOfMemory,
    }
}

/// The schedule in a file.
///
/// # Errors
///
/// `Record` where the file is no schedule within the limits, `Read` where a read failed or the file isn't there, and `OutOfMemory`.
pub fn schedule_in<S: Store>(alloc: Global, store: &mut S, name: &str) -> Result<Schedule, Stop>
    ensures read { IfOk result (λ schedule. IfSome (S.files store.old) (λ told. IsScheduleWithin (file_at told name.now) schedule)) }
    ensures some { IfOk result (λ schedule. (text : List ℕ) × IsScheduleWithin text schedule) }
    ensures stop { IfErr result (λ stop. Stops stop (RefusesSchedule (S.files store.old) name.now) (IsMissing (S.files store.old) name.now) (S.faults store.old) (S.faults store.new)) }
    ensures same { S.files store.new ≡ S.files store.old }
    ensures never_falls { S.faults store.old ≤ S.faults store.new }
{
    let text = read_whole(alloc, store, name, MOST)?;
    match read_schedule(alloc, &text) {
        Ok(schedule) => Ok(schedule),
        Err(error) => Err(refused_with(alloc, error)),
    }
}
