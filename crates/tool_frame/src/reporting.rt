ghost use Rattle.std.specs.Prelude.{◌≡◌, ◌≤◌};
ghost use Rattle.tool_frame.specs.Stop.{line_of, status_of_stop};
ghost use Rattle.tool_frame.specs.Report.{TakesLine};

use crate::stop::Stop;
use dm_base::Status;
use dm_io::{Sink, write_whole};

/// Writes the line of a stop on err, and gives the status with which the tool ends. A failed write changes no status.
pub fn refuse<E: Sink>(err: &mut E, stop: &Stop) -> Status
    ensures status { result ≡ status_of_stop stop.now }
    ensures never_falls { E.faults err.old ≤ E.faults err.new }
    ensures line { TakesLine (E.faults err.old) (E.faults err.new) (E.taken err.old) (E.taken err.new) (line_of stop.now) }
{
    let _ = write_whole(err, stop.line());
    stop.status()
}
