ghost use Rattle.std.specs.Prelude.{◌≡◌, IfOk};
ghost use Rattle.tool_steps.specs.Results.{results_refusal};
ghost use Rattle.tool_steps.specs.ResultsStops.{IsStopOfResults};

use dm_base::OutOfMemory;
use std::alloc::Global;
use sys_table::ResultsError;
use tool_frame::{Stop, fixed_line, numbered_line};

// The line of refused results.
fn results_line(alloc: Global, error: ResultsError) -> Result<Vec<u8>, OutOfMemory>
    ensures { IfOk result (λ line. line.items ≡ results_refusal error) }
{
    match error {
        ResultsError::OutOfMemory => fixed_line(alloc, b"out of memory\n"),
        ResultsError::BadLine(line) => numbered_line(alloc, b"record refused F1 line ", line),
        ResultsError::NoEnd => fixed_line(alloc, b"record refused F2\n"),
        ResultsError::TooLong => fixed_line(alloc, b"record refused F3\n"),
        ResultsError::Version => fixed_line(alloc, b"record refused F4\n"),
    }
}

/// The stop of refused results.
pub fn refused_with(alloc: Global, error: ResultsError) -> Stop
    ensures { IsStopOfResults result error }
{
    if error == ResultsError::OutOfMemory {
        return Stop::OutOfMemory;
    }
    match results_line(alloc, error) {
        Ok(line) => Stop::Record(line),
        Err(_) => Stop::OutOfMemory,
    }
}
