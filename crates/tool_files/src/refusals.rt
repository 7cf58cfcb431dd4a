ghost use Rattle.std.specs.Prelude.{◌≡◌, IfOk};
ghost use Rattle.tool_files.specs.Inputs.{model_refusal, trace_refusal};

use dm_base::OutOfMemory;
use model_file::ModelError;
use std::alloc::Global;
use tool_frame::{fixed_line, numbered_line};
use trace_file::TraceError;

/// The line of a refused model.
pub fn model_line(alloc: Global, error: ModelError) -> Result<Vec<u8>, OutOfMemory>
    ensures { IfOk result (λ line. line.items ≡ model_refusal error) }
{
    match error {
        ModelError::OutOfMemory => fixed_line(alloc, b"out of memory\n"),
        ModelError::BadLine(line) => numbered_line(
            alloc,
            b"model refused M1 line ",
            u64::from(line),
        ),
        ModelError::Invalid(rule) => numbered_line(
            alloc,
            b"model refused M2 rule ",
            u64::from(rule),
        ),
        ModelError::Truncated => fixed_line(alloc, b"model refused M3\n"),
        ModelError::TooLarge => fixed_line(alloc, b"model refused M4\n"),
        ModelError::Version => fixed_line(alloc, b"model refused M5\n"),
    }
}

/// The line of a refused trace.
pub fn trace_line(alloc: Global, error: TraceError) -> Result<Vec<u8>, OutOfMemory>
    ensures { IfOk result (λ line. line.items ≡ trace_refusal error) }
{
    match error {
        TraceError::OutOfMemory => fixed_line(alloc, b"out of memory\n"),
        TraceError::BadLine(line) => numbered_line(alloc, b"record refused X1 line ", line),
        TraceError::NoEnd => fixed_line(alloc, b"record refused X2\n"),
        TraceError::TooLong => fixed_line(alloc, b"record refused X3\n"),
        TraceError::TooManyProcesses(line) => numbered_line(
            alloc,
            b"record refused X4 line ",
            line,
        ),
        TraceError::Version => fixed_line(alloc, b"record refused X5\n"),
    }
}
