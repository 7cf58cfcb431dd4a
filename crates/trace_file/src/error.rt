use dm_base::OutOfMemory;
use std::alloc::{AllocError, AllocFailed};

/// Why a trace, or interleaved traces, were refused. Lines count from 1.
#[derive(Clone, Copy, PartialEq, Eq)]
pub enum TraceError {
    /// Memory was refused.
    OutOfMemory,
    /// The text through this line begins no text of the form, and the one through the line before
    /// does.
    BadLine(u64),
    /// The text ends before its last line does.
    NoEnd,
    /// The text is longer than 64 MiB, or has more than 1,000,000 events or records.
    TooLong,
    /// The record on this line makes more than 4,096 processes known.
    TooManyProcesses(u64),
    /// The file has another version than those that are read.
    Version,
}

impl From<OutOfMemory> for TraceError {
    ghost use Rattle.std.specs.Prelude.{◌≡◌};
    ghost use Rattle.trace_file.specs.declared.error.TraceError.TheVariants.{OutOfMemory as memory};

    ghost from_gives = { λ _ error. error ≡ memory };

    fn from(_: OutOfMemory) -> TraceError {
        TraceError::OutOfMemory
    }
}

impl From<AllocError> for TraceError {
    ghost use Rattle.std.specs.Prelude.{◌≡◌};
    ghost use Rattle.trace_file.specs.declared.error.TraceError.TheVariants.{OutOfMemory as memory};

    ghost from_gives = { λ _ error. error ≡ memory };

    fn from(_: AllocError) -> TraceError {
        TraceError::OutOfMemory
    }
}

impl<T: Drop> From<AllocFailed<T>> for TraceError {
    ghost use Rattle.std.specs.Prelude.{◌≡◌};
    ghost use Rattle.trace_file.specs.declared.error.TraceError.TheVariants.{OutOfMemory as memory};

    ghost from_gives = { λ _ error. error ≡ memory };

    fn from(_: AllocFailed<T>) -> TraceError {
        TraceError::OutOfMemory
    }
}
