use std::alloc::AllocFailed;

/// Why a schedule was refused. Lines count from 1.
#[derive(Clone, Copy, PartialEq, Eq)]
pub enum ScheduleError {
    /// Memory was refused.
    OutOfMemory,
    /// The text through this line begins no text of the form, and the one through the line before
    /// does.
    BadLine(u64),
    /// The text ends before its last line does.
    NoEnd,
    /// The text is longer than 16 MiB, or has more than 64 processes, or more than 1,000,000
    /// advances.
    TooLong,
    /// The file has another version than 1.
    Version,
}

impl<T: Drop> From<AllocFailed<T>> for ScheduleError {
    ghost use Rattle.std.specs.Prelude.{◌≡◌};
    ghost use Rattle.fleet_schedule.specs.declared.error.ScheduleError.TheVariants.{OutOfMemory as memory};

    ghost from_gives = { λ _ error. error ≡ memory };

    fn from(_: AllocFailed<T>) -> ScheduleError {
        ScheduleError::OutOfMemory
    }
}
