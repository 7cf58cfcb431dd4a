use std::alloc::AllocFailed;

/// Why a file of results was refused. Lines count from 1.
#[derive(Clone, Copy, PartialEq, Eq)]
pub enum ResultsError {
    /// Memory was refused.
    OutOfMemory,
    /// The text through this line begins no text of the form, and the one through the line before
    /// does.
    BadLine(u64),
    /// The text ends before its last line does.
    NoEnd,
    /// The text is longer than 64 MiB, or has more than 1,000,000 records.
    TooLong,
    /// The file has another version than 1.
    Version,
}

impl<T: Drop> From<AllocFailed<T>> for ResultsError {
    ghost use Rattle.std.specs.Prelude.{◌≡◌};
    ghost use Rattle.sys_table.specs.declared.results_error.ResultsError.TheVariants.{OutOfMemory as memory};

    ghost from_gives = { λ _ error. error ≡ memory };

    fn from(_: AllocFailed<T>) -> ResultsError {
        ResultsError::OutOfMemory
    }
}
