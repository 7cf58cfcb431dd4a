use dm_base::OutOfMemory;
use std::alloc::{AllocError, AllocFailed};

/// Why a unit isn't typed.
#[derive(Clone, Copy)]
pub enum CheckError {
    /// Memory was refused.
    OutOfMemory,
    /// A demand fails: the number of its code, and its place.
    At(u8, u32),
}

impl From<OutOfMemory> for CheckError {
    ghost use Rattle.std.specs.Prelude.{◌≡◌};
    ghost use Rattle.c_check_values.specs.declared.error.CheckError.TheVariants.{OutOfMemory as no_memory};

    ghost from_gives = { λ _ e. e ≡ no_memory };

    fn from(_: OutOfMemory) -> CheckError {
        CheckError::OutOfMemory
    }
}

impl From<AllocError> for CheckError {
    ghost use Rattle.std.specs.Prelude.{◌≡◌};
    ghost use Rattle.c_check_values.specs.declared.error.CheckError.TheVariants.{OutOfMemory as no_memory};

    ghost from_gives = { λ _ e. e ≡ no_memory };

    fn from(_: AllocError) -> CheckError {
        CheckError::OutOfMemory
    }
}

impl<T: Drop> From<AllocFailed<T>> for CheckError {
    ghost use Rattle.std.specs.Prelude.{◌≡◌};
    ghost use Rattle.c_check_values.specs.declared.error.CheckError.TheVariants.{OutOfMemory as no_memory};

    ghost from_gives = { λ _ e. e ≡ no_memory };

    fn from(_: AllocFailed<T>) -> CheckError {
        CheckError::OutOfMemory
    }
}
