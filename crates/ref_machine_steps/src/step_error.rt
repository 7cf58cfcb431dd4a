use crate::Fault;
use dm_base::OutOfMemory;
use std::alloc::{AllocError, AllocFailed};

/// Why a step that takes memory gives nothing.
#[derive(Clone, Copy)]
pub enum StepError {
    /// Memory was refused.
    OutOfMemory,
    /// What the step is to give is no value.
    Faulty(Fault),
}

impl From<OutOfMemory> for StepError {
    ghost use Rattle.std.specs.Prelude.{◌≡◌};
    ghost use Rattle.ref_machine_steps.specs.declared.step_error.StepError.TheVariants.{OutOfMemory as memory};

    ghost from_gives = { λ _ error. error ≡ memory };

    fn from(_: OutOfMemory) -> StepError {
        StepError::OutOfMemory
    }
}

impl From<AllocError> for StepError {
    ghost use Rattle.std.specs.Prelude.{◌≡◌};
    ghost use Rattle.ref_machine_steps.specs.declared.step_error.StepError.TheVariants.{OutOfMemory as memory};

    ghost from_gives = { λ _ error. error ≡ memory };

    fn from(_: AllocError) -> StepError {
        StepError::OutOfMemory
    }
}

impl<T: Drop> From<AllocFailed<T>> for StepError {
    ghost use Rattle.std.specs.Prelude.{◌≡◌};
    ghost use Rattle.ref_machine_steps.specs.declared.step_error.StepError.TheVariants.{OutOfMemory as memory};

    ghost from_gives = { λ _ error. error ≡ memory };

    fn from(_: AllocFailed<T>) -> StepError {
        StepError::OutOfMemory
    }
}

impl From<Fault> for StepError {
    ghost use Rattle.std.specs.Prelude.{◌≡◌};
    ghost use Rattle.ref_machine_steps.specs.declared.step_error.StepError.TheVariants.{Faulty};

    ghost from_gives = { λ fault error. error ≡ Faulty fault };

    fn from(fault: Fault) -> StepError {
        StepError::Faulty(fault)
    }
}
