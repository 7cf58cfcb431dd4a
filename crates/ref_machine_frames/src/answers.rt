ghost use Rattle.std.specs.Prelude.{◌≡◌};
ghost use Rattle.c_values.specs.Answers.{undefined};
ghost use Rattle.ref_machine_steps.specs.Faults.{number_of, told};
ghost use Rattle.ref_machine_frames.specs.Parts.{IsAnswer};
ghost use Rattle.ref_machine_frames.specs.Work.{of_now};

use crate::frames::Now;
use c_tree::Value;
use dm_base::Outcome;
use ref_machine_steps::Fault;

/// The end of the run by undefined behaviour, or at a value of another kind than its type, which no run of a
/// well-typed program comes to.
pub fn stopped<'p>(fault: Fault) -> Now<'p>
    ensures same { IsAnswer (undefined (number_of fault)) result }
    ensures done { of_now result ≡ 0 }
{
    match fault {
        Fault::Undefined(kind) => Now::Stopped(Outcome::Undefined(kind)),
        Fault::Mistyped => Now::Mistyped,
    }
}

/// The value that a step gives, or the end of the run.
pub fn given<'p>(found: Result<Value, Fault>) -> Now<'p>
    ensures same { IsAnswer (told found) result }
    ensures done { of_now result ≡ 0 }
{
    match found {
        Ok(value) => Now::Have(value),
        Err(fault) => stopped(fault),
    }
}
