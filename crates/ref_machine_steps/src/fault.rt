ghost use Rattle.std.specs.Prelude.{◌≡◌, ◌≤◌};
ghost use Rattle.ref_machine_steps.specs.Faults.{number_of};

use dm_base::Kind;

/// Why a step gives nothing.
#[derive(Clone, Copy)]
pub enum Fault {
    /// The behaviour is undefined, of this kind.
    Undefined(Kind),
    /// A value has another kind than its type, or has no number in the range of its type.
    Mistyped,
}

// Undefined behaviour of the kind with this number.
pub fn undefined(number: u8) -> Fault
    requires least { 1 ≤ number }
    requires greatest { number ≤ 12 }
    ensures { number_of result ≡ number }
{
    match Kind::from_number(number) {
        Some(kind) => Fault::Undefined(kind),
        None => Fault::Mistyped,
    }
}
