ghost use Rattle.std.specs.Prelude.{◌≡◌};
ghost use Rattle.c_values.specs.Seen.{seen};
ghost use Rattle.c_meaning.specs.Pointers.{test};
ghost use Rattle.ref_machine_steps.specs.Faults.{told};

use crate::Fault;
use crate::fault::undefined;
use c_tree::Value;
use c_values::Memory;

/// Whether a scalar compares unequal to 0 (C99 6.5.3.3 paragraph 5, 6.8.4.1 paragraph 2). It refuses a pointer to an
/// object that has ended with kind 6.
pub fn test(memory: &Memory, value: Value) -> Result<bool, Fault>
    ensures { told result ≡ test (seen memory.now) value }
{
    match value {
        Value::Int(z) => Ok(z != 0),
        Value::Uint(n) => Ok(n != 0),
        Value::Char(z) => Ok(z != 0),
        Value::Uchar(n) => Ok(n != 0),
        Value::Null => Ok(false),
        Value::Func(_) => Ok(true),
        Value::At(at) => match memory.cells(at.name) {
            Some(_) => Ok(true),
            None => Err(undefined(6)),
        },
        Value::Indeterminate => Err(Fault::Mistyped),
    }
}
