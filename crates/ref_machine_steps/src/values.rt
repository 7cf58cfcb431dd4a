ghost use Rattle.std.specs.Prelude.{◌≡◌, ◌≤ℤ◌, pos, negsuc, IfOk};
ghost use Rattle.c_meaning.specs.Pointers.{pointer, callee, number, truth_value};
ghost use Rattle.ref_machine_steps.specs.Faults.{told};

use crate::Fault;
use crate::fault::undefined;
use c_tree::{Pointer, Value};

/// The pointer to an object. It refuses a null pointer with kind 5.
pub fn pointer(value: Value) -> Result<Pointer, Fault>
    ensures { told result ≡ pointer value }
{
    match value {
        Value::At(at) => Ok(at),
        Value::Null => Err(undefined(5)),
        _ => Err(Fault::Mistyped),
    }
}

/// The number of the function that is called. It refuses a null pointer with kind 5 (C99 6.5.2.2).
pub fn callee(value: Value) -> Result<u32, Fault>
    ensures { told result ≡ callee value }
{
    match value {
        Value::Func(function) => Ok(function),
        Value::Null => Err(undefined(5)),
        _ => Err(Fault::Mistyped),
    }
}

/// The number of an integer.
pub fn number(value: Value) -> Result<i64, Fault>
    ensures number { told result ≡ number value }
    ensures least { IfOk result (λ z. negsuc 2147483647 ≤ℤ z) }
    ensures greatest { IfOk result (λ z. z ≤ℤ pos 4294967295) }
{
    match value {
        Value::Int(z) => Ok(z as i64),
        Value::Uint(n) => Ok(n as i64),
        Value::Char(z) => Ok(z as i64),
        Value::Uchar(n) => Ok(n as i64),
        _ => Err(Fault::Mistyped),
    }
}

/// The int 1 or 0 (C99 6.5.8 paragraph 6).
pub fn truth_value(is: bool) -> Value
    ensures { result ≡ truth_value is }
{
    if is { Value::Int(1) } else { Value::Int(0) }
}
