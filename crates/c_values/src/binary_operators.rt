ghost use Rattle.std.specs.Prelude.{◌≡◌};
ghost use Rattle.c_tree.specs.Operators.{binary};
ghost use Rattle.c_values.specs.Told.{told};
ghost use Rattle.c_values.specs.OperandValues.{AreBinaryOperands};

use crate::int_operators::{on_ints, shift_int};
use crate::unsigned_operators::{on_unsigned, shift_unsigned};
use c_tree::{BinOp, Kind, Value};

/// The value of a binary operator on integers of one promoted type, or for a shift of two (C99 6.5.5 to 6.5.12). It
/// refuses with kind 1 an int result of `+`, `-` or `*` that is out of range and the least int by −1, with kind 2 a
/// division by 0, and with kind 3 a shift by less than 0 or more than 31 bits, and a left shift of a negative int or
/// one whose result is no int.
pub fn binary(op: BinOp, left: Value, right: Value) -> Result<Value, Kind>
    requires { AreBinaryOperands op left right }
    ensures { told result ≡ binary op left right }
{
    match (left, right) {
        (Value::Int(x), Value::Int(y)) => on_ints(op, x, y),
        (Value::Int(x), Value::Uint(n)) => shift_int(op, x, n as i64),
        (Value::Uint(m), Value::Int(y)) => shift_unsigned(op, m, y as i64),
        (Value::Uint(m), Value::Uint(n)) => on_unsigned(op, m, n),
        _ => unreachable!(),
    }
}
