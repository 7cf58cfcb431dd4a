ghost use Rattle.std.specs.Prelude.{◌≡◌, ℤ};
ghost use Rattle.c_tree.specs.declared.value.UnOp.TheVariants.{Minus, Complement};
ghost use Rattle.c_tree.specs.Operators.{gives, unary};
ghost use Rattle.c_values.specs.Told.{told};
ghost use Rattle.c_values.specs.Ranges.{ranged};
ghost use Rattle.c_values.specs.OperandValues.{IsUnaryOperand};

use crate::conversions::{number, truth};
use crate::kinds::kind;
use c_tree::{Kind, UnOp, Value};

// The int, where one is in range.
pub fn in_range(number: Option<i32>) -> Result<Value, Kind>
    ensures { told result ≡ ranged number }
{
    match number {
        Some(number) => Ok(Value::Int(number)),
        None => Err(kind(1)),
    }
}

// `-` on an integer of a promoted type.
fn minus(value: Value) -> Result<Value, Kind>
    requires { IsUnaryOperand Minus value }
    ensures { told result ≡ unary Minus value }
{
    match value {
        Value::Int(z) => in_range(z.checked_neg()),
        Value::Uint(n) => Ok(Value::Uint(0u32.wrapping_sub(n))),
        _ => unreachable!(),
    }
}

// `~` on an integer of a promoted type.
fn complement(value: Value) -> Value
    requires { IsUnaryOperand Complement value }
    ensures { gives result ≡ unary Complement value }
{
    match value {
        Value::Int(z) => Value::Int(-1 - z),
        Value::Uint(n) => Value::Uint(4_294_967_295 - n),
        _ => unreachable!(),
    }
}

/// The value of a unary operator on an integer (C99 6.5.3.3). It refuses with kind 1 the negative of the least int.
pub fn unary(op: UnOp, value: Value) -> Result<Value, Kind>
    requires { IsUnaryOperand op value }
    ensures { told result ≡ unary op value }
{
    match op {
        UnOp::Minus => minus(value),
        UnOp::Complement => Ok(complement(value)),
        UnOp::Not => Ok(truth(number(value) == 0)),
    }
}
