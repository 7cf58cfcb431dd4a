ghost use Rattle.std.specs.Prelude.{◌≡◌, ◌≢◌, ◌↔◌, IsTrue};
ghost use Rattle.c_tree.specs.declared.value.UnOp.TheVariants.{Not};
ghost use Rattle.c_tree.specs.Operands.{kind_of, shift};
ghost use Rattle.c_values.specs.Told.{told as told_of};
ghost use Rattle.c_tree.specs.Operators.{convert, unary, binary};
ghost use Rattle.c_values.specs.Seen.{seen};
ghost use Rattle.c_meaning.specs.Meaning.{operated, comparing};
ghost use Rattle.ref_machine_steps.specs.Faults.{told};

use crate::Fault;
use crate::conditions::test;
use crate::pointers::compared;
use crate::values::truth_value;
use c_tree::{BinOp, IntType, UnOp, Value};
use c_values::{Memory, binary, convert, unary};
use dm_base::Kind;

/// The conversion of an integer to an integer type (C99 6.3.1.3).
pub fn convert_value(value: Value, to: IntType) -> Result<Value, Fault>
    ensures { told result ≡ convert to value }
{
    match value {
        Value::Int(z) => Ok(convert(Value::Int(z), to)),
        Value::Uint(n) => Ok(convert(Value::Uint(n), to)),
        Value::Char(z) => Ok(convert(Value::Char(z), to)),
        Value::Uchar(n) => Ok(convert(Value::Uchar(n), to)),
        _ => Err(Fault::Mistyped),
    }
}

// The answer of an operator on integers.
fn settled(given: Result<Value, Kind>) -> Result<Value, Fault>
    ensures { told result ≡ told_of given }
{
    match given {
        Ok(value) => Ok(value),
        Err(kind) => Err(Fault::Undefined(kind)),
    }
}

// `-` and `~` on an integer of a promoted type.
fn on_promoted(op: UnOp, value: Value) -> Result<Value, Fault>
    requires { op ≢ Not }
    ensures { told result ≡ unary op value }
{
    match (op, value) {
        (UnOp::Minus, Value::Int(z)) => settled(unary(UnOp::Minus, Value::Int(z))),
        (UnOp::Minus, Value::Uint(n)) => settled(unary(UnOp::Minus, Value::Uint(n))),
        (UnOp::Complement, Value::Int(z)) => settled(unary(UnOp::Complement, Value::Int(z))),
        (UnOp::Complement, Value::Uint(n)) => settled(unary(UnOp::Complement, Value::Uint(n))),
        _ => Err(Fault::Mistyped),
    }
}

/// The value of a unary operator on a scalar (C99 6.5.3.3).
pub fn operated(memory: &Memory, op: UnOp, value: Value) -> Result<Value, Fault>
    ensures { told result ≡ operated op (seen memory.now) value }
{
    match op {
        UnOp::Not => {
            let holds = test(memory, value)?;
            Ok(truth_value(!holds))
        }
        UnOp::Minus => on_promoted(op, value),
        UnOp::Complement => on_promoted(op, value),
    }
}

// Whether the operator is a shift.
fn is_shift(op: BinOp) -> bool
    ensures { IsTrue result ↔ (kind_of op ≡ shift) }
{
    match op {
        BinOp::ShiftLeft => true,
        BinOp::ShiftRight => true,
        _ => false,
    }
}

/// The value of a binary operator on integers (C99 6.5.5 to 6.5.12).
pub fn computed(op: BinOp, left: Value, right: Value) -> Result<Value, Fault>
    ensures { told result ≡ binary op left right }
{
    match (left, right) {
        (Value::Int(x), Value::Int(y)) => settled(binary(op, Value::Int(x), Value::Int(y))),
        (Value::Uint(m), Value::Uint(n)) => settled(binary(op, Value::Uint(m), Value::Uint(n))),
        (Value::Int(x), Value::Uint(n)) => {
            if is_shift(op) {
                settled(binary(op, Value::Int(x), Value::Uint(n)))
            } else {
                Err(Fault::Mistyped)
            }
        }
        (Value::Uint(m), Value::Int(y)) => {
            if is_shift(op) {
                settled(binary(op, Value::Uint(m), Value::Int(y)))
            } else {
                Err(Fault::Mistyped)
            }
        }
        _ => Err(Fault::Mistyped),
    }
}

/// The int 1 or 0 of a comparison of two integers or two pointers (C99 6.5.8, 6.5.9).
pub fn comparing(memory: &Memory, op: BinOp, left: Value, right: Value) -> Result<Value, Fault>
    ensures { told result ≡ comparing op (seen memory.now) left right }
{
    match left {
        Value::Int(_) => computed(op, left, right),
        Value::Uint(_) => computed(op, left, right),
        _ => compared(memory, op, left, right),
    }
}
