ghost use Rattle.std.specs.Prelude.{◌≡◌, ◌≤ℤ◌, pos, negsuc};
ghost use Rattle.c_check_values.specs.TypedExpressionView.{constant_of};
ghost use Rattle.c_check_scopes.specs.Constants.{answered, number_of, constant_converted, constant_unary, constant_binary, constant_truth, constant_and, constant_or, constant_conditional};
ghost use Rattle.c_check_scopes.specs.TypedExpression.{not_constant};
ghost use Rattle.c_tree.specs.Operands.{kind_of, shift};
ghost use Rattle.c_tree.specs.Operators.{truth, convert, unary, binary, where_shift};
ghost use Rattle.c_check_values.specs.Shifts.{shifts};
ghost use Rattle.c_values.specs.OperandValues.{AreBinaryOperands};
ghost use Rattle.c_values.specs.Told.{told};

use crate::typed_expression::{Constant, is_zero};
use c_tree::{BinOp, IntType, UnOp, Value};
use dm_base::Kind;

// What an operator gives.
fn answered(answer: Result<Value, Kind>) -> Constant
    ensures { constant_of result ≡ answered (told answer) }
{
    match answer {
        Ok(value) => Constant::Known(value),
        Err(_) => Constant::Undefined,
    }
}

// An int: 1 or 0.
fn truth(is: bool) -> Constant
    ensures { constant_of result ≡ answered (truth is) }
{
    if is {
        Constant::Known(Value::Int(1))
    } else {
        Constant::Known(Value::Int(0))
    }
}

/// The number that an integer is, 0 for any other value; it is from −2^31 to 2^32 − 1.
pub fn number_of(value: Value) -> i64
    ensures number { result ≡ number_of value }
    ensures least { negsuc 2147483647 ≤ℤ result }
    ensures most { result ≤ℤ pos 4294967295 }
{
    match value {
        Value::Int(z) => z as i64,
        Value::Uint(n) => n as i64,
        Value::Char(z) => z as i64,
        Value::Uchar(n) => n as i64,
        _ => 0,
    }
}

// A value converted to an integer type (C99 6.3.1.3).
fn value_converted(to: IntType, value: Value) -> Constant
    ensures { constant_of result ≡ answered (convert to value) }
{
    match value {
        Value::Int(_) | Value::Uint(_) | Value::Char(_) | Value::Uchar(_) => {
            Constant::Known(c_values::convert(value, to))
        }
        _ => Constant::Undefined,
    }
}

/// A constant converted to an integer type (C99 6.3.1.3).
pub fn constant_converted(to: IntType, c: Constant) -> Constant
    ensures { constant_of result ≡ constant_converted to (constant_of c) }
{
    match c {
        Constant::Known(value) => value_converted(to, value),
        Constant::Not | Constant::Undefined => c,
    }
}

// A unary operator on a value.
fn value_unary(op: UnOp, value: Value) -> Constant
    ensures { constant_of result ≡ answered (unary op value) }
{
    match op {
        UnOp::Not => match value {
            Value::Int(_) | Value::Uint(_) | Value::Char(_) | Value::Uchar(_) => {
                answered(c_values::unary(UnOp::Not, value))
            }
            _ => Constant::Undefined,
        },
        UnOp::Minus | UnOp::Complement => match value {
            Value::Int(_) | Value::Uint(_) => answered(c_values::unary(op, value)),
            _ => Constant::Undefined,
        },
    }
}

/// A unary operator on a constant (C99 6.5.3.3).
pub fn constant_unary(op: UnOp, c: Constant) -> Constant
    ensures { constant_of result ≡ constant_unary op (constant_of c) }
{
    match c {
        Constant::Known(value) => value_unary(op, value),
        Constant::Not | Constant::Undefined => c,
    }
}

// Whether it is a shift.
fn is_shift(op: BinOp) -> bool
    ensures { result ≡ shifts (kind_of op) }
{
    match op {
        BinOp::ShiftLeft => true,
        BinOp::ShiftRight => true,
        _ => false,
    }
}

// A shift of operands of different types.
fn shifted(op: BinOp, left: Value, right: Value) -> Constant
    requires { kind_of op ≡ shift → AreBinaryOperands op left right }
    ensures { constant_of result ≡ answered (where_shift (kind_of op) (binary op left right)) }
{
    if is_shift(op) {
        answered(c_values::binary(op, left, right))
    } else {
        Constant::Undefined
    }
}

// A binary operator on two values.
fn value_binary(op: BinOp, left: Value, right: Value) -> Constant
    ensures { constant_of result ≡ answered (binary op left right) }
{
    match left {
        Value::Int(_) => match right {
            Value::Int(_) => answered(c_values::binary(op, left, right)),
            Value::Uint(_) => shifted(op, left, right),
            _ => Constant::Undefined,
        },
        Value::Uint(_) => match right {
            Value::Int(_) => shifted(op, left, right),
            Value::Uint(_) => answered(c_values::binary(op, left, right)),
            _ => Constant::Undefined,
        },
        _ => Constant::Undefined,
    }
}

/// A binary operator on two constants (C99 6.5.5 to 6.5.12).
pub fn constant_binary(op: BinOp, a: Constant, b: Constant) -> Constant
    ensures { constant_of result ≡ constant_binary op (constant_of a) (constant_of b) }
{
    match a {
        Constant::Not => Constant::Not,
        Constant::Undefined => match b {
            Constant::Not => Constant::Not,
            _ => Constant::Undefined,
        },
        Constant::Known(left) => match b {
            Constant::Not | Constant::Undefined => b,
            Constant::Known(right) => value_binary(op, left, right),
        },
    }
}

// 1 where the value isn't zero, else 0.
fn constant_truth(c: Constant) -> Constant
    ensures { constant_of result ≡ constant_truth (constant_of c) }
{
    match c {
        Constant::Not | Constant::Undefined => c,
        Constant::Known(value) => truth(!is_zero(value)),
    }
}

/// `&&` of two constants (C99 6.5.13).
pub fn constant_and(a: Constant, b: Constant) -> Constant
    ensures { constant_of result ≡ constant_and (constant_of a) (constant_of b) }
{
    match a {
        Constant::Not => Constant::Not,
        Constant::Undefined => match b {
            Constant::Not => Constant::Not,
            _ => Constant::Undefined,
        },
        Constant::Known(value) => match b {
            Constant::Not => Constant::Not,
            _ => {
                if is_zero(value) {
                    truth(false)
                } else {
                    constant_truth(b)
                }
            }
        },
    }
}

/// `||` of two constants (C99 6.5.14).
pub fn constant_or(a: Constant, b: Constant) -> Constant
    ensures { constant_of result ≡ constant_or (constant_of a) (constant_of b) }
{
    match a {
        Constant::Not => Constant::Not,
        Constant::Undefined => match b {
            Constant::Not => Constant::Not,
            _ => Constant::Undefined,
        },
        Constant::Known(value) => match b {
            Constant::Not => Constant::Not,
            _ => {
                if is_zero(value) {
                    constant_truth(b)
                } else {
                    truth(true)
                }
            }
        },
    }
}

// The arm of `?:` that is taken.
fn chosen(c: Constant, a: Constant, b: Constant) -> Constant
    requires some { (constant_of a ≡ not_constant → ⊥) × (constant_of b ≡ not_constant → ⊥) }
    ensures { constant_of result ≡ constant_conditional (constant_of c) (constant_of a) (constant_of b) }
{
    match c {
        Constant::Not | Constant::Undefined => c,
        Constant::Known(value) => { if is_zero(value) { b } else { a } }
    }
}

/// `?:` of three constants (C99 6.5.15).
pub fn constant_conditional(c: Constant, a: Constant, b: Constant) -> Constant
    ensures { constant_of result ≡ constant_conditional (constant_of c) (constant_of a) (constant_of b) }
{
    match a {
        Constant::Not => Constant::Not,
        _ => match b {
            Constant::Not => Constant::Not,
            _ => chosen(c, a, b),
        },
    }
}
