ghost use Rattle.std.specs.Prelude.{◌≡◌, Some};
ghost use Rattle.c_tree.specs.Constants.{constant_value, number_in, number_as, entry, given, given_of, given_of_two};
ghost use Rattle.c_tree.specs.Operators.{convert, unary, binary};
ghost use Rattle.c_tree.specs.View.{expr_of};
ghost use Rattle.c_values.specs.Told.{told as told_of};
ghost use Rattle.ref_machine_steps.specs.Faults.{told};

use c_tree::{BinOp, IntType, TExpr, TExprKind, UnOp, Value};
use c_values::unary;
use dm_base::Kind;
use ref_machine_steps::{Fault, computed, convert_value};
use sys_table::ArgKind;

// The value that a step gives.
fn value_of(step: Result<Value, Fault>) -> Option<Value>
    ensures { result ≡ given (told step) }
{
    match step {
        Ok(value) => Some(value),
        Err(_) => None,
    }
}

// The value that an operator gives.
fn typed_value(answer: Result<Value, Kind>) -> Option<Value>
    ensures { result ≡ given (told_of answer) }
{
    match answer {
        Ok(value) => Some(value),
        Err(_) => None,
    }
}

// The conversion of a constant (C99 6.3.1.3).
fn converted(value: Option<Value>, to: IntType) -> Option<Value>
    ensures { result ≡ given_of value (convert to) }
{
    match value {
        Some(value) => value_of(convert_value(value, to)),
        None => None,
    }
}

// No unary operator gives anything of what is no integer.
fn nothing_of(op: UnOp, value: Value) -> Option<Value>
    requires { (o : UnOp) → given (unary o value) ≡ None }
    ensures { result ≡ given (unary op value) }
{
    None
}

// What a unary operator gives of a value, where that is an integer (C99 6.5.3.3).
fn operated(op: UnOp, value: Value) -> Option<Value>
    ensures { result ≡ given (unary op value) }
{
    match value {
        Value::Int(z) => typed_value(unary(op, Value::Int(z))),
        Value::Uint(n) => typed_value(unary(op, Value::Uint(n))),
        Value::Char(z) => match op {
            UnOp::Not => typed_value(unary(UnOp::Not, Value::Char(z))),
            UnOp::Minus => None,
            UnOp::Complement => None,
        },
        Value::Uchar(n) => match op {
            UnOp::Not => typed_value(unary(UnOp::Not, Value::Uchar(n))),
            UnOp::Minus => None,
            UnOp::Complement => None,
        },
        Value::Indeterminate => nothing_of(op, value),
        Value::Null => nothing_of(op, value),
        Value::Func(_) => nothing_of(op, value),
        Value::At(_) => nothing_of(op, value),
    }
}

// What a unary operator gives of a constant.
fn operated_on(op: UnOp, value: Option<Value>) -> Option<Value>
    ensures { result ≡ given_of value (unary op) }
{
    match value {
        Some(value) => operated(op, value),
        None => None,
    }
}

// What arithmetic gives of two constants (C99 6.5.5 to 6.5.12).
fn computed_of(op: BinOp, left: Option<Value>, right: Option<Value>) -> Option<Value>
    ensures { result ≡ given_of_two left right (binary op) }
{
    match left {
        Some(left) => match right {
            Some(right) => value_of(computed(op, left, right)),
            None => None,
        },
        None => None,
    }
}

// The value of a constant expression: of a constant, or of conversions, unary operators and arithmetic on such
// where their values are defined (C99 6.6).
fn constant_value(e: &TExpr) -> Option<Value>
    ensures { result ≡ constant_value (expr_of e.now) }
{
    match &e.kind {
        TExprKind::Const(value) => Some(*value),
        TExprKind::Convert(to, a) => converted(constant_value(a), *to),
        TExprKind::Unary(op, a) => operated_on(*op, constant_value(a)),
        TExprKind::Arith(op, a, b) => computed_of(*op, constant_value(a), constant_value(b)),
        _ => None,
    }
}

// The number of an int or an unsigned int.
fn number_of(value: Value) -> Option<i64>
    ensures { result ≡ number_in (Some value) }
{
    match value {
        Value::Int(z) => Some(z as i64),
        Value::Uint(n) => Some(n as i64),
        Value::Char(_) => None,
        Value::Uchar(_) => None,
        Value::Indeterminate => None,
        Value::Null => None,
        Value::Func(_) => None,
        Value::At(_) => None,
    }
}

// The number of an int or an unsigned int, where there is a value.
fn number_in(value: Option<Value>) -> Option<i64>
    ensures { result ≡ number_in value }
{
    match value {
        Some(value) => number_of(value),
        None => None,
    }
}

// The number that a constant argument has in the parameter's type.
fn number_as(to: IntType, e: &TExpr) -> Option<i64>
    ensures { result ≡ number_as to (expr_of e.now) }
{
    number_in(converted(constant_value(e), to))
}

// The entry of a recorded argument of this kind: the number of a constant integer.
pub fn entry(kind: ArgKind, e: &TExpr) -> Option<i64>
    ensures { result ≡ entry kind (expr_of e.now) }
{
    match kind {
        ArgKind::Signed => number_as(IntType::Int, e),
        ArgKind::Unsigned => number_as(IntType::Uint, e),
        ArgKind::Bytes => None,
    }
}
