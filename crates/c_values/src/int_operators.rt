ghost use Rattle.std.specs.Prelude.{◌≡◌, ◌≤◌, ℤ, pos};
ghost use Rattle.c_tree.specs.declared.value.IntType.TheVariants.{Int as int};
ghost use Rattle.c_tree.specs.declared.value.BinOp.TheVariants.{Div, Rem};
ghost use Rattle.c_tree.specs.Operands.{shift, kind_of};
ghost use Rattle.c_tree.specs.Operators.{shift_left, table_of};
ghost use Rattle.c_values.specs.Told.{told};

use crate::conversions::truth;
use crate::kinds::kind;
use crate::shifts::shift_amount;
use crate::unary_operators::in_range;
use c_tree::{BinOp, Kind, Value};

// `/` on ints.
fn divide(x: i32, y: i32) -> Result<Value, Kind>
    ensures { told result ≡ table_of Div int x y }
{
    if y == 0 {
        return Err(kind(2));
    }
    in_range(x.checked_div(y))
}

// `%` on ints, which has the sign of the left one.
fn remainder(x: i32, y: i32) -> Result<Value, Kind>
    ensures { told result ≡ table_of Rem int x y }
{
    if y == 0 {
        return Err(kind(2));
    }
    in_range(x.checked_rem(y))
}

// `<<` on an int by at most 31 bits.
fn left(x: i32, bits: u32) -> Result<Value, Kind>
    requires { bits ≤ 31 }
    ensures { told result ≡ shift_left int x bits }
{
    if x < 0 {
        return Err(kind(3));
    }
    match i32::try_from(x as i64 * (1i64 << bits)) {
        Ok(shifted) => Ok(Value::Int(shifted)),
        Err(_) => Err(kind(3)),
    }
}

// A shift of an int by this number of bits.
pub fn shift_int(op: BinOp, x: i32, bits: i64) -> Result<Value, Kind>
    requires { kind_of op ≡ shift }
    ensures { told result ≡ table_of op int x bits }
{
    let bits = shift_amount(bits)?;
    match op {
        BinOp::ShiftLeft => left(x, bits),
        BinOp::ShiftRight => Ok(Value::Int(x >> bits)),
        _ => unreachable!(),
    }
}

// A binary operator on two ints.
pub fn on_ints(op: BinOp, x: i32, y: i32) -> Result<Value, Kind>
    ensures { told result ≡ table_of op int x y }
{
    match op {
        BinOp::Mul => in_range(x.checked_mul(y)),
        BinOp::Div => divide(x, y),
        BinOp::Rem => remainder(x, y),
        BinOp::Add => in_range(x.checked_add(y)),
        BinOp::Sub => in_range(x.checked_sub(y)),
        BinOp::ShiftLeft => shift_int(op, x, y as i64),
        BinOp::ShiftRight => shift_int(op, x, y as i64),
        BinOp::BitAnd => Ok(Value::Int(x & y)),
        BinOp::BitXor => Ok(Value::Int(x ^ y)),
        BinOp::BitOr => Ok(Value::Int(x | y)),
        BinOp::Less => Ok(truth(x < y)),
        BinOp::Greater => Ok(truth(x > y)),
        BinOp::LessEqual => Ok(truth(x <= y)),
        BinOp::GreaterEqual => Ok(truth(x >= y)),
        BinOp::Equal => Ok(truth(x == y)),
        BinOp::NotEqual => Ok(truth(x != y)),
    }
}
