ghost use Rattle.std.specs.Prelude.{◌≡◌, ℕ, pos};
ghost use Rattle.c_tree.specs.declared.value.IntType.TheVariants.{Uint as unsigned};
ghost use Rattle.c_tree.specs.declared.value.BinOp.TheVariants.{Div, Rem};
ghost use Rattle.c_tree.specs.Operands.{shift, kind_of};
ghost use Rattle.c_tree.specs.Operators.{table_of};
ghost use Rattle.c_values.specs.Told.{told};

use crate::conversions::truth;
use crate::kinds::kind;
use crate::shifts::shift_amount;
use c_tree::{BinOp, Kind, Value};

// `/` on unsigned ints.
fn divide(m: u32, n: u32) -> Result<Value, Kind>
    ensures { told result ≡ table_of Div unsigned (pos m) (pos n) }
{
    if n == 0 {
        return Err(kind(2));
    }
    Ok(Value::Uint(m / n))
}

// `%` on unsigned ints.
fn remainder(m: u32, n: u32) -> Result<Value, Kind>
    ensures { told result ≡ table_of Rem unsigned (pos m) (pos n) }
{
    if n == 0 {
        return Err(kind(2));
    }
    Ok(Value::Uint(m % n))
}

// A shift of an unsigned int by this number of bits.
pub fn shift_unsigned(op: BinOp, m: u32, bits: i64) -> Result<Value, Kind>
    requires { kind_of op ≡ shift }
    ensures { told result ≡ table_of op unsigned (pos m) bits }
{
    let bits = shift_amount(bits)?;
    match op {
        BinOp::ShiftLeft => Ok(Value::Uint(m << bits)),
        BinOp::ShiftRight => Ok(Value::Uint(m >> bits)),
        _ => unreachable!(),
    }
}

// A binary operator on two unsigned ints.
pub fn on_unsigned(op: BinOp, m: u32, n: u32) -> Result<Value, Kind>
    ensures { told result ≡ table_of op unsigned (pos m) (pos n) }
{
    match op {
        BinOp::Mul => Ok(Value::Uint(m.wrapping_mul(n))),
        BinOp::Div => divide(m, n),
        BinOp::Rem => remainder(m, n),
        BinOp::Add => Ok(Value::Uint(m.wrapping_add(n))),
        BinOp::Sub => Ok(Value::Uint(m.wrapping_sub(n))),
        BinOp::ShiftLeft => shift_unsigned(op, m, n as i64),
        BinOp::ShiftRight => shift_unsigned(op, m, n as i64),
        BinOp::BitAnd => Ok(Value::Uint(m & n)),
        BinOp::BitXor => Ok(Value::Uint(m ^ n)),
        BinOp::BitOr => Ok(Value::Uint(m | n)),
        BinOp::Less => Ok(truth(m < n)),
        BinOp::Greater => Ok(truth(m > n)),
        BinOp::LessEqual => Ok(truth(m <= n)),
        BinOp::GreaterEqual => Ok(truth(m >= n)),
        BinOp::Equal => Ok(truth(m == n)),
        BinOp::NotEqual => Ok(truth(m != n)),
    }
}
