ghost use Rattle.std.specs.Prelude.{◌≡◌, Bool, ℤ};
ghost use Rattle.c_tree.specs.Operators.{gives, on_number, truth as truth_of, low_bits, convert};
ghost use Rattle.c_values.specs.OperandValues.{IsInteger};

use c_tree::{IntType, Value};

// The number of an integer.
pub fn number(value: Value) -> i64
    requires { IsInteger value }
    ensures { gives result ≡ on_number value gives }
{
    match value {
        Value::Int(z) => z as i64,
        Value::Uint(n) => n as i64,
        Value::Char(z) => z as i64,
        Value::Uchar(n) => n as i64,
        _ => unreachable!(),
    }
}

// An int: 1 or 0.
pub fn truth(is: bool) -> Value
    ensures { gives result ≡ truth_of is }
{
    if is { Value::Int(1) } else { Value::Int(0) }
}

// The low 8 bits of a number in two's complement.
fn low_byte(number: i64) -> u8
    ensures { result ≡ low_bits 8 number }
{
    number.rem_euclid(256) as u8
}

// The low 32 bits of a number in two's complement.
fn low_word(number: i64) -> u32
    ensures { result ≡ low_bits 32 number }
{
    number.rem_euclid(4_294_967_296) as u32
}

/// The conversion of an integer to an integer type, which keeps the low bits of its number, 8 for the two `char` types
/// and 32 for the others; those of `char` and `int` are read in two's complement (C99 6.3.1.3).
pub fn convert(value: Value, to: IntType) -> Value
    requires { IsInteger value }
    ensures { gives result ≡ convert to value }
{
    let number = number(value);
    match to {
        IntType::Char => Value::Char(low_byte(number).cast_signed()),
        IntType::Uchar => Value::Uchar(low_byte(number)),
        IntType::Int => Value::Int(low_word(number).cast_signed()),
        IntType::Uint => Value::Uint(low_word(number)),
    }
}
