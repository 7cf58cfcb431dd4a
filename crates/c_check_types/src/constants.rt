ghost use Rattle.std.specs.Prelude.{◌≡◌, pos};
ghost use Rattle.c_check_values.specs.Agreement.{AgreesWith};
ghost use Rattle.c_check_values.specs.TypedExpressionView.{constant_of, typed_expression_of};
ghost use Rattle.c_rules.specs.Constants.{number_of};
ghost use Rattle.c_rules.specs.Declarators.{defined_value, constant_value, positive, array_size};

use c_check_values::{C6, CheckError, Constant, TypedExpression, Value};

// A constant that is defined.
fn defined_value(place: u32, c: Constant) -> Result<Value, CheckError>
    ensures { AgreesWith (λ v. v) result (defined_value place (constant_of c)) }
{
    match c {
        Constant::Not => Err(CheckError::At(C6, place)),
        Constant::Undefined => Err(CheckError::At(C6, place)),
        Constant::Known(value) => Ok(value),
    }
}

/// The value of a constant integer expression (C99 6.6).
pub fn constant_value(place: u32, g: &TypedExpression) -> Result<Value, CheckError>
    ensures { AgreesWith (λ v. v) result (constant_value place (typed_expression_of g.now)) }
{
    defined_value(place, g.integer_constant())
}

// A number greater than zero.
fn positive_number(place: u32, n: u32) -> Result<u32, CheckError>
    ensures { AgreesWith (λ n. n) result (positive place (pos n)) }
{
    if n == 0 {
        return Err(CheckError::At(C6, place));
    }
    Ok(n)
}

// The same of a number that may be negative.
fn positive_signed(place: u32, z: i32) -> Result<u32, CheckError>
    ensures { AgreesWith (λ n. n) result (positive place z) }
{
    match u32::try_from(z) {
        Ok(n) => positive_number(place, n),
        Err(_) => Err(CheckError::At(C6, place)),
    }
}

// The number that an integer is, which is greater than zero.
fn positive(place: u32, value: Value) -> Result<u32, CheckError>
    ensures { AgreesWith (λ n. n) result (positive place (number_of value)) }
{
    match value {
        Value::Int(z) => positive_signed(place, z),
        Value::Uint(n) => positive_number(place, n),
        Value::Char(z) => positive_signed(place, z as i32),
        Value::Uchar(n) => positive_number(place, n as u32),
        _ => Err(CheckError::At(C6, place)),
    }
}

/// An array size, which is greater than zero (C99 6.7.5.2 paragraph 1).
pub fn array_size(place: u32, g: &TypedExpression) -> Result<u32, CheckError>
    ensures { AgreesWith (λ n. n) result (array_size place (typed_expression_of g.now)) }
{
    let value = constant_value(place, g)?;
    positive(place, value)
}
