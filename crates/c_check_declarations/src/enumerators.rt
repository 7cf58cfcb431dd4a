ghost use Rattle.std.specs.Prelude.{◌≡◌, pos, ◌+ℤ◌};
ghost use Rattle.c_check_values.specs.Agreement.{AgreesWith};
ghost use Rattle.c_check_values.specs.TypedExpressionView.{typed_expression_of};
ghost use Rattle.c_rules.specs.Checked.{on};
ghost use Rattle.c_rules.specs.Constants.{number_of};
ghost use Rattle.c_rules.specs.Declarators.{constant_value};
ghost use Rattle.c_rules.specs.Items.{int_value};

use c_check_values::{C6, CheckError, Constant, TypedExpression, number_of};

/// A value of an enumerator, which is that of an int (C99 6.7.2.2 paragraph 2).
pub fn enumerator_value(place: u32, z: i64) -> Result<i32, CheckError>
    ensures { AgreesWith (λ v. v) result (int_value place z) }
{
    match i32::try_from(z) {
        Ok(value) => Ok(value),
        Err(_) => Err(CheckError::At(C6, place)),
    }
}

/// The value of an enumerator whose expression gives this (C99 6.7.2.2 paragraph 2).
pub fn enumerator_constant(place: u32, g: &TypedExpression) -> Result<i32, CheckError>
    ensures { AgreesWith (λ v. v) result (on (constant_value place (typed_expression_of g.now)) (λ v. int_value place (number_of v))) }
{
    match g.integer_constant() {
        Constant::Not => Err(CheckError::At(C6, place)),
        Constant::Undefined => Err(CheckError::At(C6, place)),
        Constant::Known(value) => enumerator_value(place, number_of(value)),
    }
}

/// The value behind this one, which the next enumerator has where no expression gives its own (C99 6.7.2.2 paragraph 3).
pub fn next_value(value: i32) -> i64
    ensures { result ≡ value +ℤ pos 1 }
{
    i64::from(value) + 1
}
