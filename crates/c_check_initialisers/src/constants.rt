ghost use Rattle.std.specs.Prelude.{◌≡◌, IfOk};
ghost use Rattle.c_check_values.specs.TypedExpressionView.{typed_expression_of};
ghost use Rattle.c_rules.specs.Constants.{number_of};
ghost use Rattle.c_rules.specs.Initialisers.{constant_given, typed_zero, typed_char};
ghost use Rattle.c_tree.specs.Operators.{value_of};
ghost use Rattle.c_tree.specs.Tree.{integer};
ghost use Rattle.c_tree.specs.View.{ctype_of};

use c_check_values::{Constant, TypedExpression, convert, null_of, typed_value};
use c_tree::{CType, IntType, TExprKind, Value};
use dm_base::OutOfMemory;
use std::alloc::Global;

/// The number of a value as a value of this integer type (C99 6.3.1.3); 0 where it has none.
pub fn value_of_number(i: IntType, value: Value) -> Value
    ensures { result ≡ value_of i (number_of value) }
{
    match value {
        Value::Int(_) | Value::Uint(_) | Value::Char(_) | Value::Uchar(_) => convert(value, i),
        _ => convert(Value::Int(0), i),
    }
}

// The constant of an integer type.
fn constant_given(alloc: Global, i: IntType, value: Value) -> Result<TypedExpression, OutOfMemory>
    ensures { IfOk result (λ g. typed_expression_of g ≡ constant_given (integer i) value) }
{
    typed_value(
        alloc,
        CType::Int(i),
        TExprKind::Const(value),
        Constant::Known(value),
    )
}

// Zero of an integer type, or the null pointer (C99 6.7.8 paragraph 10).
pub fn typed_zero(alloc: Global, t: &CType) -> Result<TypedExpression, OutOfMemory>
    ensures { IfOk result (λ g. typed_expression_of g ≡ typed_zero (ctype_of t.now)) }
{
    match t {
        CType::Int(i) => constant_given(alloc, *i, value_of_number(*i, Value::Int(0))),
        _ => null_of(alloc, t),
    }
}

// A byte of a string as a char.
pub fn typed_char(alloc: Global, byte: u8) -> Result<TypedExpression, OutOfMemory>
    ensures { IfOk result (λ g. typed_expression_of g ≡ typed_char byte) }
{
    constant_given(
        alloc,
        IntType::Char,
        value_of_number(IntType::Char, Value::Uchar(byte)),
    )
}
