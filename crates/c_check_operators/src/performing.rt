ghost use Rattle.std.specs.Prelude.{◌≡◌, IfOk};
ghost use Rattle.c_check_values.specs.Agreement.{AgreesWith};
ghost use Rattle.c_check_values.specs.TypedExpressionView.{typed_expression_of};
ghost use Rattle.c_check_operators.specs.Found.{operation_as};
ghost use Rattle.c_rules.specs.BinaryExpressions.{operation, sum};
ghost use Rattle.c_check_values.specs.View.{env_of};

use crate::comparisons::compared_pointers;
use crate::finding::{Operation, addition, operation_of};
use crate::integers::{calculated, compared_integers};
use crate::pointers::{difference, moved_back, moved_on};
use crate::trees::answered;
use c_check_values::{CheckError, Environment, TypedExpression};
use c_tree::BinOp;
use dm_base::OutOfMemory;
use std::alloc::Global;

// What an operation gives of two operands.
fn performed(
    alloc: Global,
    found: Operation,
    a: TypedExpression,
    b: TypedExpression,
) -> Result<TypedExpression, OutOfMemory>
    ensures { IfOk result (λ r. typed_expression_of r ≡ operation_as found (typed_expression_of a) (typed_expression_of b)) }
{
    match found {
        Operation::Arithmetic(op, i) => calculated(alloc, op, i, i, a, b),
        Operation::Shift(op, i, j) => calculated(alloc, op, i, j, a, b),
        Operation::OfIntegers(op, i) => compared_integers(alloc, op, i, a, b),
        Operation::OfPointers(op, side) => compared_pointers(alloc, op, side, a, b),
        Operation::PointerPlus => moved_on(alloc, true, a, b),
        Operation::PlusPointer => moved_on(alloc, false, b, a),
        Operation::PointerMinus => moved_back(alloc, a, b),
        Operation::Difference => difference(alloc, a, b),
    }
}

/// A binary operator of C99 6.5.5 to 6.5.12 between two values. Where their types do not fit it (C3 at `at`) it is an error.
pub fn operation(
    alloc: Global,
    env: &Environment<'_>,
    at: u32,
    op: BinOp,
    a: TypedExpression,
    b: TypedExpression,
) -> Result<TypedExpression, CheckError>
    ensures { AgreesWith typed_expression_of result (operation (env_of env.now) at op (typed_expression_of a) (typed_expression_of b)) }
{
    let found = operation_of(env, at, op, &a, &b)?;
    answered(performed(alloc, found, a, b))
}

/// `+` (C99 6.5.6 paragraph 2): two integers, or a pointer to an object and an integer; else C3 at `at`.
pub fn sum(
    alloc: Global,
    env: &Environment<'_>,
    at: u32,
    a: TypedExpression,
    b: TypedExpression,
) -> Result<TypedExpression, CheckError>
    ensures { AgreesWith typed_expression_of result (sum (env_of env.now) at (typed_expression_of a) (typed_expression_of b)) }
{
    let found = addition(env, at, &a, &b)?;
    answered(performed(alloc, found, a, b))
}
