ghost use Rattle.std.specs.Prelude.{◌≡◌, IfOk};
ghost use Rattle.c_check_values.specs.Agreement.{AgreesWith};
ghost use Rattle.c_check_values.specs.TypedExpressionView.{typed_expression_of};
ghost use Rattle.c_rules.specs.BinaryExpressions.{both_scalars, conjunction, disjunction};
ghost use Rattle.c_rules.specs.Constants.{constant_and, constant_or};
ghost use Rattle.c_rules.specs.TypedExpression.{integer_constant, tree_of, typed_value};
ghost use Rattle.c_tree.specs.Functions.{int};
ghost use Rattle.c_tree.specs.Tree.{and, or};

use crate::trees::{Operands, answered, operand_trees};
use c_check_values::{
    C3, CheckError, TypedExpression, constant_and, constant_or, is_scalar, typed_value,
};
use c_tree::{CType, IntType, TExprKind};
use dm_base::OutOfMemory;
use std::alloc::Global;

// Whether both are scalars.
fn both_scalars(a: &TypedExpression, b: &TypedExpression) -> bool
    ensures { result ≡ both_scalars (typed_expression_of a.now) (typed_expression_of b.now) }
{
    is_scalar(&a.ctype) && is_scalar(&b.ctype)
}

// Two scalars under `&&`.
fn joined(
    alloc: Global,
    a: TypedExpression,
    b: TypedExpression,
) -> Result<TypedExpression, OutOfMemory>
    ensures { IfOk result (λ r. typed_expression_of r ≡ typed_value int (and int (tree_of (typed_expression_of a)) (tree_of (typed_expression_of b))) (constant_and (integer_constant (typed_expression_of a)) (integer_constant (typed_expression_of b)))) }
{
    let constant = constant_and(a.integer_constant(), b.integer_constant());
    let Operands { left, right } = operand_trees(alloc, a, b)?;
    typed_value(
        alloc,
        CType::Int(IntType::Int),
        TExprKind::And(left, right),
        constant,
    )
}

/// `&&` of two scalars (C99 6.5.13); else C3 at `at`.
pub fn conjunction(
    alloc: Global,
    at: u32,
    a: TypedExpression,
    b: TypedExpression,
) -> Result<TypedExpression, CheckError>
    ensures { AgreesWith typed_expression_of result (conjunction at (typed_expression_of a) (typed_expression_of b)) }
{
    if !both_scalars(&a, &b) {
        return Err(CheckError::At(C3, at));
    }
    answered(joined(alloc, a, b))
}

// Two scalars under `||`.
fn parted(
    alloc: Global,
    a: TypedExpression,
    b: TypedExpression,
) -> Result<TypedExpression, OutOfMemory>
    ensures { IfOk result (λ r. typed_expression_of r ≡ typed_value int (or int (tree_of (typed_expression_of a)) (tree_of (typed_expression_of b))) (constant_or (integer_constant (typed_expression_of a)) (integer_constant (typed_expression_of b)))) }
{
    let constant = constant_or(a.integer_constant(), b.integer_constant());
    let Operands { left, right } = operand_trees(alloc, a, b)?;
    typed_value(
        alloc,
        CType::Int(IntType::Int),
        TExprKind::Or(left, right),
        constant,
    )
}

/// `||` of two scalars (C99 6.5.14); else C3 at `at`.
pub fn disjunction(
    alloc: Global,
    at: u32,
    a: TypedExpression,
    b: TypedExpression,
) -> Result<TypedExpression, CheckError>
    ensures { AgreesWith typed_expression_of result (disjunction at (typed_expression_of a) (typed_expression_of b)) }
{
    if !both_scalars(&a, &b) {
        return Err(CheckError::At(C3, at));
    }
    answered(parted(alloc, a, b))
}
