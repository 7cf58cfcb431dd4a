ghost use Rattle.std.specs.Prelude.{◌≡◌, IfOk};
ghost use Rattle.c_check_values.specs.TypedExpressionView.{typed_expression_of};
ghost use Rattle.c_rules.specs.BinaryExpressions.{shifted, compared_integers};
ghost use Rattle.c_rules.specs.Constants.{constant_binary};
ghost use Rattle.c_rules.specs.TypedExpression.{tree_of, typed_value};
ghost use Rattle.c_tree.specs.Tree.{arithmetic, integer};

use crate::comparisons::comparison;
use crate::trees::{Operands, operand_trees};
use c_check_values::{TypedExpression, constant_binary, converted_to, typed_value};
use c_tree::{BinOp, CType, IntType, TExprKind};
use dm_base::OutOfMemory;
use std::alloc::Global;

// Two operands that stand in their types, of which the result has this one.
fn arithmetic(
    alloc: Global,
    op: BinOp,
    i: IntType,
    a: TypedExpression,
    b: TypedExpression,
) -> Result<TypedExpression, OutOfMemory>
    ensures { IfOk result (λ r. typed_expression_of r ≡ typed_value (integer i) (arithmetic (integer i) op (tree_of (typed_expression_of a)) (tree_of (typed_expression_of b))) (constant_binary op (typed_expression_of a).constant (typed_expression_of b).constant)) }
{
    let constant = constant_binary(op, a.constant, b.constant);
    let Operands { left, right } = operand_trees(alloc, a, b)?;
    typed_value(
        alloc,
        CType::Int(i),
        TExprKind::Arith(op, left, right),
        constant,
    )
}

// Two operands that are each converted to a type; the result has that of the left one. They are one type (C99 6.5.5, 6.5.6, 6.5.10 to
// 6.5.12), but for a shift (6.5.7 paragraph 3).
pub fn calculated(
    alloc: Global,
    op: BinOp,
    i: IntType,
    j: IntType,
    a: TypedExpression,
    b: TypedExpression,
) -> Result<TypedExpression, OutOfMemory>
    ensures { IfOk result (λ r. typed_expression_of r ≡ shifted op i j (typed_expression_of a) (typed_expression_of b)) }
{
    let left = converted_to(alloc, i, a)?;
    let right = converted_to(alloc, j, b)?;
    arithmetic(alloc, op, i, left, right)
}

// Two integers that are converted to one type and compared (C99 6.5.8, 6.5.9).
pub fn compared_integers(
    alloc: Global,
    op: BinOp,
    i: IntType,
    a: TypedExpression,
    b: TypedExpression,
) -> Result<TypedExpression, OutOfMemory>
    ensures { IfOk result (λ r. typed_expression_of r ≡ compared_integers op i (typed_expression_of a) (typed_expression_of b)) }
{
    let left = converted_to(alloc, i, a)?;
    let right = converted_to(alloc, i, b)?;
    let constant = constant_binary(op, left.constant, right.constant);
    comparison(alloc, op, left, right, constant)
}
