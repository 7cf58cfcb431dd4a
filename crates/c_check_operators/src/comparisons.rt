ghost use Rattle.std.specs.Prelude.{◌≡◌, IfOk};
ghost use Rattle.c_check_values.specs.TypedExpressionView.{constant_of, typed_expression_of};
ghost use Rattle.c_check_operators.specs.Alike.{pointer_left, pointer_right};
ghost use Rattle.c_rules.specs.BinaryExpressions.{compared_pointers};
ghost use Rattle.c_rules.specs.TypedExpression.{tree_of, typed_value};
ghost use Rattle.c_tree.specs.Functions.{int};
ghost use Rattle.c_tree.specs.Tree.{comparison};

use crate::alike::{NullSide, Pointers, made_pointers};
use crate::trees::{Operands, operand_trees};
use c_check_values::{Constant, TypedExpression, typed_value};
use c_tree::{BinOp, CType, IntType, TExprKind};
use dm_base::OutOfMemory;
use std::alloc::Global;

// A comparison with this constant, which gives an int.
pub fn comparison(
    alloc: Global,
    op: BinOp,
    a: TypedExpression,
    b: TypedExpression,
    constant: Constant,
) -> Result<TypedExpression, OutOfMemory>
    ensures { IfOk result (λ r. typed_expression_of r ≡ typed_value int (comparison int op (tree_of (typed_expression_of a)) (tree_of (typed_expression_of b))) (constant_of constant)) }
{
    let Operands { left, right } = operand_trees(alloc, a, b)?;
    typed_value(
        alloc,
        CType::Int(IntType::Int),
        TExprKind::Compare(op, left, right),
        constant,
    )
}

// Two pointers that are compared, which is never constant (C99 6.5.8, 6.5.9).
pub fn compared_pointers(
    alloc: Global,
    op: BinOp,
    side: NullSide,
    a: TypedExpression,
    b: TypedExpression,
) -> Result<TypedExpression, OutOfMemory>
    ensures { IfOk result (λ r. typed_expression_of r ≡ compared_pointers op (pointer_left side (typed_expression_of a) (typed_expression_of b)) (pointer_right side (typed_expression_of a) (typed_expression_of b))) }
{
    let Pointers { left, right } = made_pointers(alloc, side, a, b)?;
    comparison(alloc, op, left, right, Constant::Not)
}
