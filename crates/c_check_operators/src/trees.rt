ghost use Rattle.std.specs.Prelude.{◌≡◌, IfOk};
ghost use Rattle.c_check_values.specs.Agreement.{AgreesWith};
ghost use Rattle.c_check_values.specs.TypedExpressionView.{typed_expression_of};
ghost use Rattle.c_rules.specs.Checked.{fine};
ghost use Rattle.c_rules.specs.TypedExpression.{tree_of};
ghost use Rattle.c_tree.specs.View.{expr_of};

use c_check_values::{CheckError, TypedExpression};
use c_tree::TExpr;
use dm_base::OutOfMemory;
use std::alloc::Global;

/// The typed trees of two operands, in order.
pub struct Operands {
    pub left: Box<TExpr>,
    pub right: Box<TExpr>,
}

/// The typed tree of an operand.
pub fn operand_tree(alloc: Global, g: TypedExpression) -> Result<Box<TExpr>, OutOfMemory>
    ensures { IfOk result (λ tree. expr_of tree.value ≡ tree_of (typed_expression_of g)) }
{
    let tree = g.into_tree(alloc)?;
    Ok(Box::new(alloc, tree)?)
}

/// The typed trees of two operands.
pub fn operand_trees(
    alloc: Global,
    a: TypedExpression,
    b: TypedExpression,
) -> Result<Operands, OutOfMemory>
    ensures left { IfOk result (λ r. expr_of r.left.value ≡ tree_of (typed_expression_of a)) }
    ensures right { IfOk result (λ r. expr_of r.right.value ≡ tree_of (typed_expression_of b)) }
{
    let left = operand_tree(alloc, a)?;
    let right = operand_tree(alloc, b)?;
    Ok(Operands { left, right })
}

// What an operator gives, which only wants memory.
pub fn answered(one: Result<TypedExpression, OutOfMemory>) -> Result<TypedExpression, CheckError>
    ensures { (g : Rattle.c_rules.specs.TypedExpression.TypedExpression) → IfOk one (λ r. typed_expression_of r ≡ g) → AgreesWith typed_expression_of result (fine g) }
{
    Ok(one?)
}
