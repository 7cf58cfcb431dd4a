ghost use Rattle.std.specs.Prelude.{◌≡◌, IfOk};
ghost use Rattle.c_check_values.specs.Agreement.{AgreesWith};
ghost use Rattle.c_check_values.specs.TypedExpressionView.{typed_expression_of};
ghost use Rattle.c_rules.specs.Checked.{fine};
ghost use Rattle.c_rules.specs.TypedExpression.{tree_of};
ghost use Rattle.c_tree.specs.View.{ctype_of, expr_of};

use c_check_values::{CheckError, TypedExpression};
use c_tree::{CType, TExpr, copy_type};
use dm_base::OutOfMemory;
use std::alloc::Global;

// The sides of an assignment: the type of the place, and the typed trees of the place and of the value.
pub struct Sides {
    pub ctype: CType,
    pub place: Box<TExpr>,
    pub value: Box<TExpr>,
}

// What an operator gives, which only wants memory.
pub fn answered(one: Result<TypedExpression, OutOfMemory>) -> Result<TypedExpression, CheckError>
    ensures { (g : Rattle.c_rules.specs.TypedExpression.TypedExpression) → IfOk one (λ r. typed_expression_of r ≡ g) → AgreesWith typed_expression_of result (fine g) }
{
    Ok(one?)
}

// The typed tree of an operand.
pub fn operand_tree(alloc: Global, g: TypedExpression) -> Result<Box<TExpr>, OutOfMemory>
    ensures { IfOk result (λ tree. expr_of tree.value ≡ tree_of (typed_expression_of g)) }
{
    let tree = g.into_tree(alloc)?;
    Ok(Box::new(alloc, tree)?)
}

// The sides of an assignment of a value to a place.
pub fn sides_of(alloc: Global, p: TypedExpression, v: TypedExpression) -> Result<Sides, OutOfMemory>
    ensures ctype { IfOk result (λ r. ctype_of r.ctype ≡ (typed_expression_of p).ctype) }
    ensures place { IfOk result (λ r. expr_of r.place.value ≡ tree_of (typed_expression_of p)) }
    ensures value { IfOk result (λ r. expr_of r.value.value ≡ tree_of (typed_expression_of v)) }
{
    let ctype = copy_type(alloc, &p.ctype)?;
    let place = operand_tree(alloc, p)?;
    let value = operand_tree(alloc, v)?;
    Ok(Sides {
        ctype,
        place,
        value,
    })
}
