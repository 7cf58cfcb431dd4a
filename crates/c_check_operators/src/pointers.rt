ghost use Rattle.std.specs.Prelude.{◌≡◌, IfOk};
ghost use Rattle.c_check_values.specs.TypedExpressionView.{constant_of, typed_expression_of};
ghost use Rattle.c_check_operators.specs.Found.{moved_on, moved_back};
ghost use Rattle.c_rules.specs.BinaryExpressions.{difference};
ghost use Rattle.c_rules.specs.TypedExpression.{tree_of, typed_value};
ghost use Rattle.c_tree.specs.Tree.{pointer_add};
ghost use Rattle.c_tree.specs.View.{ctype_of};

use crate::trees::{Operands, operand_trees};
use c_check_values::{
    Constant, TypedExpression, constant_moved_back, constant_moved_on, typed_value,
};
use c_tree::{CType, IntType, TExprKind, copy_type};
use dm_base::OutOfMemory;
use std::alloc::Global;

// A pointer of this type and an integer, in the order of the text, with this constant.
fn pointer_sum(
    alloc: Global,
    ctype: CType,
    pointer_first: bool,
    subtracted: bool,
    a: TypedExpression,
    b: TypedExpression,
    constant: Constant,
) -> Result<TypedExpression, OutOfMemory>
    ensures { IfOk result (λ r. typed_expression_of r ≡ typed_value (ctype_of ctype) (pointer_add (ctype_of ctype) pointer_first subtracted (tree_of (typed_expression_of a)) (tree_of (typed_expression_of b))) (constant_of constant)) }
{
    let Operands { left, right } = operand_trees(alloc, a, b)?;
    typed_value(
        alloc,
        ctype,
        TExprKind::PointerAdd {
            pointer_first,
            subtracted,
            left,
            right,
        },
        constant,
    )
}

// A pointer plus an integer, or an integer plus a pointer: whether the pointer is the first in the text.
pub fn moved_on(
    alloc: Global,
    pointer_first: bool,
    p: TypedExpression,
    k: TypedExpression,
) -> Result<TypedExpression, OutOfMemory>
    ensures { IfOk result (λ r. typed_expression_of r ≡ moved_on pointer_first (typed_expression_of p) (typed_expression_of k)) }
{
    let constant = constant_moved_on(p.constant, k.constant);
    let ctype = copy_type(alloc, &p.ctype)?;
    if pointer_first {
        return pointer_sum(alloc, ctype, true, false, p, k, constant);
    }
    pointer_sum(alloc, ctype, false, false, k, p, constant)
}

// A pointer minus an integer.
pub fn moved_back(
    alloc: Global,
    p: TypedExpression,
    k: TypedExpression,
) -> Result<TypedExpression, OutOfMemory>
    ensures { IfOk result (λ r. typed_expression_of r ≡ moved_back (typed_expression_of p) (typed_expression_of k)) }
{
    let constant = constant_moved_back(p.constant, k.constant);
    let ctype = copy_type(alloc, &p.ctype)?;
    pointer_sum(alloc, ctype, true, true, p, k, constant)
}

// The difference of two pointers (C99 6.5.6 paragraph 9).
pub fn difference(
    alloc: Global,
    a: TypedExpression,
    b: TypedExpression,
) -> Result<TypedExpression, OutOfMemory>
    ensures { IfOk result (λ r. typed_expression_of r ≡ difference (typed_expression_of a) (typed_expression_of b)) }
{
    let Operands { left, right } = operand_trees(alloc, a, b)?;
    typed_value(
        alloc,
        CType::Int(IntType::Int),
        TExprKind::PointerDiff(left, right),
        Constant::Not,
    )
}
