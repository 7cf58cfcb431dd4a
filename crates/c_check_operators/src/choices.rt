ghost use Rattle.std.specs.Prelude.{◌≡◌, ◌&&◌, IfOk};
ghost use Rattle.c_check_values.specs.Agreement.{AgreesWith};
ghost use Rattle.c_check_values.specs.TypedExpressionView.{typed_expression_of};
ghost use Rattle.c_check_operators.specs.Arms.{void_arms};
ghost use Rattle.c_check_operators.specs.Alike.{pointer_left, pointer_right};
ghost use Rattle.c_rules.specs.BinaryExpressions.{alike, arms_of, choice, chosen};
ghost use Rattle.c_rules.specs.Conversions.{converted_to};
ghost use Rattle.c_rules.specs.Types.{is_void};
ghost use Rattle.c_tree.specs.Tree.{integer};
ghost use Rattle.c_tree.specs.View.{ctype_of};

use crate::alike::{Alike, NullSide, Pointers, alike_of, made_pointers};
use crate::trees::{Operands, answered, operand_tree, operand_trees};
use c_check_values::{
    C3, CheckError, TypedExpression, constant_conditional, converted_to, is_scalar, is_void,
    typed_value,
};
use c_tree::{CType, IntType, TExprKind, copy_type};
use dm_base::OutOfMemory;
use std::alloc::Global;

// The two arms have this type.
fn chosen(
    alloc: Global,
    ctype: CType,
    c: TypedExpression,
    a: TypedExpression,
    b: TypedExpression,
) -> Result<TypedExpression, OutOfMemory>
    ensures { IfOk result (λ r. typed_expression_of r ≡ chosen (ctype_of ctype) (typed_expression_of c) (typed_expression_of a) (typed_expression_of b)) }
{
    let constant = constant_conditional(
        c.integer_constant(),
        a.integer_constant(),
        b.integer_constant(),
    );
    let test = operand_tree(alloc, c)?;
    let Operands { left, right } = operand_trees(alloc, a, b)?;
    typed_value(alloc, ctype, TExprKind::Cond(test, left, right), constant)
}

// Two integers as arms, which are converted to one type.
fn integer_arms(
    alloc: Global,
    i: IntType,
    c: TypedExpression,
    a: TypedExpression,
    b: TypedExpression,
) -> Result<TypedExpression, OutOfMemory>
    ensures { IfOk result (λ r. typed_expression_of r ≡ chosen (integer i) (typed_expression_of c) (converted_to i (typed_expression_of a)) (converted_to i (typed_expression_of b))) }
{
    let left = converted_to(alloc, i, a)?;
    let right = converted_to(alloc, i, b)?;
    chosen(alloc, CType::Int(i), c, left, right)
}

// Two pointers of one type as arms.
fn pointer_arms(
    alloc: Global,
    side: NullSide,
    c: TypedExpression,
    a: TypedExpression,
    b: TypedExpression,
) -> Result<TypedExpression, OutOfMemory>
    ensures { IfOk result (λ r. typed_expression_of r ≡ chosen (pointer_left side (typed_expression_of a) (typed_expression_of b)).ctype (typed_expression_of c) (pointer_left side (typed_expression_of a) (typed_expression_of b)) (pointer_right side (typed_expression_of a) (typed_expression_of b))) }
{
    let Pointers { left, right } = made_pointers(alloc, side, a, b)?;
    let ctype = copy_type(alloc, &left.ctype)?;
    chosen(alloc, ctype, c, left, right)
}

// Whether both are void.
fn both_void(a: &TypedExpression, b: &TypedExpression) -> bool
    ensures { result ≡ (is_void (typed_expression_of a.now).ctype && is_void (typed_expression_of b.now).ctype) }
{
    is_void(&a.ctype) && is_void(&b.ctype)
}

// Two arms that are not alike, which are to be void.
fn void_arms(
    alloc: Global,
    at: u32,
    c: TypedExpression,
    a: TypedExpression,
    b: TypedExpression,
) -> Result<TypedExpression, CheckError>
    ensures { AgreesWith typed_expression_of result (void_arms at (typed_expression_of c) (typed_expression_of a) (typed_expression_of b)) }
{
    if !both_void(&a, &b) {
        return Err(CheckError::At(C3, at));
    }
    answered(chosen(alloc, CType::Void, c, a, b))
}

// Arms that are alike, or two voids.
fn arms(
    alloc: Global,
    at: u32,
    c: TypedExpression,
    a: TypedExpression,
    b: TypedExpression,
) -> Result<TypedExpression, CheckError>
    ensures { AgreesWith typed_expression_of result (arms_of at (typed_expression_of c) (typed_expression_of a) (typed_expression_of b) (alike (typed_expression_of a) (typed_expression_of b))) }
{
    match alike_of(&a, &b) {
        Alike::Integers(i) => answered(integer_arms(alloc, i, c, a, b)),
        Alike::Pointers(side) => answered(pointer_arms(alloc, side, c, a, b)),
        Alike::Unlike => void_arms(alloc, at, c, a, b),
    }
}

/// `?` and `:` (C99 6.5.15): a scalar, and two integers, two pointers of one type, of which one may be a null pointer constant,
/// or two voids; else C3 at `at`.
pub fn choice(
    alloc: Global,
    at: u32,
    c: TypedExpression,
    a: TypedExpression,
    b: TypedExpression,
) -> Result<TypedExpression, CheckError>
    ensures { AgreesWith typed_expression_of result (choice at (typed_expression_of c) (typed_expression_of a) (typed_expression_of b)) }
{
    if !is_scalar(&c.ctype) {
        return Err(CheckError::At(C3, at));
    }
    arms(alloc, at, c, a, b)
}
