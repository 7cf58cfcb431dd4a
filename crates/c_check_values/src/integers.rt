ghost use Rattle.std.specs.Prelude.{◌≡◌, IfOk};
ghost use Rattle.c_check_values.specs.TypedExpressionView.{typed_expression_of};
ghost use Rattle.c_check_scopes.specs.Conversions.{has_integer, cast_to, converted_to};
ghost use Rattle.c_tree.specs.Operands.{promoted, common};
ghost use Rattle.c_tree.specs.View.{ctype_of};

use crate::operators::constant_converted;
use crate::typed_expression::{TypedExpression, typed_value};
use crate::types::same_type;
use c_tree::{CType, IntType, TExprKind};
use dm_base::OutOfMemory;
use std::alloc::Global;

/// The integer promotions (C99 6.3.1.1 paragraph 2).
pub fn promoted(i: IntType) -> IntType
    ensures { result ≡ promoted i }
{
    match i {
        IntType::Uint => IntType::Uint,
        _ => IntType::Int,
    }
}

/// The usual arithmetic conversions (C99 6.3.1.8).
pub fn common(i: IntType, j: IntType) -> IntType
    ensures { result ≡ common i j }
{
    match i {
        IntType::Uint => IntType::Uint,
        _ => promoted(j),
    }
}

// Whether it is this integer type.
fn has_integer(i: IntType, t: &CType) -> bool
    ensures { result ≡ has_integer i (ctype_of t.now) }
{
    same_type(&CType::Int(i), t)
}

/// An integer converted to an integer type, also where it has that type (C99 6.3.1.3).
pub fn cast_to(
    alloc: Global,
    i: IntType,
    g: TypedExpression,
) -> Result<TypedExpression, OutOfMemory>
    ensures { IfOk result (λ r. typed_expression_of r ≡ cast_to i (typed_expression_of g)) }
{
    let constant = constant_converted(i, g.constant);
    let tree = g.into_tree(alloc)?;
    typed_value(
        alloc,
        CType::Int(i),
        TExprKind::Convert(i, Box::new(alloc, tree)?),
        constant,
    )
}

/// An integer converted to an integer type, where it has another one (C99 6.3.1.3).
pub fn converted_to(
    alloc: Global,
    i: IntType,
    g: TypedExpression,
) -> Result<TypedExpression, OutOfMemory>
    ensures { IfOk result (λ r. typed_expression_of r ≡ converted_to i (typed_expression_of g)) }
{
    if has_integer(i, &g.ctype) {
        return Ok(g);
    }
    cast_to(alloc, i, g)
}
