ghost use Rattle.std.specs.Prelude.{◌≡◌, IfOk};
ghost use Rattle.c_check_assignments.specs.Found.{update_as};
ghost use Rattle.c_check_values.specs.Agreement.{AgreesWith};
ghost use Rattle.c_check_values.specs.TypedExpressionView.{typed_expression_of};
ghost use Rattle.c_rules.specs.Assignments.{moves, right_type, update_of, updated};
ghost use Rattle.c_rules.specs.Conversions.{kind_of};
ghost use Rattle.c_rules.specs.TypedExpression.{tree_of};
ghost use Rattle.c_check_values.specs.View.{env_of};
ghost use Rattle.c_tree.specs.Operands.{kind_of as kind_of_operator};

use crate::sides::{Sides, answered, sides_of};
use c_check_values::{
    C3, CheckError, Constant, Environment, TypedExpression, common, complete, converted_to,
    promoted, typed_value,
};
use c_tree::{BinOp, CType, IntType, TExprKind};
use dm_base::OutOfMemory;
use std::alloc::Global;

// The type in which the right side of an assignment to an integer stands.
fn right_type(op: BinOp, i: IntType, j: IntType) -> IntType
    ensures { result ≡ right_type (kind_of_operator op) i j }
{
    match op {
        BinOp::ShiftLeft | BinOp::ShiftRight => promoted(j),
        _ => common(i, j),
    }
}

// `+` and `-`, which move pointers.
fn moves(op: BinOp) -> bool
    ensures { result ≡ moves op }
{
    match op {
        BinOp::Add | BinOp::Sub => true,
        _ => false,
    }
}

// What the right side of an update is.
#[derive(Clone, Copy)]
pub enum RightSide {
    // An integer that is converted to this type.
    Converted(IntType),
    // An integer by which a pointer is moved.
    Distance,
}

// What the right side of an update is by the types of both sides: an integer takes an integer; a pointer to an object is moved by an
// integer (C99 6.5.16.2 paragraphs 1 and 2).
fn right_side(
    env: &Environment<'_>,
    at: u32,
    op: BinOp,
    old: bool,
    p: &TypedExpression,
    v: &TypedExpression,
) -> Result<RightSide, CheckError>
    ensures { AgreesWith (λ found. update_as found op old (typed_expression_of p.now) (typed_expression_of v.now)) result (update_of (env_of env.now) at op old (typed_expression_of p.now) (typed_expression_of v.now) (kind_of (typed_expression_of p.now).ctype) (kind_of (typed_expression_of v.now).ctype)) }
{
    match &p.ctype {
        CType::Int(i) => match &v.ctype {
            CType::Int(j) => Ok(RightSide::Converted(right_type(op, *i, *j))),
            _ => Err(CheckError::At(C3, at)),
        },
        CType::Pointer(t) => match &v.ctype {
            CType::Int(_) => {
                if !moves(op) {
                    return Err(CheckError::At(C3, at));
                }
                complete(env, at, t)?;
                Ok(RightSide::Distance)
            }
            _ => Err(CheckError::At(C3, at)),
        },
        _ => Err(CheckError::At(C3, at)),
    }
}

// A place is updated by a value.
fn updated(
    alloc: Global,
    op: BinOp,
    old: bool,
    p: TypedExpression,
    v: TypedExpression,
) -> Result<TypedExpression, OutOfMemory>
    ensures { IfOk result (λ r. typed_expression_of r ≡ updated op old (typed_expression_of p) (tree_of (typed_expression_of v))) }
{
    let Sides {
        ctype,
        place,
        value,
    } = sides_of(alloc, p, v)?;
    typed_value(
        alloc,
        ctype,
        TExprKind::Update {
            op,
            old,
            place,
            value,
        },
        Constant::Not,
    )
}

// A place is updated by a right side of which this was found.
fn updated_by(
    alloc: Global,
    found: RightSide,
    op: BinOp,
    old: bool,
    p: TypedExpression,
    v: TypedExpression,
) -> Result<TypedExpression, OutOfMemory>
    ensures { IfOk result (λ r. typed_expression_of r ≡ update_as found op old (typed_expression_of p) (typed_expression_of v)) }
{
    match found {
        RightSide::Converted(i) => {
            let value = converted_to(alloc, i, v)?;
            updated(alloc, op, old, p, value)
        }
        RightSide::Distance => updated(alloc, op, old, p, v),
    }
}

// A compound assignment, or a step; `old` says whether its value is the old one (C99 6.5.16.2, 6.5.2.4 paragraph 2).
pub fn update(
    alloc: Global,
    env: &Environment<'_>,
    at: u32,
    op: BinOp,
    old: bool,
    p: TypedExpression,
    v: TypedExpression,
) -> Result<TypedExpression, CheckError>
    ensures { AgreesWith typed_expression_of result (update_of (env_of env.now) at op old (typed_expression_of p) (typed_expression_of v) (kind_of (typed_expression_of p).ctype) (kind_of (typed_expression_of v).ctype)) }
{
    let found = right_side(env, at, op, old, &p, &v)?;
    answered(updated_by(alloc, found, op, old, p, v))
}
