ghost use Rattle.std.specs.Prelude.{◌≡◌, IfOk};
ghost use Rattle.c_check_values.specs.Agreement.{AgreesWith};
ghost use Rattle.c_check_values.specs.TypedExpressionView.{typed_expression_of};
ghost use Rattle.c_rules.specs.Assignments.{assignable, assignment, operator_of_assignment, assignment_by};
ghost use Rattle.c_rules.specs.Conversions.{assigned};
ghost use Rattle.c_rules.specs.TypedExpression.{not_constant, tree_of, typed_value};
ghost use Rattle.c_check_values.specs.View.{env_of};
ghost use Rattle.c_tree.specs.Tree.{assign};

use crate::sides::{Sides, answered, sides_of};
use crate::updates::update;
use c_check_values::{
    C3, C4, CheckError, Constant, Environment, TypedExpression, assigned, fits, typed_value,
};
use c_lexer::punctuator;
use c_tree::{BinOp, TExprKind};
use dm_base::OutOfMemory;
use std::alloc::Global;

/// The operand of an assignment or a step, which designates an object (C99 6.5.16 paragraph 2); else C4 at `at`.
pub fn assignable(at: u32, g: TypedExpression) -> Result<TypedExpression, CheckError>
    ensures { AgreesWith typed_expression_of result (assignable at (typed_expression_of g)) }
{
    if !g.is_place() {
        return Err(CheckError::At(C4, at));
    }
    Ok(g)
}

// A value is stored to an object, in whose type it is.
fn stored(
    alloc: Global,
    p: TypedExpression,
    v: TypedExpression,
) -> Result<TypedExpression, OutOfMemory>
    ensures { IfOk result (λ r. typed_expression_of r ≡ typed_value (typed_expression_of p).ctype (assign (typed_expression_of p).ctype (tree_of (typed_expression_of p)) (tree_of (typed_expression_of v))) not_constant) }
{
    let Sides {
        ctype,
        place,
        value,
    } = sides_of(alloc, p, v)?;
    typed_value(alloc, ctype, TExprKind::Assign(place, value), Constant::Not)
}

// A value that fits is converted to the type of an object and stored to it.
fn converted_and_stored(
    alloc: Global,
    p: TypedExpression,
    v: TypedExpression,
) -> Result<TypedExpression, OutOfMemory>
    ensures { IfOk result (λ r. typed_expression_of r ≡ typed_value (typed_expression_of p).ctype (assign (typed_expression_of p).ctype (tree_of (typed_expression_of p)) (tree_of (assigned (typed_expression_of p).ctype (typed_expression_of v)))) not_constant) }
{
    let value = assigned(alloc, &p.ctype, v)?;
    stored(alloc, p, value)
}

// Simple assignment (C99 6.5.16.1).
fn assignment(
    alloc: Global,
    at: u32,
    p: TypedExpression,
    v: TypedExpression,
) -> Result<TypedExpression, CheckError>
    ensures { AgreesWith typed_expression_of result (assignment at (typed_expression_of p) (typed_expression_of v)) }
{
    if !fits(&p.ctype, &v) {
        return Err(CheckError::At(C3, at));
    }
    answered(converted_and_stored(alloc, p, v))
}

// The operator that an assignment operator has, by its number.
fn operator_of_assignment(code: u8) -> BinOp
    ensures { result ≡ operator_of_assignment code }
{
    if code == punctuator::ASSIGN_MULTIPLY {
        BinOp::Mul
    } else if code == punctuator::ASSIGN_DIVIDE {
        BinOp::Div
    } else if code == punctuator::ASSIGN_REMAINDER {
        BinOp::Rem
    } else if code == punctuator::ASSIGN_ADD {
        BinOp::Add
    } else if code == punctuator::ASSIGN_SUBTRACT {
        BinOp::Sub
    } else if code == punctuator::ASSIGN_LEFT_SHIFT {
        BinOp::ShiftLeft
    } else if code == punctuator::ASSIGN_RIGHT_SHIFT {
        BinOp::ShiftRight
    } else if code == punctuator::ASSIGN_AND {
        BinOp::BitAnd
    } else if code == punctuator::ASSIGN_XOR {
        BinOp::BitXor
    } else {
        BinOp::BitOr
    }
}

/// An assignment with the operator of this number (C99 6.5.16). What does not fit the type of the place (6.5.16.1), and operands that
/// do not fit the operator (6.5.16.2), are C3 at `at`.
pub fn assignment_by(
    alloc: Global,
    env: &Environment<'_>,
    at: u32,
    op: u8,
    p: TypedExpression,
    v: TypedExpression,
) -> Result<TypedExpression, CheckError>
    ensures { AgreesWith typed_expression_of result (assignment_by (env_of env.now) at op (typed_expression_of p) (typed_expression_of v)) }
{
    if op == punctuator::ASSIGN {
        return assignment(alloc, at, p, v);
    }
    update(alloc, env, at, operator_of_assignment(op), false, p, v)
}
