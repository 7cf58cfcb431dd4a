ghost use Rattle.std.specs.Prelude.{map};
ghost use Rattle.c_check_expressions.specs.Parts.{first_rule, one_rule, two_rule};
ghost use Rattle.c_check_types.specs.Agreement.{AgreesWith};
ghost use Rattle.c_check_types.specs.TypedExpressionView.{typed_expression_of};
ghost use Rattle.c_rules.specs.Assignments.{assignable, comma_of, step};
ghost use Rattle.c_rules.specs.BinaryExpressions.{sum};
ghost use Rattle.c_rules.specs.Checked.{fine, on};
ghost use Rattle.c_rules.specs.Expressions.{access, unary_rule};
ghost use Rattle.c_rules.specs.UnaryExpressions.{indirection};
ghost use Rattle.c_check_counts.specs.View.{env_of};
ghost use Rattle.c_syntax.specs.Tree.{arrow};
ghost use Rattle.c_syntax.specs.View.{expr_of};

use c_check_assignments::{
    address, assignable, assignment_by, comma_of, indirection, step, unary_of_value,
};
use c_check_counts::Environment;
use c_check_operators::{conjunction, disjunction, operation, operator_of_code, sum};
use c_check_primary::member_of;
use c_check_types::{CheckError, TypedExpression, valued};
use c_lexer::punctuator::AMPERSAND;
use c_syntax::{Expr, ExprKind};
use c_tree::BinOp;
use std::alloc::Global;

// The comma of these values (C99 6.5.17).
pub fn comma_given(alloc: Global, gs: Vec<TypedExpression>) -> Result<TypedExpression, CheckError>
    ensures { AgreesWith typed_expression_of result (fine (comma_of (map typed_expression_of gs.items))) }
{
    let given = comma_of(alloc, gs)?;
    Ok(given)
}

// `a[b]`, which is `*(a + b)` (C99 6.5.2.1).
fn index_given(
    alloc: Global,
    env: &Environment<'_>,
    at: u32,
    a: TypedExpression,
    b: TypedExpression,
) -> Result<TypedExpression, CheckError>
    ensures { AgreesWith typed_expression_of result (on (sum (env_of env.now) at (typed_expression_of a) (typed_expression_of b)) (indirection at)) }
{
    let pointer = sum(alloc, env, at, a, b)?;
    indirection(alloc, at, pointer)
}

// What the first operand of this form is, which stands at a place: the target of an assignment, or else a value (C99 6.3.2.1, 6.5.16).
pub fn first_given(
    alloc: Global,
    env: &Environment<'_>,
    e: &Expr,
    place: u32,
    g: TypedExpression,
) -> Result<TypedExpression, CheckError>
    ensures { AgreesWith typed_expression_of result (first_rule (env_of env.now) (expr_of e.now) place (typed_expression_of g)) }
{
    match &e.kind {
        ExprKind::Assign(_, _, _) => assignable(place, g),
        _ => valued(alloc, env, place, g),
    }
}

// What a form with two operands gives of them (C99 6.5.2.1, 6.5.5 to 6.5.16); an expression of another form gives the first one.
pub fn two_given(
    alloc: Global,
    env: &Environment<'_>,
    e: &Expr,
    a: TypedExpression,
    b: TypedExpression,
) -> Result<TypedExpression, CheckError>
    ensures { AgreesWith typed_expression_of result (two_rule (env_of env.now) (expr_of e.now) (typed_expression_of a) (typed_expression_of b)) }
{
    match &e.kind {
        ExprKind::Index(_, _) => index_given(alloc, env, e.at, a, b),
        ExprKind::And(_, _) => conjunction(alloc, e.at, a, b),
        ExprKind::Or(_, _) => disjunction(alloc, e.at, a, b),
        ExprKind::Binary(op, _, _) => operation(alloc, env, e.at, operator_of_code(*op), a, b),
        ExprKind::Assign(op, _, _) => assignment_by(alloc, env, e.at, *op, a, b),
        _ => Ok(a),
    }
}

// `->` and a member, whose operand stands at a place (C99 6.5.2.3).
fn member_behind(
    alloc: Global,
    env: &Environment<'_>,
    at: u32,
    place: u32,
    name: &[u8],
    g: TypedExpression,
) -> Result<TypedExpression, CheckError>
    ensures { AgreesWith typed_expression_of result (access (env_of env.now) at place arrow name.now (fine (typed_expression_of g))) }
{
    let pointer = valued(alloc, env, place, g)?;
    let object = indirection(alloc, at, pointer)?;
    member_of(alloc, env, at, name, object)
}

// `++` and `--`, whose operand stands at a place; they give the old value or the new one (C99 6.5.2.4, 6.5.3.1).
fn stepped(
    alloc: Global,
    env: &Environment<'_>,
    at: u32,
    place: u32,
    op: BinOp,
    old: bool,
    g: TypedExpression,
) -> Result<TypedExpression, CheckError>
    ensures { AgreesWith typed_expression_of result (on (assignable place (typed_expression_of g)) (step (env_of env.now) at op old)) }
{
    let target = assignable(place, g)?;
    step(alloc, env, at, op, old, target)
}

// One of the unary operators `&`, `*`, `+`, `-`, `~` and `!`, whose operand stands at a place (C99 6.5.3.2, 6.5.3.3).
fn unary_given(
    alloc: Global,
    env: &Environment<'_>,
    at: u32,
    place: u32,
    op: u8,
    g: TypedExpression,
) -> Result<TypedExpression, CheckError>
    ensures { AgreesWith typed_expression_of result (unary_rule (env_of env.now) at place op (fine (typed_expression_of g))) }
{
    if op == AMPERSAND {
        return address(alloc, at, place, g);
    }
    let operand = valued(alloc, env, place, g)?;
    unary_of_value(alloc, at, op, operand)
}

// What a form with one operand that is evaluated gives of it, which stands at a place (C99 6.5.2.3, 6.5.2.4, 6.5.3); an expression of
// another form gives it as it is.
pub fn one_given(
    alloc: Global,
    env: &Environment<'_>,
    e: &Expr,
    place: u32,
    g: TypedExpression,
) -> Result<TypedExpression, CheckError>
    ensures { AgreesWith typed_expression_of result (one_rule (env_of env.now) (expr_of e.now) place (typed_expression_of g)) }
{
    match &e.kind {
        ExprKind::Member(_, x) => member_of(alloc, env, e.at, x.name.as_slice(), g),
        ExprKind::Arrow(_, x) => member_behind(alloc, env, e.at, place, x.name.as_slice(), g),
        ExprKind::PostInc(_) => stepped(alloc, env, e.at, place, BinOp::Add, true, g),
        ExprKind::PostDec(_) => stepped(alloc, env, e.at, place, BinOp::Sub, true, g),
        ExprKind::PreInc(_) => stepped(alloc, env, e.at, place, BinOp::Add, false, g),
        ExprKind::PreDec(_) => stepped(alloc, env, e.at, place, BinOp::Sub, false, g),
        ExprKind::Unary(op, _) => unary_given(alloc, env, e.at, place, *op, g),
        _ => Ok(g),
    }
}
