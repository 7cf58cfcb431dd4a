// Expressions with other operands.

ghost use Rattle.std.specs.Prelude.{◌≡◌, IfOk};
ghost use Rattle.c_syntax.specs.View.{expr_of};
ghost use Rattle.null_calls_expressions.specs.Operands as term;

use c_syntax::{Expr, ExprKind};
use dm_base::OutOfMemory;
use null_calls_temporaries::{
    and_node, arrow_node, assign_node, binary_node, copy_ident, index_node, member_node, or_node,
    post_dec_node, post_inc_node, pre_dec_node, pre_inc_node,
};
use std::alloc::Global;

// The member of, or the increment or decrement of, this operand in place of the expression's.
pub fn with_operand(alloc: Global, e: &Expr, operand: Expr) -> Result<Expr, OutOfMemory>
    ensures { IfOk result (λ made. expr_of made ≡ term.with_operand (expr_of e.now) (expr_of operand)) }
{
    let at = e.at;
    match &e.kind {
        ExprKind::Member(_, x) => {
            let name = copy_ident(alloc, x)?;
            member_node(alloc, at, operand, name)
        }
        ExprKind::Arrow(_, x) => {
            let name = copy_ident(alloc, x)?;
            arrow_node(alloc, at, operand, name)
        }
        ExprKind::PostInc(_) => post_inc_node(alloc, at, operand),
        ExprKind::PostDec(_) => post_dec_node(alloc, at, operand),
        ExprKind::PreInc(_) => pre_inc_node(alloc, at, operand),
        ExprKind::PreDec(_) => pre_dec_node(alloc, at, operand),
        _ => Ok(operand),
    }
}

// The operator between these operands in place of the expression's.
pub fn with_operands(alloc: Global, e: &Expr, left: Expr, right: Expr) -> Result<Expr, OutOfMemory>
    ensures { IfOk result (λ made. expr_of made ≡ term.with_operands (expr_of e.now) (expr_of left) (expr_of right)) }
{
    let at = e.at;
    match &e.kind {
        ExprKind::Index(_, _) => index_node(alloc, at, left, right),
        ExprKind::And(_, _) => and_node(alloc, at, left, right),
        ExprKind::Or(_, _) => or_node(alloc, at, left, right),
        ExprKind::Binary(op, _, _) => binary_node(alloc, at, *op, left, right),
        ExprKind::Assign(op, _, _) => assign_node(alloc, at, *op, left, right),
        _ => Ok(left),
    }
}
