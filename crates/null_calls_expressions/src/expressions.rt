ghost use Rattle.std.specs.Prelude.{◌≡◌, ◌+◌, ◌++◌, OnOk, IfOk};
ghost use Rattle.c_syntax.specs.View.{expr_of};
ghost use Rattle.c_syntax.specs.Writes.{exprs_of};
ghost use Rattle.c_rules.specs.Counts.{calls};
ghost use Rattle.null_calls_temporaries.specs.Sited.{sited};
ghost use Rattle.null_calls_temporaries.specs.InstrumentedExpressions as marks;
ghost use Rattle.null_calls_temporaries.specs.Kept.{temporaries_of};
ghost use Rattle.null_calls_expressions.specs.Marked.{IsMarked, reached, of_expr, of_arguments, of_members};

use crate::marked::{add_where, call_where};
use crate::operands::{with_operand, with_operands};
use crate::wanted::{is_void, is_wanted_at, is_without};
use c_syntax::{Expr, ExprKind};
use dm_base::OutOfMemory;
use dm_counts::Count;
use null_calls_temporaries::{
    MarkedSites, Temporary, cast_node, comma_node, cond_node, copy_expr, copy_type_name, unary_node,
};
use std::alloc::Global;

/// The expression with null calls round its marked calls (C99 6.5), where `next` calls stand before it in the unit and its value is
/// wanted or not. The temporaries of its marked calls are added to `kept`, and its calls to `next`. The only error is that memory was
/// refused.
pub fn expression<'p>(
    alloc: Global,
    table: &MarkedSites<'p>,
    wanted: bool,
    e: &Expr,
    next: &mut Count,
    kept: &mut Vec<Temporary<'p>>,
) -> Result<Expr, OutOfMemory>
    ensures tree { IfOk result (λ made. expr_of made ≡ marks.expr (sited table.now) next.old wanted (expr_of e.now)) }
    ensures keeps { OnOk result (temporaries_of kept.new.items ≡ temporaries_of kept.old.items ++ marks.kept (sited table.now) next.old wanted (expr_of e.now)) }
    ensures counts { OnOk result (next.new ≡ next.old + calls (expr_of e.now)) }
{
    instrumented(alloc, table, wanted, e, next, kept)
}

// The same, with what is told of it as one.
#[cycle(expressions)]
fn instrumented<'p>(
    alloc: Global,
    table: &MarkedSites<'p>,
    wanted: bool,
    e: &Expr,
    next: &mut Count,
    kept: &mut Vec<Temporary<'p>>,
) -> Result<Expr, OutOfMemory>
    ensures { IfOk result (λ made. IsMarked (of_expr (sited table.now) wanted) (reached next.old kept.old.items) (reached next.new kept.new.items) (expr_of e.now) (expr_of made)) }
{
    let at = e.at;
    match &e.kind {
        ExprKind::Name(_)
        | ExprKind::Int { .. }
        | ExprKind::Char(_)
        | ExprKind::Str(_)
        | ExprKind::SizeofType(_)
        | ExprKind::SizeofExpr(_) => copy_expr(alloc, e),
        ExprKind::Comma(es) => {
            let list = members(alloc, table, wanted, es, next, kept)?;
            Ok(comma_node(at, list))
        }
        ExprKind::Cast(n, a) => {
            let target = copy_type_name(alloc, n)?;
            let operand = instrumented(alloc, table, !is_void(n), a, next, kept)?;
            cast_node(alloc, at, target, operand)
        }
        ExprKind::Call(d, es) => {
            let designator = instrumented(alloc, table, true, d, next, kept)?;
            let marked = table.after(next);
            next.raise()?;
            add_where(alloc, kept, wanted, marked)?;
            let list = arguments(alloc, table, es, next, kept)?;
            call_where(alloc, at, wanted, marked, designator, list)
        }
        ExprKind::Member(a, _)
        | ExprKind::Arrow(a, _)
        | ExprKind::PostInc(a)
        | ExprKind::PostDec(a)
        | ExprKind::PreInc(a)
        | ExprKind::PreDec(a) => {
            let operand = instrumented(alloc, table, true, a, next, kept)?;
            with_operand(alloc, e, operand)
        }
        ExprKind::Unary(op, a) => {
            if is_without(wanted, *op, a) {
                let ExprKind::Unary(_, inner) = &a.kind else {
                    unreachable!();
                };
                return instrumented(alloc, table, false, inner, next, kept);
            }
            let operand = instrumented(alloc, table, true, a, next, kept)?;
            unary_node(alloc, at, *op, operand)
        }
        ExprKind::Index(a, b)
        | ExprKind::And(a, b)
        | ExprKind::Or(a, b)
        | ExprKind::Binary(_, a, b)
        | ExprKind::Assign(_, a, b) => {
            let left = instrumented(alloc, table, true, a, next, kept)?;
            let right = instrumented(alloc, table, true, b, next, kept)?;
            with_operands(alloc, e, left, right)
        }
        ExprKind::Cond(test, yes, no) => {
            let first = instrumented(alloc, table, true, test, next, kept)?;
            let second = instrumented(alloc, table, true, yes, next, kept)?;
            let third = instrumented(alloc, table, true, no, next, kept)?;
            cond_node(alloc, at, first, second, third)
        }
    }
}

// The arguments of a call.
#[cycle(expressions)]
fn arguments<'p>(
    alloc: Global,
    table: &MarkedSites<'p>,
    es: &[Expr],
    next: &mut Count,
    kept: &mut Vec<Temporary<'p>>,
) -> Result<Vec<Expr>, OutOfMemory>
    ensures { IfOk result (λ made. IsMarked (of_arguments (sited table.now)) (reached next.old kept.old.items) (reached next.new kept.new.items) (exprs_of es.now) (exprs_of made.items)) }
{
    let mut made = Vec::new(alloc);
    for i in 0..es.len() {
        let one = instrumented(alloc, table, true, &es[i], next, kept)?;
        made.push(one)?;
    }
    Ok(made)
}

// The members of a comma expression: the value of the last one is wanted where that of the whole is, and the others' are not.
#[cycle(expressions)]
fn members<'p>(
    alloc: Global,
    table: &MarkedSites<'p>,
    wanted: bool,
    es: &[Expr],
    next: &mut Count,
    kept: &mut Vec<Temporary<'p>>,
) -> Result<Vec<Expr>, OutOfMemory>
    ensures { IfOk result (λ made. IsMarked (of_members (sited table.now) wanted) (reached next.old kept.old.items) (reached next.new kept.new.items) (exprs_of es.now) (exprs_of made.items)) }
{
    let mut made = Vec::new(alloc);
    for i in 0..es.len() {
        let own = is_wanted_at(wanted, i, es.len());
        let one = instrumented(alloc, table, own, &es[i], next, kept)?;
        made.push(one)?;
    }
    Ok(made)
}
