ghost use Rattle.std.specs.Prelude.{◌≡◌, ◌++◌, OnOk};
ghost use Rattle.c_syntax.specs.View.{expr_behind, expr_of};
ghost use Rattle.c_syntax.specs.Writes.{exprs_of};
ghost use Rattle.c_rules.specs.PlacesOfCalls.{places, places_of_all, places_of_maybe};

use c_syntax::{Expr, ExprKind};
use dm_base::OutOfMemory;

// Adds the places of the calls in the expression.
#[cycle(places_in_trees)]
pub fn add_expression(into: &mut Vec<u32>, e: &Expr) -> Result<(), OutOfMemory>
    ensures { OnOk result (into.new.items ≡ into.old.items ++ places (expr_of e.now)) }
{
    match &e.kind {
        ExprKind::Name(_)
        | ExprKind::Int { .. }
        | ExprKind::Char(_)
        | ExprKind::Str(_)
        | ExprKind::SizeofType(_)
        | ExprKind::SizeofExpr(_) => Ok(()),
        ExprKind::Comma(es) => add_expressions(into, es),
        ExprKind::Call(d, es) => {
            add_expression(into, d)?;
            into.push(e.at)?;
            add_expressions(into, es)
        }
        ExprKind::Cast(_, a)
        | ExprKind::Member(a, _)
        | ExprKind::Arrow(a, _)
        | ExprKind::PostInc(a)
        | ExprKind::PostDec(a)
        | ExprKind::PreInc(a)
        | ExprKind::PreDec(a)
        | ExprKind::Unary(_, a) => add_expression(into, a),
        ExprKind::Index(a, b)
        | ExprKind::And(a, b)
        | ExprKind::Or(a, b)
        | ExprKind::Binary(_, a, b)
        | ExprKind::Assign(_, a, b) => {
            add_expression(into, a)?;
            add_expression(into, b)
        }
        ExprKind::Cond(c, a, b) => {
            add_expression(into, c)?;
            add_expression(into, a)?;
            add_expression(into, b)
        }
    }
}

// Adds those in expressions, in order.
#[cycle(places_in_trees)]
fn add_expressions(into: &mut Vec<u32>, es: &[Expr]) -> Result<(), OutOfMemory>
    ensures { OnOk result (into.new.items ≡ into.old.items ++ places_of_all (exprs_of es.now)) }
{
    for e in es {
        add_expression(into, e)?;
    }
    Ok(())
}

// Adds those in an expression, where one stands.
pub fn add_maybe(into: &mut Vec<u32>, e: &Option<Box<Expr>>) -> Result<(), OutOfMemory>
    ensures { OnOk result (into.new.items ≡ into.old.items ++ places_of_maybe (expr_behind e.now)) }
{
    match e {
        Some(e) => add_expression(into, e),
        None => Ok(()),
    }
}
