ghost use Rattle.std.specs.Prelude.{◌≡◌, IfNone, IfSome};
ghost use Rattle.c_check_expressions.specs.Parts.{function_meant, name_seen, named_by, type_seen};
ghost use Rattle.c_check_types.specs.Agreement.{AgreesWith};
ghost use Rattle.c_check_primary.specs.CalleeView.{callee_of};
ghost use Rattle.c_rules.specs.Checked.{Checked, on};
ghost use Rattle.c_rules.specs.Counts.{after};
ghost use Rattle.c_rules.specs.Expressions.{callee};
ghost use Rattle.c_rules.specs.TypedExpression.{TypedExpression};
ghost use Rattle.c_rules.specs.PostfixExpressions.{callee_by_value};
ghost use Rattle.c_rules.specs.Scopes.{Before, binding_of};
ghost use Rattle.c_check_counts.specs.View.{env_of};
ghost use Rattle.c_syntax.specs.View.{expr_of};

use c_check_counts::{Environment, Meaning};
use c_check_primary::{Callee, callee_by_name};
use c_check_types::CheckError;
use c_syntax::{Expr, ExprKind};
use c_tree::CType;
use std::alloc::Global;

// The name that an expression is, where it is one.
fn name_of(e: &Expr) -> Option<&[u8]>
    ensures { name_seen result ≡ named_by (expr_of e.now) }
{
    match &e.kind {
        ExprKind::Name(name) => Some(name.as_slice()),
        _ => None,
    }
}

// The type of the function that a name means, where it means one.
fn function_named<'e>(env: &'e Environment<'_>, name: &[u8]) -> Option<&'e CType>
    ensures { type_seen result ≡ function_meant (binding_of (env_of env.now) name.now) }
{
    match env.names.find(name) {
        Some(entry) => match &entry.means {
            Meaning::Function { ctype, .. } => Some(ctype),
            _ => None,
        },
        None => None,
    }
}

// What is called where the designator is the name of a function (C99 6.5.2.2); None where it is anything else.
pub fn direct_callee(
    alloc: Global,
    env: &Environment<'_>,
    at: u32,
    designator: &Expr,
) -> Option<Result<Callee, CheckError>>
    ensures judged { IfSome result (λ r. (g : Checked TypedExpression) → AgreesWith callee_of r (callee (env_of env.now) at (expr_of designator.now) g)) }
    ensures counted { IfSome result (λ r. (b : Before) → after b (expr_of designator.now) ≡ b) }
    ensures through { IfNone result ((g : Checked TypedExpression) → callee (env_of env.now) at (expr_of designator.now) g ≡ on g (callee_by_value at)) }
{
    let Some(name) = name_of(designator) else {
        return None;
    };
    let Some(ctype) = function_named(env, name) else {
        return None;
    };
    Some(callee_by_name(alloc, env, designator.at, name, ctype))
}
