// What decides whether the value of an operand is wanted.

ghost use Rattle.std.specs.Prelude.{◌≡◌, ℕ, ◌+◌, ◌<◌, ◌&&◌, nat_eq};
ghost use Rattle.c_syntax.specs.Tree.{type_name, nothing};
ghost use Rattle.c_syntax.specs.View.{spec_of, expr_of, type_name_of};
ghost use Rattle.null_calls_temporaries.specs.InstrumentedExpressions.{is_void_type};
ghost use Rattle.null_calls_expressions.specs.Wanted.{is_left_out};

use c_lexer::punctuator::{AMPERSAND, ASTERISK};
use c_syntax::{Expr, ExprKind, Spec, TypeName};

// Whether the specifiers are those of void.
fn is_void_spec(s: &Spec) -> bool
    ensures { (at : ℕ) → result ≡ is_void_type (type_name at (spec_of s.now) nothing) }
{
    match s {
        Spec::Void => true,
        _ => false,
    }
}

// Whether it is the name of the type void.
pub fn is_void(n: &TypeName) -> bool
    ensures { result ≡ is_void_type (type_name_of n.now) }
{
    match &n.declarator {
        Some(_) => false,
        None => is_void_spec(&n.spec),
    }
}

// Whether the operator and that of its operand are `&` and `*`, and the value isn't wanted: both are left out then.
pub fn is_without(wanted: bool, op: u8, a: &Expr) -> bool
    ensures { result ≡ is_left_out wanted op (expr_of a.now) }
{
    if wanted {
        return false;
    }
    match &a.kind {
        ExprKind::Unary(inner, _) => op == AMPERSAND && *inner == ASTERISK,
        _ => false,
    }
}

// Whether the value of the member at this place of so many is wanted, where that of the whole is or isn't.
pub fn is_wanted_at(wanted: bool, i: usize, count: usize) -> bool
    requires { i < count }
    ensures { result ≡ (wanted && nat_eq (i + 1) count) }
{
    wanted && i + 1 == count
}
