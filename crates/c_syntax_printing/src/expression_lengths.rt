ghost use Rattle.std.specs.Prelude.{◌≡◌};
ghost use Rattle.c_syntax.specs.View.{spec_of, expr_of, type_name_of, declarator_of};
ghost use Rattle.c_syntax.specs.Print.{expr_kinds, is_bare as is_bare_expr, operand_kinds, list_kinds, declarator_kinds, size_kinds, params_kinds, spec_kinds};
ghost use Rattle.c_syntax_printing.specs.Counted.{Counts};
ghost use Rattle.c_syntax_printing.specs.PrintedOperands.{before_kinds, after_kinds, enclosed_type_kinds};
ghost use Rattle.c_syntax.specs.Writes.{exprs_of, params_of, declarator_in, declarator_behind, expr_behind, typed_kinds, direct_kinds};

use crate::token_lengths::{
    count_char, count_int, count_keyword, count_name, count_punctuator, count_separator, count_str,
};
use c_lexer::keyword::{CHAR, ENUM, INT, SIZEOF, STRUCT, UNSIGNED, VOID};
use c_lexer::punctuator::{
    AND, ARROW, ASTERISK, COLON, DECREMENT, DOT, INCREMENT, LEFT_BRACKET, LEFT_PARENTHESIS, OR,
    QUESTION, RIGHT_BRACKET, RIGHT_PARENTHESIS,
};
use c_syntax::{Declarator, DeclaratorKind, Expr, ExprKind, Param, Spec, TypeName};

// Counts the specifiers.
pub fn count_spec(total: usize, spec: &Spec) -> usize
    ensures { Counts total (spec_kinds (spec_of spec.now)) result }
{
    match spec {
        Spec::Void => count_keyword(total, VOID),
        Spec::Char => count_keyword(total, CHAR),
        Spec::Uchar => {
            let total = count_keyword(total, UNSIGNED);
            count_keyword(total, CHAR)
        }
        Spec::Int => count_keyword(total, INT),
        Spec::Uint => {
            let total = count_keyword(total, UNSIGNED);
            count_keyword(total, INT)
        }
        Spec::Struct(tag) => {
            let total = count_keyword(total, STRUCT);
            count_name(total, tag.name.as_slice())
        }
        Spec::Enum(tag) => {
            let total = count_keyword(total, ENUM);
            count_name(total, tag.name.as_slice())
        }
    }
}

// Whether the expression stands bare where it is an operand.
fn is_bare(e: &Expr) -> bool
    ensures { result ≡ is_bare_expr (expr_of e.now) }
{
    match &e.kind {
        ExprKind::Name(_) => true,
        ExprKind::Int { .. } => true,
        ExprKind::Char(_) => true,
        ExprKind::Str(_) => true,
        ExprKind::Call(_, _) => true,
        ExprKind::Index(_, _) => true,
        ExprKind::Member(_, _) => true,
        ExprKind::Arrow(_, _) => true,
        _ => false,
    }
}

// Counts the expression.
#[cycle(counted_tree)]
pub fn count_expr(total: usize, e: &Expr) -> usize
    ensures { Counts total (expr_kinds (expr_of e.now)) result }
{
    match &e.kind {
        ExprKind::Name(name) => count_name(total, name.as_slice()),
        ExprKind::Int { value, unsigned } => count_int(total, *value, *unsigned),
        ExprKind::Char(c) => count_char(total, *c),
        ExprKind::Str(bytes) => count_str(total, bytes.as_slice()),
        ExprKind::Comma(es) => count_list(total, es),
        ExprKind::SizeofType(n) => {
            let total = count_keyword(total, SIZEOF);
            count_type(total, n)
        }
        ExprKind::Cast(n, a) => {
            let total = count_type(total, n);
            count_operand(total, a)
        }
        ExprKind::Call(a, es) => {
            let total = count_before(total, a, LEFT_PARENTHESIS);
            let total = count_list(total, es);
            count_punctuator(total, RIGHT_PARENTHESIS)
        }
        ExprKind::Member(a, x) => {
            let total = count_before(total, a, DOT);
            count_name(total, x.name.as_slice())
        }
        ExprKind::Arrow(a, x) => {
            let total = count_before(total, a, ARROW);
            count_name(total, x.name.as_slice())
        }
        ExprKind::PostInc(a) => count_before(total, a, INCREMENT),
        ExprKind::PostDec(a) => count_before(total, a, DECREMENT),
        ExprKind::PreInc(a) => count_after(total, INCREMENT, a),
        ExprKind::PreDec(a) => count_after(total, DECREMENT, a),
        ExprKind::SizeofExpr(a) => {
            let total = count_keyword(total, SIZEOF);
            count_operand(total, a)
        }
        ExprKind::Unary(operator, a) => count_after(total, *operator, a),
        ExprKind::Index(a, b) => {
            let total = count_before(total, a, LEFT_BRACKET);
            let total = count_expr(total, b);
            count_punctuator(total, RIGHT_BRACKET)
        }
        ExprKind::And(a, b) => {
            let total = count_before(total, a, AND);
            count_operand(total, b)
        }
        ExprKind::Or(a, b) => {
            let total = count_before(total, a, OR);
            count_operand(total, b)
        }
        ExprKind::Binary(operator, a, b) => {
            let total = count_before(total, a, *operator);
            count_operand(total, b)
        }
        ExprKind::Assign(operator, a, b) => {
            let total = count_before(total, a, *operator);
            count_operand(total, b)
        }
        ExprKind::Cond(a, b, c) => {
            let total = count_before(total, a, QUESTION);
            let total = count_before(total, b, COLON);
            count_operand(total, c)
        }
    }
}

// Counts the expression as an operand.
#[cycle(counted_tree)]
pub fn count_operand(total: usize, e: &Expr) -> usize
    ensures { Counts total (operand_kinds (expr_of e.now)) result }
{
    if is_bare(e) {
        return count_expr(total, e);
    }
    let total = count_punctuator(total, LEFT_PARENTHESIS);
    let total = count_expr(total, e);
    count_punctuator(total, RIGHT_PARENTHESIS)
}

// Counts the operand and the punctuator after it.
#[cycle(counted_tree)]
fn count_before(total: usize, e: &Expr, number: u8) -> usize
    ensures { Counts total (before_kinds number (expr_of e.now)) result }
{
    let total = count_operand(total, e);
    count_punctuator(total, number)
}

// Counts the punctuator and the operand after it.
#[cycle(counted_tree)]
fn count_after(total: usize, number: u8, e: &Expr) -> usize
    ensures { Counts total (after_kinds number (expr_of e.now)) result }
{
    let total = count_punctuator(total, number);
    count_operand(total, e)
}

// Counts operands with commas between them.
#[cycle(counted_tree)]
fn count_list(mut total: usize, es: &[Expr]) -> usize
    ensures { Counts total (list_kinds (exprs_of es.now)) result }
{
    let mut first = true;
    for e in es {
        total = count_separator(total, first);
        total = count_operand(total, e);
        first = false;
    }
    total
}

// Counts the name of a type in parentheses.
#[cycle(counted_tree)]
fn count_type(total: usize, n: &TypeName) -> usize
    ensures { Counts total (enclosed_type_kinds (type_name_of n.now)) result }
{
    let total = count_punctuator(total, LEFT_PARENTHESIS);
    let total = count_typed(total, &n.spec, &n.declarator);
    count_punctuator(total, RIGHT_PARENTHESIS)
}

// Counts specifiers, and the declarator after them where one stands.
#[cycle(counted_tree)]
fn count_typed(total: usize, spec: &Spec, declarator: &Option<Declarator>) -> usize
    ensures { Counts total (typed_kinds (spec_of spec.now) (declarator_in declarator.now)) result }
{
    let total = count_spec(total, spec);
    match declarator {
        None => total,
        Some(e) => count_declarator(total, e),
    }
}

// Counts the declarator.
#[cycle(counted_tree)]
pub fn count_declarator(total: usize, e: &Declarator) -> usize
    ensures { Counts total (declarator_kinds (declarator_of e.now)) result }
{
    match &e.kind {
        DeclaratorKind::Name(x) => count_name(total, x.name.as_slice()),
        DeclaratorKind::Pointer(inner) => {
            let total = count_punctuator(total, ASTERISK);
            match inner {
                None => total,
                Some(inside) => count_declarator(total, inside),
            }
        }
        DeclaratorKind::Array { inner, size } => {
            let total = count_inner(total, inner);
            let total = count_punctuator(total, LEFT_BRACKET);
            let total = count_size(total, size);
            count_punctuator(total, RIGHT_BRACKET)
        }
        DeclaratorKind::Function { inner, params } => {
            let total = count_inner(total, inner);
            let total = count_punctuator(total, LEFT_PARENTHESIS);
            let total = count_params(total, params);
            count_punctuator(total, RIGHT_PARENTHESIS)
        }
    }
}

// Counts what is an array or a function: a pointer in parentheses.
#[cycle(counted_tree)]
fn count_inner(total: usize, inner: &Option<Box<Declarator>>) -> usize
    ensures { Counts total (direct_kinds (declarator_behind inner.now)) result }
{
    let Some(inside) = inner else {
        return total;
    };
    if !matches!(inside.kind, DeclaratorKind::Pointer(_)) {
        return count_declarator(total, inside);
    }
    let total = count_punctuator(total, LEFT_PARENTHESIS);
    let total = count_declarator(total, inside);
    count_punctuator(total, RIGHT_PARENTHESIS)
}

// Counts the size of an array, where one stands.
#[cycle(counted_tree)]
fn count_size(total: usize, size: &Option<Box<Expr>>) -> usize
    ensures { Counts total (size_kinds (expr_behind size.now)) result }
{
    match size {
        None => total,
        Some(e) => count_operand(total, e),
    }
}

// Counts parameters with commas between them, or `void` for none.
#[cycle(counted_tree)]
fn count_params(mut total: usize, params: &[Param]) -> usize
    ensures { Counts total (params_kinds (params_of params.now)) result }
{
    if params.is_empty() {
        return count_keyword(total, VOID);
    }
    let mut first = true;
    for param in params {
        total = count_separator(total, first);
        total = count_typed(total, &param.spec, &param.declarator);
        first = false;
    }
    total
}
