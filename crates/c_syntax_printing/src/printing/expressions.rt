ghost use Rattle.std.specs.Prelude.{◌≡◌, OnOk};
ghost use Rattle.c_syntax.specs.View.{spec_of, expr_of, type_name_of, declarator_of};
ghost use Rattle.c_syntax.specs.Print.{expr_kinds, is_bare as is_bare_expr, operand_kinds, list_kinds, declarator_kinds, size_kinds, params_kinds, spec_kinds};
ghost use Rattle.c_syntax.specs.Writes.{Writes, exprs_of, params_of, declarator_in, declarator_behind, expr_behind, typed_kinds, direct_kinds};
ghost use Rattle.c_syntax_printing.specs.PrintedOperands.{before_kinds, after_kinds, enclosed_type_kinds};

use crate::printing::tokens::{
    push_char, push_int, push_keyword, push_name, push_punctuator, push_separator, push_str,
};
use c_lexer::OutOfMemory;
use c_lexer::keyword::{CHAR, ENUM, INT, SIZEOF, STRUCT, UNSIGNED, VOID};
use c_lexer::punctuator::{
    AND, ARROW, ASTERISK, COLON, DECREMENT, DOT, INCREMENT, LEFT_BRACKET, LEFT_PARENTHESIS, OR,
    QUESTION, RIGHT_BRACKET, RIGHT_PARENTHESIS,
};
use c_syntax::{Declarator, DeclaratorKind, Expr, ExprKind, Param, Spec, TypeName};

// Writes the specifiers.
pub fn write_spec(out: &mut Vec<u8>, spec: &Spec) -> Result<(), OutOfMemory>
    ensures { OnOk result (Writes out.old.items out.new.items (spec_kinds (spec_of spec.now))) }
{
    match spec {
        Spec::Void => push_keyword(out, VOID),
        Spec::Char => push_keyword(out, CHAR),
        Spec::Uchar => {
            push_keyword(out, UNSIGNED)?;
            push_keyword(out, CHAR)
        }
        Spec::Int => push_keyword(out, INT),
        Spec::Uint => {
            push_keyword(out, UNSIGNED)?;
            push_keyword(out, INT)
        }
        Spec::Struct(tag) => {
            push_keyword(out, STRUCT)?;
            push_name(out, tag.name.as_slice())
        }
        Spec::Enum(tag) => {
            push_keyword(out, ENUM)?;
            push_name(out, tag.name.as_slice())
        }
    }
}

// Whether the expression stands bare where it is an operand.
fn is_bare(e: &Expr) -> bool
    ensures { result ≡ is_bare_expr (expr_of e.now) }
{
    match &e.kind {
        ExprKind::Name(_) => true,
        ExprKind::Int { .. } => true,
        ExprKind::Char(_) => true,
        ExprKind::Str(_) => true,
        ExprKind::Call(_, _) => true,
        ExprKind::Index(_, _) => true,
        ExprKind::Member(_, _) => true,
        ExprKind::Arrow(_, _) => true,
        _ => false,
    }
}

// Writes the expression.
#[cycle(printed_tree)]
pub fn write_expr(out: &mut Vec<u8>, e: &Expr) -> Result<(), OutOfMemory>
    ensures { OnOk result (Writes out.old.items out.new.items (expr_kinds (expr_of e.now))) }
{
    match &e.kind {
        ExprKind::Name(name) => push_name(out, name.as_slice()),
        ExprKind::Int { value, unsigned } => push_int(out, *value, *unsigned),
        ExprKind::Char(c) => push_char(out, *c),
        ExprKind::Str(bytes) => push_str(out, bytes.as_slice()),
        ExprKind::Comma(es) => write_list(out, es),
        ExprKind::SizeofType(n) => {
            push_keyword(out, SIZEOF)?;
            write_type(out, n)
        }
        ExprKind::Cast(n, a) => {
            write_type(out, n)?;
            write_operand(out, a)
        }
        ExprKind::Call(a, es) => {
            write_before(out, a, LEFT_PARENTHESIS)?;
            write_list(out, es)?;
            push_punctuator(out, RIGHT_PARENTHESIS)
        }
        ExprKind::Member(a, x) => {
            write_before(out, a, DOT)?;
            push_name(out, x.name.as_slice())
        }
        ExprKind::Arrow(a, x) => {
            write_before(out, a, ARROW)?;
            push_name(out, x.name.as_slice())
        }
        ExprKind::PostInc(a) => write_before(out, a, INCREMENT),
        ExprKind::PostDec(a) => write_before(out, a, DECREMENT),
        ExprKind::PreInc(a) => write_after(out, INCREMENT, a),
        ExprKind::PreDec(a) => write_after(out, DECREMENT, a),
        ExprKind::SizeofExpr(a) => {
            push_keyword(out, SIZEOF)?;
            write_operand(out, a)
        }
        ExprKind::Unary(operator, a) => write_after(out, *operator, a),
        ExprKind::Index(a, b) => {
            write_before(out, a, LEFT_BRACKET)?;
            write_expr(out, b)?;
            push_punctuator(out, RIGHT_BRACKET)
        }
        ExprKind::And(a, b) => {
            write_before(out, a, AND)?;
            write_operand(out, b)
        }
        ExprKind::Or(a, b) => {
            write_before(out, a, OR)?;
            write_operand(out, b)
        }
        ExprKind::Binary(operator, a, b) => {
            write_before(out, a, *operator)?;
            write_operand(out, b)
        }
        ExprKind::Assign(operator, a, b) => {
            write_before(out, a, *operator)?;
            write_operand(out, b)
        }
        ExprKind::Cond(a, b, c) => {
            write_before(out, a, QUESTION)?;
            write_before(out, b, COLON)?;
            write_operand(out, c)
        }
    }
}

// Writes the expression as an operand.
#[cycle(printed_tree)]
pub fn write_operand(out: &mut Vec<u8>, e: &Expr) -> Result<(), OutOfMemory>
    ensures { OnOk result (Writes out.old.items out.new.items (operand_kinds (expr_of e.now))) }
{
    if is_bare(e) {
        return write_expr(out, e);
    }
    push_punctuator(out, LEFT_PARENTHESIS)?;
    write_expr(out, e)?;
    push_punctuator(out, RIGHT_PARENTHESIS)
}

// Writes the operand and the punctuator after it.
#[cycle(printed_tree)]
fn write_before(out: &mut Vec<u8>, e: &Expr, number: u8) -> Result<(), OutOfMemory>
    ensures { OnOk result (Writes out.old.items out.new.items (before_kinds number (expr_of e.now))) }
{
    write_operand(out, e)?;
    push_punctuator(out, number)
}

// Writes the punctuator and the operand after it.
#[cycle(printed_tree)]
fn write_after(out: &mut Vec<u8>, number: u8, e: &Expr) -> Result<(), OutOfMemory>
    ensures { OnOk result (Writes out.old.items out.new.items (after_kinds number (expr_of e.now))) }
{
    push_punctuator(out, number)?;
    write_operand(out, e)
}

// Writes operands with commas between them.
#[cycle(printed_tree)]
fn write_list(out: &mut Vec<u8>, es: &[Expr]) -> Result<(), OutOfMemory>
    ensures { OnOk result (Writes out.old.items out.new.items (list_kinds (exprs_of es.now))) }
{
    let mut first = true;
    for e in es {
        push_separator(out, first)?;
        write_operand(out, e)?;
        first = false;
    }
    Ok(())
}

// Writes the name of a type in parentheses.
#[cycle(printed_tree)]
fn write_type(out: &mut Vec<u8>, n: &TypeName) -> Result<(), OutOfMemory>
    ensures { OnOk result (Writes out.old.items out.new.items (enclosed_type_kinds (type_name_of n.now))) }
{
    push_punctuator(out, LEFT_PARENTHESIS)?;
    write_typed(out, &n.spec, &n.declarator)?;
    push_punctuator(out, RIGHT_PARENTHESIS)
}

// Writes specifiers, and the declarator after them where one stands.
#[cycle(printed_tree)]
fn write_typed(
    out: &mut Vec<u8>,
    spec: &Spec,
    declarator: &Option<Declarator>,
) -> Result<(), OutOfMemory>
    ensures { OnOk result (Writes out.old.items out.new.items (typed_kinds (spec_of spec.now) (declarator_in declarator.now))) }
{
    write_spec(out, spec)?;
    match declarator {
        None => Ok(()),
        Some(e) => write_declarator(out, e),
    }
}

// Writes the declarator.
#[cycle(printed_tree)]
pub fn write_declarator(out: &mut Vec<u8>, e: &Declarator) -> Result<(), OutOfMemory>
    ensures { OnOk result (Writes out.old.items out.new.items (declarator_kinds (declarator_of e.now))) }
{
    match &e.kind {
        DeclaratorKind::Name(x) => push_name(out, x.name.as_slice()),
        DeclaratorKind::Pointer(inner) => {
            push_punctuator(out, ASTERISK)?;
            match inner {
                None => Ok(()),
                Some(inside) => write_declarator(out, inside),
            }
        }
        DeclaratorKind::Array { inner, size } => {
            write_inner(out, inner)?;
            push_punctuator(out, LEFT_BRACKET)?;
            write_size(out, size)?;
            push_punctuator(out, RIGHT_BRACKET)
        }
        DeclaratorKind::Function { inner, params } => {
            write_inner(out, inner)?;
            push_punctuator(out, LEFT_PARENTHESIS)?;
            write_params(out, params)?;
            push_punctuator(out, RIGHT_PARENTHESIS)
        }
    }
}

// Writes what is an array or a function: a pointer in parentheses.
#[cycle(printed_tree)]
fn write_inner(out: &mut Vec<u8>, inner: &Option<Box<Declarator>>) -> Result<(), OutOfMemory>
    ensures { OnOk result (Writes out.old.items out.new.items (direct_kinds (declarator_behind inner.now))) }
{
    let Some(inside) = inner else {
        return Ok(());
    };
    if !matches!(inside.kind, DeclaratorKind::Pointer(_)) {
        return write_declarator(out, inside);
    }
    push_punctuator(out, LEFT_PARENTHESIS)?;
    write_declarator(out, inside)?;
    push_punctuator(out, RIGHT_PARENTHESIS)
}

// Writes the size of an array, where one stands.
#[cycle(printed_tree)]
fn write_size(out: &mut Vec<u8>, size: &Option<Box<Expr>>) -> Result<(), OutOfMemory>
    ensures { OnOk result (Writes out.old.items out.new.items (size_kinds (expr_behind size.now))) }
{
    match size {
        None => Ok(()),
        Some(e) => write_operand(out, e),
    }
}

// Writes parameters with commas between them, or `void` for none.
#[cycle(printed_tree)]
fn write_params(out: &mut Vec<u8>, params: &[Param]) -> Result<(), OutOfMemory>
    ensures { OnOk result (Writes out.old.items out.new.items (params_kinds (params_of params.now))) }
{
    if params.is_empty() {
        return push_keyword(out, VOID);
    }
    let mut first = true;
    for param in params {
        push_separator(out, first)?;
        write_typed(out, &param.spec, &param.declarator)?;
        first = false;
    }
    Ok(())
}
