// Copies of expressions, names of types and declarators.

ghost use Rattle.std.specs.Prelude.{◌≡◌, IfOk, map};
ghost use Rattle.c_syntax.specs.Tree.{a_char, a_str};
ghost use Rattle.c_syntax.specs.View.{ident_of, spec_of, expr_of, type_name_of, declarator_of};
ghost use Rattle.c_syntax.specs.Writes.{declarator_in, declarator_behind, expr_behind};
ghost use Rattle.c_syntax_nodes.specs.Copied.{param_of};

use crate::declarators::{
    array_node, declared_node, function_node, param_node, pointer_node, type_name_node,
};
use crate::nodes::{
    and_node, arrow_node, assign_node, binary_node, call_node, cast_node, comma_node, cond_node,
    index_node, int_node, member_node, name_node, or_node, post_dec_node, post_inc_node,
    pre_dec_node, pre_inc_node, sizeof_expr_node, sizeof_type_node, unary_node,
};
use c_syntax::{Declarator, DeclaratorKind, Expr, ExprKind, Ident, Param, Spec, TypeName};
use dm_base::{Bytes, OutOfMemory};
use std::alloc::Global;

/// A copy of the name and its place.
pub fn copy_ident(alloc: Global, x: &Ident) -> Result<Ident, OutOfMemory>
    ensures { IfOk result (λ copied. ident_of copied ≡ ident_of x.now) }
{
    let name = Bytes::of(alloc, x.name.as_slice())?;
    Ok(Ident { name, at: x.at })
}

/// A copy of the specifiers (C99 6.7.2).
pub fn copy_spec(alloc: Global, s: &Spec) -> Result<Spec, OutOfMemory>
    ensures { IfOk result (λ copied. spec_of copied ≡ spec_of s.now) }
{
    match s {
        Spec::Void => Ok(Spec::Void),
        Spec::Char => Ok(Spec::Char),
        Spec::Uchar => Ok(Spec::Uchar),
        Spec::Int => Ok(Spec::Int),
        Spec::Uint => Ok(Spec::Uint),
        Spec::Struct(tag) => Ok(Spec::Struct(copy_ident(alloc, tag)?)),
        Spec::Enum(tag) => Ok(Spec::Enum(copy_ident(alloc, tag)?)),
    }
}

// A copy of a character constant or a string at the place.
fn char_node(at: u32, value: i32) -> Expr
    ensures { expr_of result ≡ a_char at value }
{
    Expr {
        at,
        kind: ExprKind::Char(value),
    }
}

fn str_node(at: u32, bytes: Bytes) -> Expr
    ensures { expr_of result ≡ a_str at bytes }
{
    Expr {
        at,
        kind: ExprKind::Str(bytes),
    }
}

/// A copy of the expression (C99 6.5).
#[cycle(copying)]
pub fn copy_expr(alloc: Global, e: &Expr) -> Result<Expr, OutOfMemory>
    ensures { IfOk result (λ copied. expr_of copied ≡ expr_of e.now) }
{
    let at = e.at;
    match &e.kind {
        ExprKind::Name(x) => Ok(name_node(at, Bytes::of(alloc, x.as_slice())?)),
        ExprKind::Int { value, unsigned } => Ok(int_node(at, *value, *unsigned)),
        ExprKind::Char(c) => Ok(char_node(at, *c)),
        ExprKind::Str(bytes) => Ok(str_node(at, Bytes::of(alloc, bytes.as_slice())?)),
        ExprKind::Comma(es) => {
            let list = copy_exprs(alloc, es)?;
            Ok(comma_node(at, list))
        }
        ExprKind::SizeofType(n) => Ok(sizeof_type_node(at, copy_type_name(alloc, n)?)),
        ExprKind::Cast(n, a) => {
            let target = copy_type_name(alloc, n)?;
            let operand = copy_expr(alloc, a)?;
            cast_node(alloc, at, target, operand)
        }
        ExprKind::Call(d, es) => {
            let designator = copy_expr(alloc, d)?;
            let arguments = copy_exprs(alloc, es)?;
            call_node(alloc, at, designator, arguments)
        }
        ExprKind::Member(a, x) => {
            let object = copy_expr(alloc, a)?;
            let name = copy_ident(alloc, x)?;
            member_node(alloc, at, object, name)
        }
        ExprKind::Arrow(a, x) => {
            let object = copy_expr(alloc, a)?;
            let name = copy_ident(alloc, x)?;
            arrow_node(alloc, at, object, name)
        }
        ExprKind::PostInc(a) => {
            let operand = copy_expr(alloc, a)?;
            post_inc_node(alloc, at, operand)
        }
        ExprKind::PostDec(a) => {
            let operand = copy_expr(alloc, a)?;
            post_dec_node(alloc, at, operand)
        }
        ExprKind::PreInc(a) => {
            let operand = copy_expr(alloc, a)?;
            pre_inc_node(alloc, at, operand)
        }
        ExprKind::PreDec(a) => {
            let operand = copy_expr(alloc, a)?;
            pre_dec_node(alloc, at, operand)
        }
        ExprKind::SizeofExpr(a) => {
            let operand = copy_expr(alloc, a)?;
            sizeof_expr_node(alloc, at, operand)
        }
        ExprKind::Unary(op, a) => {
            let operand = copy_expr(alloc, a)?;
            unary_node(alloc, at, *op, operand)
        }
        ExprKind::Index(a, b) => {
            let left = copy_expr(alloc, a)?;
            let right = copy_expr(alloc, b)?;
            index_node(alloc, at, left, right)
        }
        ExprKind::And(a, b) => {
            let left = copy_expr(alloc, a)?;
            let right = copy_expr(alloc, b)?;
            and_node(alloc, at, left, right)
        }
        ExprKind::Or(a, b) => {
            let left = copy_expr(alloc, a)?;
            let right = copy_expr(alloc, b)?;
            or_node(alloc, at, left, right)
        }
        ExprKind::Binary(op, a, b) => {
            let left = copy_expr(alloc, a)?;
            let right = copy_expr(alloc, b)?;
            binary_node(alloc, at, *op, left, right)
        }
        ExprKind::Assign(op, a, b) => {
            let left = copy_expr(alloc, a)?;
            let right = copy_expr(alloc, b)?;
            assign_node(alloc, at, *op, left, right)
        }
        ExprKind::Cond(test, yes, no) => {
            let first = copy_expr(alloc, test)?;
            let second = copy_expr(alloc, yes)?;
            let third = copy_expr(alloc, no)?;
            cond_node(alloc, at, first, second, third)
        }
    }
}

// Copies of the expressions, in order.
#[cycle(copying)]
fn copy_exprs(alloc: Global, es: &[Expr]) -> Result<Vec<Expr>, OutOfMemory>
    ensures { IfOk result (λ copied. map expr_of copied.items ≡ map expr_of es.now) }
{
    let mut copied = Vec::new(alloc);
    for i in 0..es.len() {
        let one = copy_expr(alloc, &es[i])?;
        copied.push(one)?;
    }
    Ok(copied)
}

/// A copy of the name of a type (C99 6.7.6).
#[cycle(copying)]
pub fn copy_type_name(alloc: Global, n: &TypeName) -> Result<TypeName, OutOfMemory>
    ensures { IfOk result (λ copied. type_name_of copied ≡ type_name_of n.now) }
{
    let spec = copy_spec(alloc, &n.spec)?;
    let declarator = copy_held_declarator(alloc, &n.declarator)?;
    Ok(type_name_node(n.at, spec, declarator))
}

/// A copy of the declarator, where one stands.
#[cycle(copying)]
pub fn copy_held_declarator(
    alloc: Global,
    held: &Option<Declarator>,
) -> Result<Option<Declarator>, OutOfMemory>
    ensures { IfOk result (λ copied. declarator_in copied ≡ declarator_in held.now) }
{
    match held {
        Some(d) => Ok(Some(copy_declarator(alloc, d)?)),
        None => Ok(None),
    }
}

/// A copy of the declarator (C99 6.7.5).
#[cycle(copying)]
pub fn copy_declarator(alloc: Global, d: &Declarator) -> Result<Declarator, OutOfMemory>
    ensures { IfOk result (λ copied. declarator_of copied ≡ declarator_of d.now) }
{
    let at = d.at;
    match &d.kind {
        DeclaratorKind::Name(x) => {
            let name = copy_ident(alloc, x)?;
            Ok(declared_node(at, name))
        }
        DeclaratorKind::Pointer(inner) => {
            let target = copy_inner(alloc, inner)?;
            Ok(pointer_node(at, target))
        }
        DeclaratorKind::Array { inner, size } => {
            let element = copy_inner(alloc, inner)?;
            let size = copy_size(alloc, size)?;
            Ok(array_node(at, element, size))
        }
        DeclaratorKind::Function { inner, params } => {
            let function = copy_inner(alloc, inner)?;
            let params = copy_params(alloc, params)?;
            Ok(function_node(at, function, params))
        }
    }
}

#[cycle(copying)]
fn copy_inner(
    alloc: Global,
    inner: &Option<Box<Declarator>>,
) -> Result<Option<Box<Declarator>>, OutOfMemory>
    ensures { IfOk result (λ copied. declarator_behind copied ≡ declarator_behind inner.now) }
{
    match inner {
        Some(d) => {
            let one = copy_declarator(alloc, d)?;
            Ok(Some(Box::new(alloc, one)?))
        }
        None => Ok(None),
    }
}

#[cycle(copying)]
fn copy_size(alloc: Global, size: &Option<Box<Expr>>) -> Result<Option<Box<Expr>>, OutOfMemory>
    ensures { IfOk result (λ copied. expr_behind copied ≡ expr_behind size.now) }
{
    match size {
        Some(e) => {
            let one = copy_expr(alloc, e)?;
            Ok(Some(Box::new(alloc, one)?))
        }
        None => Ok(None),
    }
}

#[cycle(copying)]
fn copy_params(alloc: Global, ps: &[Param]) -> Result<Vec<Param>, OutOfMemory>
    ensures { IfOk result (λ copied. map param_of copied.items ≡ map param_of ps.now) }
{
    let mut copied = Vec::new(alloc);
    for i in 0..ps.len() {
        let one = copy_param(alloc, &ps[i])?;
        copied.push(one)?;
    }
    Ok(copied)
}

#[cycle(copying)]
fn copy_param(alloc: Global, p: &Param) -> Result<Param, OutOfMemory>
    ensures { IfOk result (λ copied. param_of copied ≡ param_of p.now) }
{
    let spec = copy_spec(alloc, &p.spec)?;
    let declarator = copy_held_declarator(alloc, &p.declarator)?;
    Ok(param_node(p.at, spec, declarator))
}
