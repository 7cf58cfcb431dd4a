// The nodes of expressions.

ghost use Rattle.std.specs.Prelude.{◌≡◌, IfOk};
ghost use Rattle.c_syntax.specs.Tree.{a_name, an_int, comma, sizeof_type, cast, call, member, dot, arrow, postfix, post_increment, post_decrement, prefix, pre_increment, pre_decrement, sizeof, unary, index, binary, and, or, operator, assign, conditional};
ghost use Rattle.c_syntax.specs.View.{ident_of, expr_of, type_name_of};
ghost use Rattle.c_syntax.specs.Writes.{exprs_of};

use c_syntax::{Expr, ExprKind, Ident, TypeName};
use dm_base::{Bytes, OutOfMemory};
use std::alloc::Global;

/// A name at the place (C99 6.5.1).
pub fn name_node(at: u32, name: Bytes) -> Expr
    ensures { expr_of result ≡ a_name at name }
{
    Expr {
        at,
        kind: ExprKind::Name(name),
    }
}

/// An integer constant (6.4.4.1), of type unsigned int or int.
pub fn int_node(at: u32, value: u32, unsigned: bool) -> Expr
    ensures { expr_of result ≡ an_int at value unsigned }
{
    Expr {
        at,
        kind: ExprKind::Int { value, unsigned },
    }
}

/// Expressions with commas between them (6.5.17).
pub fn comma_node(at: u32, list: Vec<Expr>) -> Expr
    ensures { expr_of result ≡ comma at (exprs_of list.items) }
{
    Expr {
        at,
        kind: ExprKind::Comma(list),
    }
}

/// `sizeof` of a type (6.5.3.4).
pub fn sizeof_type_node(at: u32, target: TypeName) -> Expr
    ensures { expr_of result ≡ sizeof_type at (type_name_of target) }
{
    Expr {
        at,
        kind: ExprKind::SizeofType(target),
    }
}

/// A cast (6.5.4).
pub fn cast_node(alloc: Global, at: u32, target: TypeName, a: Expr) -> Result<Expr, OutOfMemory>
    ensures { IfOk result (λ made. expr_of made ≡ cast at (type_name_of target) (expr_of a)) }
{
    let a = Box::new(alloc, a)?;
    Ok(Expr {
        at,
        kind: ExprKind::Cast(target, a),
    })
}

/// A call (6.5.2.2).
pub fn call_node(
    alloc: Global,
    at: u32,
    designator: Expr,
    arguments: Vec<Expr>,
) -> Result<Expr, OutOfMemory>
    ensures { IfOk result (λ made. expr_of made ≡ call at (expr_of designator) (exprs_of arguments.items)) }
{
    let designator = Box::new(alloc, designator)?;
    Ok(Expr {
        at,
        kind: ExprKind::Call(designator, arguments),
    })
}

/// `.` and a member (6.5.2.3).
pub fn member_node(alloc: Global, at: u32, a: Expr, name: Ident) -> Result<Expr, OutOfMemory>
    ensures { IfOk result (λ made. expr_of made ≡ member at dot (expr_of a) (ident_of name)) }
{
    let a = Box::new(alloc, a)?;
    Ok(Expr {
        at,
        kind: ExprKind::Member(a, name),
    })
}

/// `->` and a member (6.5.2.3).
pub fn arrow_node(alloc: Global, at: u32, a: Expr, name: Ident) -> Result<Expr, OutOfMemory>
    ensures { IfOk result (λ made. expr_of made ≡ member at arrow (expr_of a) (ident_of name)) }
{
    let a = Box::new(alloc, a)?;
    Ok(Expr {
        at,
        kind: ExprKind::Arrow(a, name),
    })
}

/// `++` after its operand (6.5.2.4).
pub fn post_inc_node(alloc: Global, at: u32, a: Expr) -> Result<Expr, OutOfMemory>
    ensures { IfOk result (λ made. expr_of made ≡ postfix at post_increment (expr_of a)) }
{
    let a = Box::new(alloc, a)?;
    Ok(Expr {
        at,
        kind: ExprKind::PostInc(a),
    })
}

/// `--` after its operand (6.5.2.4).
pub fn post_dec_node(alloc: Global, at: u32, a: Expr) -> Result<Expr, OutOfMemory>
    ensures { IfOk result (λ made. expr_of made ≡ postfix at post_decrement (expr_of a)) }
{
    let a = Box::new(alloc, a)?;
    Ok(Expr {
        at,
        kind: ExprKind::PostDec(a),
    })
}

/// `++` before its operand (6.5.3.1).
pub fn pre_inc_node(alloc: Global, at: u32, a: Expr) -> Result<Expr, OutOfMemory>
    ensures { IfOk result (λ made. expr_of made ≡ prefix at pre_increment (expr_of a)) }
{
    let a = Box::new(alloc, a)?;
    Ok(Expr {
        at,
        kind: ExprKind::PreInc(a),
    })
}

/// `--` before its operand (6.5.3.1).
pub fn pre_dec_node(alloc: Global, at: u32, a: Expr) -> Result<Expr, OutOfMemory>
    ensures { IfOk result (λ made. expr_of made ≡ prefix at pre_decrement (expr_of a)) }
{
    let a = Box::new(alloc, a)?;
    Ok(Expr {
        at,
        kind: ExprKind::PreDec(a),
    })
}

/// `sizeof` of an expression (6.5.3.4).
pub fn sizeof_expr_node(alloc: Global, at: u32, a: Expr) -> Result<Expr, OutOfMemory>
    ensures { IfOk result (λ made. expr_of made ≡ prefix at sizeof (expr_of a)) }
{
    let a = Box::new(alloc, a)?;
    Ok(Expr {
        at,
        kind: ExprKind::SizeofExpr(a),
    })
}

/// One of the unary operators (6.5.3.2, 6.5.3.3), by the number of its punctuator.
pub fn unary_node(alloc: Global, at: u32, op: u8, a: Expr) -> Result<Expr, OutOfMemory>
    ensures { IfOk result (λ made. expr_of made ≡ unary at op (expr_of a)) }
{
    let a = Box::new(alloc, a)?;
    Ok(Expr {
        at,
        kind: ExprKind::Unary(op, a),
    })
}

/// An index (6.5.2.1).
pub fn index_node(alloc: Global, at: u32, a: Expr, b: Expr) -> Result<Expr, OutOfMemory>
    ensures { IfOk result (λ made. expr_of made ≡ index at (expr_of a) (expr_of b)) }
{
    let a = Box::new(alloc, a)?;
    let b = Box::new(alloc, b)?;
    Ok(Expr {
        at,
        kind: ExprKind::Index(a, b),
    })
}

/// `&&` (6.5.13).
pub fn and_node(alloc: Global, at: u32, a: Expr, b: Expr) -> Result<Expr, OutOfMemory>
    ensures { IfOk result (λ made. expr_of made ≡ binary at and (expr_of a) (expr_of b)) }
{
    let a = Box::new(alloc, a)?;
    let b = Box::new(alloc, b)?;
    Ok(Expr {
        at,
        kind: ExprKind::And(a, b),
    })
}

/// `||` (6.5.14).
pub fn or_node(alloc: Global, at: u32, a: Expr, b: Expr) -> Result<Expr, OutOfMemory>
    ensures { IfOk result (λ made. expr_of made ≡ binary at or (expr_of a) (expr_of b)) }
{
    let a = Box::new(alloc, a)?;
    let b = Box::new(alloc, b)?;
    Ok(Expr {
        at,
        kind: ExprKind::Or(a, b),
    })
}

/// A binary operator of 6.5.5 to 6.5.12, by the number of its punctuator.
pub fn binary_node(alloc: Global, at: u32, op: u8, a: Expr, b: Expr) -> Result<Expr, OutOfMemory>
    ensures { IfOk result (λ made. expr_of made ≡ binary at (operator op) (expr_of a) (expr_of b)) }
{
    let a = Box::new(alloc, a)?;
    let b = Box::new(alloc, b)?;
    Ok(Expr {
        at,
        kind: ExprKind::Binary(op, a, b),
    })
}

/// An assignment (6.5.16), by the number of its punctuator.
pub fn assign_node(alloc: Global, at: u32, op: u8, a: Expr, b: Expr) -> Result<Expr, OutOfMemory>
    ensures { IfOk result (λ made. expr_of made ≡ assign at op (expr_of a) (expr_of b)) }
{
    let a = Box::new(alloc, a)?;
    let b = Box::new(alloc, b)?;
    Ok(Expr {
        at,
        kind: ExprKind::Assign(op, a, b),
    })
}

/// `?` and `:` (6.5.15).
pub fn cond_node(
    alloc: Global,
    at: u32,
    test: Expr,
    yes: Expr,
    no: Expr,
) -> Result<Expr, OutOfMemory>
    ensures { IfOk result (λ made. expr_of made ≡ conditional at (expr_of test) (expr_of yes) (expr_of no)) }
{
    let test = Box::new(alloc, test)?;
    let yes = Box::new(alloc, yes)?;
    let no = Box::new(alloc, no)?;
    Ok(Expr {
        at,
        kind: ExprKind::Cond(test, yes, no),
    })
}
