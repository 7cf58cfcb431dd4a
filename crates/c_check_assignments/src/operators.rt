ghost use Rattle.std.specs.Prelude.{◌≡◌, ◌||◌, IfOk};
ghost use Rattle.c_check_values.specs.Agreement.{AgreesWith};
ghost use Rattle.c_check_values.specs.TypedExpressionView.{constant_of, typed_expression_of};
ghost use Rattle.c_rules.specs.Conversions.{converted_to, kind_of};
ghost use Rattle.c_rules.specs.TypedExpression.{behind, is_place, not_constant, tree_of, typed_value};
ghost use Rattle.c_rules.specs.Types.{is_function};
ghost use Rattle.c_rules.specs.UnaryExpressions.{address_of_form, address_of_type, address, indirection, plus_of, operated, operator_of, negation, unary_of_value, size_of, size_of_expression, size_of_type, cast_of, null_cast};
ghost use Rattle.c_check_values.specs.View.{env_of};
ghost use Rattle.c_tree.specs.Tree.{discard, integer, unary_operation, void};
ghost use Rattle.c_tree.specs.View.{ctype_of};

use crate::sides::{answered, operand_tree};
use c_check_values::{
    C3, C4, C13, CheckError, Constant, Environment, Form, TypedExpression, cast_to, complete,
    constant_unary, converted_to, few_parts, is_function, is_integer, is_scalar, null_of,
    pointer_to, promoted, typed_unsigned, typed_value,
};
use c_lexer::punctuator::{ASTERISK, MINUS, PLUS, TILDE};
use c_tree::{CType, IntType, TExprKind, UnOp, copy_type};
use dm_base::OutOfMemory;
use std::alloc::Global;

// What an operand is the address of; `&*p` is p, and `&a[i]` is a + i (C99 6.5.3.2 paragraph 3).
fn address_of_form(
    alloc: Global,
    at: u32,
    g: TypedExpression,
) -> Result<TypedExpression, CheckError>
    ensures { AgreesWith typed_expression_of result (address_of_form at (typed_expression_of g) (typed_expression_of g).form) }
{
    let pointer = pointer_to(alloc, &g.ctype)?;
    let (_, form, constant) = g.into_parts();
    match form {
        Form::Value(_) => Err(CheckError::At(C3, at)),
        Form::Place(tree) => {
            if !few_parts(&pointer) {
                return Err(CheckError::At(C13, at));
            }
            let kind = TExprKind::AddressOf(Box::new(alloc, tree)?);
            answered(typed_value(alloc, pointer, kind, constant))
        }
        Form::Behind(tree) => Ok(TypedExpression {
            ctype: pointer,
            form: Form::Value(tree),
            constant,
        }),
    }
}

// Whether it designates an object or a function (C99 6.3.2.1).
fn designates(g: &TypedExpression) -> bool
    ensures { result ≡ (is_place (typed_expression_of g.now) || is_function (typed_expression_of g.now).ctype) }
{
    g.is_place() || is_function(&g.ctype)
}

// The address of what designates something; a pointer to an array isn't in this profile.
fn address_of_type(
    alloc: Global,
    at: u32,
    g: TypedExpression,
) -> Result<TypedExpression, CheckError>
    ensures { AgreesWith typed_expression_of result (address_of_type at (typed_expression_of g) (typed_expression_of g).ctype) }
{
    match &g.ctype {
        CType::Array(_, _) => Err(CheckError::At(C3, at)),
        _ => address_of_form(alloc, at, g),
    }
}

/// `&` of a place or of a function (C99 6.5.3.2).
pub fn address(
    alloc: Global,
    at: u32,
    place: u32,
    g: TypedExpression,
) -> Result<TypedExpression, CheckError>
    ensures { AgreesWith typed_expression_of result (address at place (typed_expression_of g)) }
{
    if !designates(&g) {
        return Err(CheckError::At(C4, place));
    }
    address_of_type(alloc, at, g)
}

// What a pointer leads to, which has this type.
fn led_to(alloc: Global, target: CType, g: TypedExpression) -> Result<TypedExpression, OutOfMemory>
    ensures { IfOk result (λ r. typed_expression_of r ≡ record { ctype = ctype_of target; form = behind (tree_of (typed_expression_of g)); constant = (typed_expression_of g).constant }) }
{
    let constant = g.constant;
    let tree = g.into_tree(alloc)?;
    Ok(TypedExpression {
        ctype: target,
        form: Form::Behind(tree),
        constant,
    })
}

/// `*` of a pointer (C99 6.5.3.2 paragraphs 2 and 4).
pub fn indirection(
    alloc: Global,
    at: u32,
    g: TypedExpression,
) -> Result<TypedExpression, CheckError>
    ensures { AgreesWith typed_expression_of result (indirection at (typed_expression_of g)) }
{
    match &g.ctype {
        CType::Pointer(t) => {
            let target = copy_type(alloc, t)?;
            match &target {
                CType::Void => Err(CheckError::At(C3, at)),
                _ => Ok(led_to(alloc, target, g)?),
            }
        }
        _ => Err(CheckError::At(C3, at)),
    }
}

// `+` of an integer.
fn plus(alloc: Global, at: u32, g: TypedExpression) -> Result<TypedExpression, CheckError>
    ensures { AgreesWith typed_expression_of result (plus_of at (typed_expression_of g) (kind_of (typed_expression_of g).ctype)) }
{
    match &g.ctype {
        CType::Int(i) => {
            let i = promoted(*i);
            answered(cast_to(alloc, i, g))
        }
        _ => Err(CheckError::At(C3, at)),
    }
}

// An operator on an operand, which gives this integer type and this constant.
fn with_operator(
    alloc: Global,
    op: UnOp,
    g: TypedExpression,
    i: IntType,
    constant: Constant,
) -> Result<TypedExpression, OutOfMemory>
    ensures { IfOk result (λ r. typed_expression_of r ≡ typed_value (integer i) (unary_operation (integer i) op (tree_of (typed_expression_of g))) (constant_of constant)) }
{
    let tree = operand_tree(alloc, g)?;
    typed_value(alloc, CType::Int(i), TExprKind::Unary(op, tree), constant)
}

// An operator on an integer that is converted to this promoted type.
fn operated(
    alloc: Global,
    op: UnOp,
    g: TypedExpression,
    i: IntType,
) -> Result<TypedExpression, OutOfMemory>
    ensures { IfOk result (λ r. typed_expression_of r ≡ operated op (converted_to i (typed_expression_of g)) i) }
{
    let promoted = converted_to(alloc, i, g)?;
    let constant = constant_unary(op, promoted.constant);
    with_operator(alloc, op, promoted, i, constant)
}

// `-` and `~` of an integer.
fn operator(
    alloc: Global,
    at: u32,
    op: UnOp,
    g: TypedExpression,
) -> Result<TypedExpression, CheckError>
    ensures { AgreesWith typed_expression_of result (operator_of at op (typed_expression_of g) (kind_of (typed_expression_of g).ctype)) }
{
    match &g.ctype {
        CType::Int(i) => {
            let i = promoted(*i);
            answered(operated(alloc, op, g, i))
        }
        _ => Err(CheckError::At(C3, at)),
    }
}

// `!` of a scalar.
fn negation(alloc: Global, at: u32, g: TypedExpression) -> Result<TypedExpression, CheckError>
    ensures { AgreesWith typed_expression_of result (negation at (typed_expression_of g)) }
{
    if !is_scalar(&g.ctype) {
        return Err(CheckError::At(C3, at));
    }
    let constant = constant_unary(UnOp::Not, g.integer_constant());
    answered(with_operator(alloc, UnOp::Not, g, IntType::Int, constant))
}

/// A unary operator with a value as its operand, by the number of its punctuator (C99 6.5.3.2, 6.5.3.3).
pub fn unary_of_value(
    alloc: Global,
    at: u32,
    op: u8,
    g: TypedExpression,
) -> Result<TypedExpression, CheckError>
    ensures { AgreesWith typed_expression_of result (unary_of_value at op (typed_expression_of g)) }
{
    if op == ASTERISK {
        indirection(alloc, at, g)
    } else if op == PLUS {
        plus(alloc, at, g)
    } else if op == MINUS {
        operator(alloc, at, UnOp::Minus, g)
    } else if op == TILDE {
        operator(alloc, at, UnOp::Complement, g)
    } else {
        negation(alloc, at, g)
    }
}

// `sizeof` of a type of known size with few cells.
fn size_of(
    env: &Environment<'_>,
    at: u32,
    place: u32,
    t: &CType,
) -> Result<TypedExpression, CheckError>
    ensures { AgreesWith typed_expression_of result (size_of (env_of env.now) at place (ctype_of t.now)) }
{
    complete(env, at, t)?;
    match env.cells(t) {
        Some(cells) => {
            if cells > 65_536 {
                return Err(CheckError::At(C13, place));
            }
            Ok(typed_unsigned(env.sizeof(t)))
        }
        None => Err(CheckError::At(C13, place)),
    }
}

/// `sizeof` of an expression (C99 6.5.3.4).
pub fn size_of_expression(
    env: &Environment<'_>,
    at: u32,
    g: &TypedExpression,
) -> Result<TypedExpression, CheckError>
    ensures { AgreesWith typed_expression_of result (size_of_expression (env_of env.now) at (typed_expression_of g.now)) }
{
    size_of(env, at, at, &g.ctype)
}

/// `sizeof` of the name of a type at a place (C99 6.5.3.4).
pub fn size_of_type(
    env: &Environment<'_>,
    at: u32,
    place: u32,
    t: &CType,
) -> Result<TypedExpression, CheckError>
    ensures { AgreesWith typed_expression_of result (size_of_type (env_of env.now) at place (ctype_of t.now)) }
{
    size_of(env, at, place, t)
}

// A cast to void.
fn discarded(alloc: Global, g: TypedExpression) -> Result<TypedExpression, OutOfMemory>
    ensures { IfOk result (λ r. typed_expression_of r ≡ typed_value void (discard void (tree_of (typed_expression_of g))) not_constant) }
{
    let tree = operand_tree(alloc, g)?;
    typed_value(alloc, CType::Void, TExprKind::Discard(tree), Constant::Not)
}

/// A cast to void, or of an integer to an integer type (C99 6.5.4).
pub fn cast_of(
    alloc: Global,
    at: u32,
    t: &CType,
    g: TypedExpression,
) -> Result<TypedExpression, CheckError>
    ensures { AgreesWith typed_expression_of result (cast_of at (ctype_of t.now) (typed_expression_of g)) }
{
    match t {
        CType::Void => answered(discarded(alloc, g)),
        CType::Int(i) => {
            if !is_integer(&g.ctype) {
                return Err(CheckError::At(C3, at));
            }
            answered(cast_to(alloc, *i, g))
        }
        _ => Err(CheckError::At(C3, at)),
    }
}

/// `(void *)` of a constant integer expression of value 0, which is a null pointer constant (C99 6.3.2.3 paragraph 3).
pub fn null_cast(alloc: Global, at: u32, g: &TypedExpression) -> Result<TypedExpression, CheckError>
    ensures { AgreesWith typed_expression_of result (null_cast at (typed_expression_of g.now)) }
{
    if !is_integer(&g.ctype) || !g.is_null() {
        return Err(CheckError::At(C3, at));
    }
    let void_pointer = pointer_to(alloc, &CType::Void)?;
    answered(null_of(alloc, &void_pointer))
}
