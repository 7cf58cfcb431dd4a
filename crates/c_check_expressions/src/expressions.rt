ghost use Rattle.std.specs.Prelude.{◌≡◌, map, OnOk};
ghost use Rattle.c_check_expressions.specs.Parts.{Declares, first_rule, type_of_param};
ghost use Rattle.c_check_types.specs.Agreement.{AgreesWith};
ghost use Rattle.c_check_types.specs.TypedExpressionView.{typed_expression_of};
ghost use Rattle.c_check_primary.specs.CalleeView.{callee_of};
ghost use Rattle.c_rules.specs.Checked.{on};
ghost use Rattle.c_rules.specs.Counts.{after, calls_of_all, strings_of_all, past, place_of};
ghost use Rattle.c_rules.specs.Declarators.{type_of_spec};
ghost use Rattle.c_rules.specs.Expressions.{tree, trees, value, callee, type_named, declared, size_in, parameters, folded_value, type_declared};
ghost use Rattle.c_rules.specs.Scopes.{in_context, inside, nothing_before, sized};
ghost use Rattle.c_check_counts.specs.View.{before_of, env_of};
ghost use Rattle.c_syntax.specs.View.{expr_of, declarator_of, spec_of, type_name_of};
ghost use Rattle.c_syntax.specs.Writes.{declarator_behind, declarator_in, expr_behind, exprs_of, params_of};
ghost use Rattle.c_tree.specs.View.{ctype_of, types_of};

use crate::counting::{next_site, next_string};
use crate::designators::direct_callee;
use crate::forms::{declare_parameter, is_void_pointer, place_or};
use crate::nodes::{comma_given, first_given, one_given, two_given};
use c_check_assignments::{cast_of, null_cast, size_of_expression, size_of_type};
use c_check_counts::{Before, Context, Environment, nothing_before};
use c_check_operators::choice;
use c_check_primary::{
    Callee, called, callee_by_value, integer_expression, named_expression, typed_int,
};
use c_check_types::{
    CheckError, TypedExpression, array_of, array_size, function_of, parameter_of, pointer_to,
    type_of_spec, valued,
};
use c_syntax::{Declarator, DeclaratorKind, Expr, ExprKind, Param, Spec, TypeName};
use c_tree::CType;
use std::alloc::Global;
use std::mem;

/// What an expression gives, where so much of the unit stands before it (C99 6.5).
#[cycle(expression)]
pub fn tree<'t>(
    alloc: Global,
    env: &mut Environment<'t>,
    before: &mut Before<'t>,
    e: &'t Expr,
) -> Result<TypedExpression, CheckError>
    ensures judged { AgreesWith typed_expression_of result (tree (env_of env.old) (before_of before.old) (expr_of e.now)) }
    ensures counted { OnOk result (before_of before.new ≡ after (before_of before.old) (expr_of e.now)) }
    ensures kept { OnOk result (env.new ≡ env.old) }
{
    match &e.kind {
        ExprKind::Name(name) => named_expression(alloc, env, e.at, name.as_slice()),
        ExprKind::Int { value, unsigned } => Ok(integer_expression(*value, *unsigned)),
        ExprKind::Char(c) => Ok(typed_int(*c)),
        ExprKind::Str(bytes) => next_string(alloc, env, before, e.at, bytes.as_slice()),
        ExprKind::Comma(es) => {
            let items = values(alloc, env, before, es)?;
            comma_given(alloc, items)
        }
        ExprKind::SizeofType(name) => {
            let ctype = type_named(alloc, env, name)?;
            size_of_type(env, e.at, name.at, &ctype)
        }
        ExprKind::Cast(name, a) => {
            let given = value(alloc, env, before, a)?;
            if is_void_pointer(name) {
                return null_cast(alloc, e.at, &given);
            }
            let ctype = type_named(alloc, env, name)?;
            cast_of(alloc, e.at, &ctype, given)
        }
        ExprKind::Call(designator, es) => {
            let callee = designated(alloc, env, before, e.at, designator)?;
            let site = next_site(env, before, e.at)?;
            let arguments = values(alloc, env, before, es)?;
            called(alloc, e.at, callee, site, arguments)
        }
        ExprKind::SizeofExpr(a) => {
            let given = unevaluated(alloc, env, a)?;
            size_of_expression(env, e.at, &given)
        }
        ExprKind::Member(a, _)
        | ExprKind::Arrow(a, _)
        | ExprKind::PostInc(a)
        | ExprKind::PostDec(a)
        | ExprKind::PreInc(a)
        | ExprKind::PreDec(a)
        | ExprKind::Unary(_, a) => {
            let given = tree(alloc, env, before, a)?;
            one_given(alloc, env, e, a.at, given)
        }
        ExprKind::Index(a, b)
        | ExprKind::And(a, b)
        | ExprKind::Or(a, b)
        | ExprKind::Binary(_, a, b)
        | ExprKind::Assign(_, a, b) => {
            let left = operand(alloc, env, before, a, e)?;
            let right = value(alloc, env, before, b)?;
            two_given(alloc, env, e, left, right)
        }
        ExprKind::Cond(c, a, b) => {
            let test = value(alloc, env, before, c)?;
            let left = value(alloc, env, before, a)?;
            let right = value(alloc, env, before, b)?;
            choice(alloc, e.at, test, left, right)
        }
    }
}

/// The value of an expression (C99 6.3.2.1).
#[cycle(expression)]
pub fn value<'t>(
    alloc: Global,
    env: &mut Environment<'t>,
    before: &mut Before<'t>,
    e: &'t Expr,
) -> Result<TypedExpression, CheckError>
    ensures judged { AgreesWith typed_expression_of result (value (env_of env.old) (before_of before.old) (expr_of e.now)) }
    ensures counted { OnOk result (before_of before.new ≡ after (before_of before.old) (expr_of e.now)) }
    ensures kept { OnOk result (env.new ≡ env.old) }
{
    let given = tree(alloc, env, before, e)?;
    valued(alloc, env, e.at, given)
}

// The first operand of a form with two (C99 6.5.2.1, 6.5.5 to 6.5.16): a value, and the target of an assignment.
#[cycle(expression)]
fn operand<'t>(
    alloc: Global,
    env: &mut Environment<'t>,
    before: &mut Before<'t>,
    e: &'t Expr,
    form: &'t Expr,
) -> Result<TypedExpression, CheckError>
    ensures judged { AgreesWith typed_expression_of result (on (tree (env_of env.old) (before_of before.old) (expr_of e.now)) (first_rule (env_of env.old) (expr_of form.now) (place_of (expr_of e.now)))) }
    ensures counted { OnOk result (before_of before.new ≡ after (before_of before.old) (expr_of e.now)) }
    ensures kept { OnOk result (env.new ≡ env.old) }
{
    let given = tree(alloc, env, before, e)?;
    first_given(alloc, env, form, e.at, given)
}

// What an operand gives that isn't evaluated (C99 6.5.3.4 paragraph 2).
#[cycle(expression)]
fn unevaluated<'t>(
    alloc: Global,
    env: &mut Environment<'t>,
    e: &'t Expr,
) -> Result<TypedExpression, CheckError>
    ensures judged { AgreesWith typed_expression_of result (tree (in_context (env_of env.old) sized) nothing_before (expr_of e.now)) }
    ensures kept { OnOk result (env.new ≡ env.old) }
{
    let outer = env.context;
    env.context = Context::Sized;
    let mut before = nothing_before(alloc);
    let given = tree(alloc, env, &mut before, e);
    env.context = outer;
    given
}

// The values of expressions, in order.
#[cycle(expression)]
fn values<'t>(
    alloc: Global,
    env: &mut Environment<'t>,
    before: &mut Before<'t>,
    es: &'t [Expr],
) -> Result<Vec<TypedExpression>, CheckError>
    ensures judged { AgreesWith (λ v. map typed_expression_of v.items) result (trees (env_of env.old) (before_of before.old) (exprs_of es.now)) }
    ensures counted { OnOk result (before_of before.new ≡ past (before_of before.old) (calls_of_all (exprs_of es.now)) (strings_of_all (exprs_of es.now))) }
    ensures kept { OnOk result (env.new ≡ env.old) }
{
    let mut given = Vec::new(alloc);
    for e in es {
        let one = value(alloc, env, before, e)?;
        given.push(one)?;
    }
    Ok(given)
}

// What is called (C99 6.5.2.2): the call is direct exactly where its designator is the name of a function.
#[cycle(expression)]
fn designated<'t>(
    alloc: Global,
    env: &mut Environment<'t>,
    before: &mut Before<'t>,
    at: u32,
    designator: &'t Expr,
) -> Result<Callee, CheckError>
    ensures judged { AgreesWith callee_of result (callee (env_of env.old) at (expr_of designator.now) (value (env_of env.old) (before_of before.old) (expr_of designator.now))) }
    ensures counted { OnOk result (before_of before.new ≡ after (before_of before.old) (expr_of designator.now)) }
    ensures kept { OnOk result (env.new ≡ env.old) }
{
    match direct_callee(alloc, env, at, designator) {
        Some(found) => found,
        None => {
            let given = value(alloc, env, before, designator)?;
            callee_by_value(alloc, at, given)
        }
    }
}

/// The type that a name of a type names (C99 6.7.6).
#[cycle(expression)]
pub fn type_named<'t>(
    alloc: Global,
    env: &mut Environment<'t>,
    name: &'t TypeName,
) -> Result<CType, CheckError>
    ensures judged { AgreesWith ctype_of result (type_named (env_of env.old) (type_name_of name.now)) }
    ensures kept { OnOk result (env.new ≡ env.old) }
{
    type_specified(alloc, env, name.at, &name.spec, &name.declarator)
}

// The type that specifiers and a declarator give, which may be left out.
#[cycle(expression)]
fn type_specified<'t>(
    alloc: Global,
    env: &mut Environment<'t>,
    at: u32,
    spec: &'t Spec,
    declarator: &'t Option<Declarator>,
) -> Result<CType, CheckError>
    ensures judged { AgreesWith ctype_of result (on (type_of_spec (env_of env.old) at (spec_of spec.now)) (declared (env_of env.old) (declarator_in declarator.now))) }
    ensures kept { OnOk result (env.new ≡ env.old) }
{
    let ctype = type_of_spec(env, at, spec)?;
    match declarator {
        Some(d) => declared(alloc, env, d, ctype),
        None => Ok(ctype),
    }
}

/// The type that a declarator makes of another one (C99 6.7.5 paragraph 4).
#[cycle(expression)]
pub fn declared<'t>(
    alloc: Global,
    env: &mut Environment<'t>,
    d: &'t Declarator,
    ctype: CType,
) -> Result<CType, CheckError>
    ensures judged { AgreesWith ctype_of result (declared (env_of env.old) (declarator_of d.now) (ctype_of ctype)) }
    ensures kept { OnOk result (env.new ≡ env.old) }
{
    match &d.kind {
        DeclaratorKind::Name(_) => Ok(ctype),
        DeclaratorKind::Pointer(inner) => {
            let pointer = pointer_to(alloc, d.at, ctype)?;
            declared_inside(alloc, env, inner, pointer)
        }
        DeclaratorKind::Array { inner, size } => {
            let length = size_in(alloc, env, size)?;
            let array = array_of(alloc, env, d.at, ctype, length)?;
            declared_inside(alloc, env, inner, array)
        }
        DeclaratorKind::Function { inner, params } => {
            let types = parameters_apart(alloc, env, params)?;
            let function = function_of(alloc, d.at, ctype, types)?;
            declared_inside(alloc, env, inner, function)
        }
    }
}

// The type that an inner declarator makes of another one.
#[cycle(expression)]
fn declared_inside<'t>(
    alloc: Global,
    env: &mut Environment<'t>,
    inner: &'t Option<Box<Declarator>>,
    ctype: CType,
) -> Result<CType, CheckError>
    ensures judged { AgreesWith ctype_of result (declared (env_of env.old) (declarator_behind inner.now) (ctype_of ctype)) }
    ensures kept { OnOk result (env.new ≡ env.old) }
{
    match inner {
        Some(d) => declared(alloc, env, d, ctype),
        None => Ok(ctype),
    }
}

// The size in an array declarator, 0 where there is none (C99 6.7.5.2).
#[cycle(expression)]
fn size_in<'t>(
    alloc: Global,
    env: &mut Environment<'t>,
    size: &'t Option<Box<Expr>>,
) -> Result<u32, CheckError>
    ensures judged { AgreesWith (λ n. n) result (size_in (env_of env.old) (expr_behind size.now)) }
    ensures kept { OnOk result (env.new ≡ env.old) }
{
    match size {
        None => Ok(0),
        Some(e) => {
            let given = folded_value(alloc, env, e)?;
            array_size(e.at, &given)
        }
    }
}

/// The value of an expression that is constant, which isn't evaluated when the program runs (C99 6.6).
#[cycle(expression)]
pub fn folded_value<'t>(
    alloc: Global,
    env: &mut Environment<'t>,
    e: &'t Expr,
) -> Result<TypedExpression, CheckError>
    ensures judged { AgreesWith typed_expression_of result (folded_value (env_of env.old) (expr_of e.now)) }
    ensures kept { OnOk result (env.new ≡ env.old) }
{
    let outer = env.context;
    env.context = Context::Folded;
    let mut before = nothing_before(alloc);
    let given = value(alloc, env, &mut before, e);
    env.context = outer;
    given
}

// The type of a parameter (C99 6.7.5.3 paragraphs 7 and 8).
#[cycle(expression)]
fn parameter_type<'t>(
    alloc: Global,
    env: &mut Environment<'t>,
    p: &'t Param,
) -> Result<CType, CheckError>
    ensures judged { AgreesWith ctype_of result (type_of_param (env_of env.old) p.now) }
    ensures kept { OnOk result (env.new ≡ env.old) }
{
    let ctype = type_specified(alloc, env, p.at, &p.spec, &p.declarator)?;
    parameter_of(alloc, place_or(p.at, &p.declarator), ctype)
}

// The types of parameters; the name of each is declared behind its declarator (C99 6.2.1 paragraph 7).
#[cycle(expression)]
fn parameters<'t>(
    alloc: Global,
    env: &mut Environment<'t>,
    params: &'t [Param],
) -> Result<Vec<CType>, CheckError>
    ensures judged { AgreesWith (λ v. types_of v.items) result (parameters (env_of env.old) 0 (params_of params.now)) }
    ensures kept { OnOk result (Declares env.old env.new) }
{
    let mut types = Vec::new(alloc);
    for p in params {
        let ctype = parameter_type(alloc, env, p)?;
        declare_parameter(alloc, env, p, &ctype)?;
        types.push(ctype)?;
    }
    Ok(types)
}

// The types of parameters in a scope of their own (C99 6.2.1 paragraph 4).
#[cycle(expression)]
fn parameters_apart<'t>(
    alloc: Global,
    env: &mut Environment<'t>,
    params: &'t [Param],
) -> Result<Vec<CType>, CheckError>
    ensures judged { AgreesWith (λ v. types_of v.items) result (parameters (inside (env_of env.old)) 0 (params_of params.now)) }
    ensures kept { OnOk result (env.new ≡ env.old) }
{
    let depth = env.depth.one_more()?;
    let outer = mem::replace(&mut env.depth, depth);
    let count = env.names.len();
    let types = parameters(alloc, env, params);
    env.names.leave(count);
    env.depth = outer;
    types
}

/// The type that a declaration gives to what a declarator declares (C99 6.7.5 paragraph 4).
pub fn type_declared<'t>(
    alloc: Global,
    env: &mut Environment<'t>,
    at: u32,
    spec: &'t Spec,
    d: &'t Declarator,
) -> Result<CType, CheckError>
    ensures judged { AgreesWith ctype_of result (type_declared (env_of env.old) at (spec_of spec.now) (declarator_of d.now)) }
    ensures kept { OnOk result (env.new ≡ env.old) }
{
    let ctype = type_of_spec(env, at, spec)?;
    declared(alloc, env, d, ctype)
}
