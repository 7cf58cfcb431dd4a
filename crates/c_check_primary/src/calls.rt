ghost use Rattle.std.specs.Prelude.{◌≡◌, ◌≤◌, map, IfOk};
ghost use Rattle.c_check_values.specs.Agreement.{AgreesWith};
ghost use Rattle.c_check_values.specs.TypedExpressionView.{typed_expression_of};
ghost use Rattle.c_check_primary.specs.CalleeView.{callee_of, designator_of};
ghost use Rattle.c_rules.specs.Checked.{fine};
ghost use Rattle.c_rules.specs.TypedExpression.{typed_value, not_constant};
ghost use Rattle.c_rules.specs.Limits.{most_calls};
ghost use Rattle.c_rules.specs.PostfixExpressions.{site_of, callee_of_type, callee_by_name, callee_through, callee_by_value, call_of, called};
ghost use Rattle.c_check_values.specs.View.{env_of};
ghost use Rattle.c_tree.specs.Tree.{pointer};
ghost use Rattle.c_tree.specs.View.{ctype_of, expr_of, exprs_of, types_of};

use crate::callee::{Callee, Designator};
use crate::names::{answered, function_number, used};
use crate::passing::{all_fit, as_many, passed};
use c_check_values::{
    C3, C5, C6, C13, CheckError, Constant, Context, Environment, TypedExpression, typed_value,
};
use c_tree::{CType, TExpr, TExprKind, copy_type, copy_types};
use dm_base::{Mode, OutOfMemory};
use dm_counts::Count;
use std::alloc::Global;

// The limit on the call expressions of a unit.
fn most_calls(mode: Mode) -> u32
    ensures is { result ≡ most_calls mode }
    ensures few { result ≤ 30000 }
{
    match mode {
        Mode::Plain => 10_000,
        Mode::Instrumented => 30_000,
    }
}

/// The site of a call; no call stands in the operand of `sizeof`, and one that is folded has no site.
pub fn site_of(env: &Environment<'_>, site: &Count, at: u32) -> Result<u32, CheckError>
    ensures { AgreesWith (λ n. n) result (site_of (env_of env.now) site.now at) }
{
    match env.context {
        Context::Evaluated => {
            let most = most_calls(env.mode);
            let Some(number) = site.number() else {
                return Err(CheckError::At(C13, at));
            };
            if number >= most {
                return Err(CheckError::At(C13, at));
            }
            Ok(number)
        }
        Context::Sized => Err(CheckError::At(C6, at)),
        Context::Folded => Ok(0),
    }
}

// A callee of this type.
#[tactic(auto, using(crate::proofs::CallLemmas::same_types))]
fn callee_with(
    alloc: Global,
    designator: Designator,
    returns: &CType,
    parameters: &[CType],
) -> Result<Callee, CheckError>
    ensures { AgreesWith callee_of result (fine (record { designator = designator_of designator; returns = ctype_of returns.now; parameters = types_of parameters.now })) }
{
    let returns = copy_type(alloc, returns)?;
    let parameters = copy_types(alloc, parameters)?;
    Ok(Callee {
        designator,
        returns,
        parameters,
    })
}

// A function of a type, by its number.
fn callee_of_type(alloc: Global, at: u32, t: &CType, f: u32) -> Result<Callee, CheckError>
    ensures { AgreesWith callee_of result (callee_of_type at (ctype_of t.now) f) }
{
    match t {
        CType::Function(returns, parameters) => {
            callee_with(alloc, Designator::Direct(f), returns, parameters)
        }
        _ => Err(CheckError::At(C3, at)),
    }
}

/// A function by its name, which has this type (C99 6.5.2.2).
pub fn callee_by_name(
    alloc: Global,
    env: &Environment<'_>,
    at: u32,
    name: &[u8],
    t: &CType,
) -> Result<Callee, CheckError>
    ensures { AgreesWith callee_of result (callee_by_name (env_of env.now) at name.now (ctype_of t.now)) }
{
    let f = used(env.context, at, function_number(env, name))?;
    callee_of_type(alloc, at, t, f)
}

// A callee behind a pointer to this type.
fn callee_behind(alloc: Global, at: u32, tree: TExpr, t: &CType) -> Result<Callee, CheckError>
    ensures { AgreesWith callee_of result (callee_through at (expr_of tree) (pointer (ctype_of t.now))) }
{
    match t {
        CType::Function(returns, parameters) => {
            callee_with(alloc, Designator::Through(tree), returns, parameters)
        }
        _ => Err(CheckError::At(C3, at)),
    }
}

// A callee behind a value of this type.
fn callee_through(alloc: Global, at: u32, tree: TExpr, t: &CType) -> Result<Callee, CheckError>
    ensures { AgreesWith callee_of result (callee_through at (expr_of tree) (ctype_of t.now)) }
{
    match t {
        CType::Pointer(target) => callee_behind(alloc, at, tree, target),
        _ => Err(CheckError::At(C3, at)),
    }
}

/// A value that is called, a pointer to a function (C99 6.5.2.2 paragraph 1).
pub fn callee_by_value(alloc: Global, at: u32, g: TypedExpression) -> Result<Callee, CheckError>
    ensures { AgreesWith callee_of result (callee_by_value at (typed_expression_of g)) }
{
    let ctype = copy_type(alloc, &g.ctype)?;
    let tree = g.into_tree(alloc)?;
    callee_through(alloc, at, tree, &ctype)
}

// A call of a designator that returns this, at a site, with these arguments.
fn call_of(
    alloc: Global,
    designator: Designator,
    returns: CType,
    site: u32,
    arguments: Vec<TExpr>,
) -> Result<TypedExpression, OutOfMemory>
    ensures { IfOk result (λ g. typed_expression_of g ≡ typed_value (ctype_of returns) (call_of (designator_of designator) (ctype_of returns) site (exprs_of arguments.items)) not_constant) }
{
    match designator {
        Designator::Direct(function) => typed_value(
            alloc,
            returns,
            TExprKind::Call {
                site,
                function,
                arguments,
            },
            Constant::Not,
        ),
        Designator::Through(tree) => typed_value(
            alloc,
            returns,
            TExprKind::CallThrough {
                site,
                designator: Box::new(alloc, tree)?,
                arguments,
            },
            Constant::Not,
        ),
    }
}

/// A call of what is called, with its site and its arguments (C99 6.5.2.2).
pub fn called(
    alloc: Global,
    at: u32,
    callee: Callee,
    site: u32,
    gs: Vec<TypedExpression>,
) -> Result<TypedExpression, CheckError>
    ensures { AgreesWith typed_expression_of result (called at (callee_of callee) site (map typed_expression_of gs.items)) }
{
    if !as_many(&callee.parameters, &gs) {
        return Err(CheckError::At(C5, at));
    }
    if !all_fit(&callee.parameters, &gs) {
        return Err(CheckError::At(C3, at));
    }
    let arguments = passed(alloc, &callee.parameters, gs)?;
    let (designator, returns, _parameters) = callee.into_parts();
    answered(call_of(alloc, designator, returns, site, arguments))
}
