ghost use Rattle.std.specs.Prelude.{◌≡◌, IfOk};
ghost use Rattle.c_check_values.specs.Agreement.{AgreesWith};
ghost use Rattle.c_check_values.specs.TypedExpressionView.{typed_expression_of};
ghost use Rattle.c_check_scopes.specs.Checked.{fine, met};
ghost use Rattle.c_check_scopes.specs.Conversions.{is_defined, complete, valued, null_of, fits, assigned, as_if_assigned, condition};
ghost use Rattle.c_check_scopes.specs.Scopes.{struct_of};
ghost use Rattle.c_check_scopes.specs.View.{env_of};
ghost use Rattle.c_tree.specs.View.{ctype_of, expr_of};

use crate::codes::{C3, C13};
use crate::error::CheckError;
use crate::integers::converted_to;
use crate::typed_expression::TypedExpression;
use crate::types::{few_parts, is_integer, is_scalar, pointer_to, same_type};
use crate::values::{decayed_array, decayed_function, loaded, null_of};
use c_check_scopes::Environment;
use c_tree::{CType, TExpr, copy_type};
use dm_base::OutOfMemory;
use std::alloc::Global;

// A struct whose definition stands before.
fn is_defined(env: &Environment<'_>, at: u32, s: u32) -> Result<(), CheckError>
    ensures { AgreesWith (λ _. met) result (is_defined at (struct_of (env_of env.now) s)) }
{
    match env.members(s) {
        Some(_) => Ok(()),
        None => Err(CheckError::At(C3, at)),
    }
}

/// Demands the type of an object of known size (C99 6.2.5 paragraph 1).
pub fn complete(env: &Environment<'_>, at: u32, t: &CType) -> Result<(), CheckError>
    ensures { AgreesWith (λ _. met) result (complete (env_of env.now) at (ctype_of t.now)) }
{
    match t {
        CType::Void | CType::Function(_, _) => Err(CheckError::At(C3, at)),
        CType::Int(_) | CType::Pointer(_) => Ok(()),
        CType::Array(_, n) => {
            if *n == 0 {
                return Err(CheckError::At(C3, at));
            }
            Ok(())
        }
        CType::Struct(s) => is_defined(env, at, *s),
    }
}

// What an expression gives, which only wants memory.
fn answered(one: Result<TypedExpression, OutOfMemory>) -> Result<TypedExpression, CheckError>
    ensures { (g : Rattle.c_check_scopes.specs.TypedExpression.TypedExpression) → IfOk one (λ r. typed_expression_of r ≡ g) → AgreesWith typed_expression_of result (fine g) }
{
    Ok(one?)
}

/// What gives a value where a value is asked (C99 6.3.2.1): a scalar place its value, an array a pointer to its first
/// element, a function a pointer to it. A struct gives none in this profile.
pub fn valued(
    alloc: Global,
    env: &Environment<'_>,
    at: u32,
    g: TypedExpression,
) -> Result<TypedExpression, CheckError>
    ensures { AgreesWith typed_expression_of result (valued (env_of env.now) at (typed_expression_of g)) }
{
    match &g.ctype {
        CType::Void | CType::Int(_) | CType::Pointer(_) => answered(loaded(alloc, g)),
        CType::Array(element, _) => {
            let element = copy_type(alloc, element)?;
            answered(decayed_array(alloc, env, element, g))
        }
        CType::Struct(_) => Err(CheckError::At(C3, at)),
        CType::Function(_, _) => {
            let pointer = pointer_to(alloc, &g.ctype)?;
            if !few_parts(&pointer) {
                return Err(CheckError::At(C13, at));
            }
            answered(decayed_function(alloc, pointer, g))
        }
    }
}

/// Whether a value may be assigned to an object of a type (C99 6.5.16.1): an integer to an integer; a pointer to one of
/// its type; a null pointer constant to a pointer.
pub fn fits(t: &CType, g: &TypedExpression) -> bool
    ensures { result ≡ fits (ctype_of t.now) (typed_expression_of g.now) }
{
    match t {
        CType::Int(_) => is_integer(&g.ctype),
        CType::Pointer(_) => {
            if g.is_null() {
                return true;
            }
            same_type(t, &g.ctype)
        }
        _ => false,
    }
}

/// A value that fits in the type of the object.
pub fn assigned(
    alloc: Global,
    t: &CType,
    g: TypedExpression,
) -> Result<TypedExpression, OutOfMemory>
    ensures { IfOk result (λ r. typed_expression_of r ≡ assigned (ctype_of t.now) (typed_expression_of g)) }
{
    match t {
        CType::Int(i) => converted_to(alloc, *i, g),
        CType::Pointer(_) => {
            if g.is_null() {
                return null_of(alloc, t);
            }
            Ok(g)
        }
        _ => Ok(g),
    }
}

/// The conversion as if by assignment, and its demand (C99 6.5.16.1).
pub fn as_if_assigned(
    alloc: Global,
    at: u32,
    t: &CType,
    g: TypedExpression,
) -> Result<TypedExpression, CheckError>
    ensures { AgreesWith typed_expression_of result (as_if_assigned at (ctype_of t.now) (typed_expression_of g)) }
{
    if !fits(t, &g) {
        return Err(CheckError::At(C3, at));
    }
    answered(assigned(alloc, t, g))
}

/// A condition, which is a scalar (C99 6.8.4.1 paragraph 1, 6.8.5 paragraph 2).
pub fn condition(alloc: Global, at: u32, g: TypedExpression) -> Result<TExpr, CheckError>
    ensures { AgreesWith expr_of result (condition at (typed_expression_of g)) }
{
    if !is_scalar(&g.ctype) {
        return Err(CheckError::At(C3, at));
    }
    Ok(g.into_tree(alloc)?)
}
