ghost use Rattle.std.specs.Prelude.{◌≡◌, IfOk};
ghost use Rattle.c_check_values.specs.Agreement.{AgreesWith};
ghost use Rattle.c_rules.specs.Declarators.{within_parts, pointer_to, array_of, function_of, parameter_of};
ghost use Rattle.c_rules.specs.Types.{adjusted};
ghost use Rattle.c_check_values.specs.View.{env_of};
ghost use Rattle.c_tree.specs.View.{ctype_of, types_of};

use c_check_values::{
    C3, C13, CType, CheckError, Environment, complete, copy_type, few_parts, is_result, is_scalar,
};
use dm_base::OutOfMemory;
use std::alloc::Global;

// The limit on the parts of a type.
fn within_parts(at: u32, t: CType) -> Result<CType, CheckError>
    ensures { AgreesWith ctype_of result (within_parts at (ctype_of t)) }
{
    if !few_parts(&t) {
        return Err(CheckError::At(C13, at));
    }
    Ok(t)
}

/// A pointer to a type (C99 6.7.5.1), which in this profile is neither void nor an array.
pub fn pointer_to(alloc: Global, at: u32, t: CType) -> Result<CType, CheckError>
    ensures { AgreesWith ctype_of result (pointer_to at (ctype_of t)) }
{
    match &t {
        CType::Void => Err(CheckError::At(C3, at)),
        CType::Array(_, _) => Err(CheckError::At(C3, at)),
        _ => within_parts(at, CType::Pointer(Box::new(alloc, t)?)),
    }
}

/// An array of a type (C99 6.7.5.2 paragraph 1), which in this profile is no array.
pub fn array_of(
    alloc: Global,
    env: &Environment<'_>,
    at: u32,
    t: CType,
    size: u32,
) -> Result<CType, CheckError>
    ensures { AgreesWith ctype_of result (array_of (env_of env.now) at (ctype_of t) size) }
{
    match &t {
        CType::Array(_, _) => Err(CheckError::At(C3, at)),
        _ => {
            complete(env, at, &t)?;
            within_parts(at, CType::Array(Box::new(alloc, t)?, size))
        }
    }
}

/// A function that returns a type (C99 6.7.5.3 paragraph 1), which in this profile is no struct.
pub fn function_of(
    alloc: Global,
    at: u32,
    t: CType,
    parameters: Vec<CType>,
) -> Result<CType, CheckError>
    ensures { AgreesWith ctype_of result (function_of at (ctype_of t) (types_of parameters.items)) }
{
    if !is_result(&t) {
        return Err(CheckError::At(C3, at));
    }
    if parameters.len() > 16 {
        return Err(CheckError::At(C13, at));
    }
    within_parts(at, CType::Function(Box::new(alloc, t)?, parameters))
}

// A parameter of array or function type is a pointer (C99 6.7.5.3 paragraphs 7 and 8).
fn adjusted(alloc: Global, t: CType) -> Result<CType, OutOfMemory>
    ensures { IfOk result (λ u. ctype_of u ≡ adjusted (ctype_of t)) }
{
    match &t {
        CType::Array(element, _) => {
            let element = copy_type(alloc, element)?;
            Ok(CType::Pointer(Box::new(alloc, element)?))
        }
        CType::Function(_, _) => Ok(CType::Pointer(Box::new(alloc, t)?)),
        _ => Ok(t),
    }
}

/// A parameter (C99 6.7.5.3 paragraphs 7 and 8), which in this profile is a scalar.
pub fn parameter_of(alloc: Global, at: u32, t: CType) -> Result<CType, CheckError>
    ensures { AgreesWith ctype_of result (parameter_of at (ctype_of t)) }
{
    let adjusted = adjusted(alloc, t)?;
    if !is_scalar(&adjusted) {
        return Err(CheckError::At(C3, at));
    }
    within_parts(at, adjusted)
}
