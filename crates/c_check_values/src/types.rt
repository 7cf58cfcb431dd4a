ghost use Rattle.std.specs.Prelude.{◌≡◌, ◌+◌, ◌<◌, IfOk, IfSome, IfNone};
ghost use Rattle.c_check_scopes.specs.Conversions.{few_parts};
ghost use Rattle.c_check_scopes.specs.Types.{is_integer, is_void, is_function, is_scalar, is_result, same_type, parts, parts_of_all};
ghost use Rattle.c_tree.specs.Tree.{pointer};
ghost use Rattle.c_tree.specs.View.{ctype_of, types_of};

use c_tree::{CType, copy_type, is_same};
use dm_base::OutOfMemory;
use std::alloc::Global;

/// Whether it is an integer type (C99 6.2.5 paragraph 17).
pub fn is_integer(t: &CType) -> bool
    ensures { result ≡ is_integer (ctype_of t.now) }
{
    match t {
        CType::Int(_) => true,
        _ => false,
    }
}

/// Whether it is `void`.
pub fn is_void(t: &CType) -> bool
    ensures { result ≡ is_void (ctype_of t.now) }
{
    match t {
        CType::Void => true,
        _ => false,
    }
}

/// Whether it is the type of a function.
pub fn is_function(t: &CType) -> bool
    ensures { result ≡ is_function (ctype_of t.now) }
{
    match t {
        CType::Function(_, _) => true,
        _ => false,
    }
}

/// Whether it is an integer or a pointer (C99 6.2.5 paragraph 21).
pub fn is_scalar(t: &CType) -> bool
    ensures { result ≡ is_scalar (ctype_of t.now) }
{
    match t {
        CType::Int(_) | CType::Pointer(_) => true,
        _ => false,
    }
}

/// Whether a function may give it (C99 6.9.1 paragraph 3): nothing or a scalar.
pub fn is_result(t: &CType) -> bool
    ensures { result ≡ is_result (ctype_of t.now) }
{
    match t {
        CType::Void | CType::Int(_) | CType::Pointer(_) => true,
        _ => false,
    }
}

/// Whether two types are the same (C99 6.2.7; `const` isn't kept).
pub fn same_type(a: &CType, b: &CType) -> bool
    ensures { result ≡ same_type (ctype_of a.now) (ctype_of b.now) }
{
    is_same(a, b)
}

// What is left of a number of parts behind those of a type; None where it has more.
#[cycle(parts)]
fn left_of(t: &CType, most: u32) -> Option<u32>
    ensures some { IfSome result (λ left. left + parts (ctype_of t.now) ≡ most) }
    ensures none { IfNone result (most < parts (ctype_of t.now)) }
{
    match t {
        CType::Void | CType::Int(_) | CType::Struct(_) => Some(most),
        CType::Pointer(u) => left_of(u, most.checked_sub(1)?),
        CType::Array(u, _) => left_of(u, most.checked_sub(1)?),
        CType::Function(u, ts) => {
            let left = left_of(u, most.checked_sub(1)?)?;
            left_of_all(ts, left)
        }
    }
}

// The same behind several types, which are parts themselves.
#[cycle(parts)]
fn left_of_all(ts: &[CType], most: u32) -> Option<u32>
    ensures some { IfSome result (λ left. left + parts_of_all (types_of ts.now) ≡ most) }
    ensures none { IfNone result (most < parts_of_all (types_of ts.now)) }
{
    let mut left = most;
    for t in ts {
        left = left_of(t, left.checked_sub(1)?)?;
    }
    Some(left)
}

/// Whether it has at most 64 pointers, arrays, functions and parameters, a limit of the profile.
pub fn few_parts(t: &CType) -> bool
    ensures { result ≡ few_parts (ctype_of t.now) }
{
    left_of(t, 64).is_some()
}

/// The type of a pointer to a type.
pub fn pointer_to(alloc: Global, t: &CType) -> Result<CType, OutOfMemory>
    ensures { IfOk result (λ p. ctype_of p ≡ pointer (ctype_of t.now)) }
{
    let target = copy_type(alloc, t)?;
    Ok(CType::Pointer(Box::new(alloc, target)?))
}
