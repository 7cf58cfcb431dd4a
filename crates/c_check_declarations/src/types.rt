ghost use Rattle.std.specs.Prelude.{◌≡◌};
ghost use Rattle.c_check_values.specs.Agreement.{AgreesWith};
ghost use Rattle.c_check_declarations.specs.ObjectView.{object_seen};
ghost use Rattle.c_check_declarations.specs.Texts.{is_unsized};
ghost use Rattle.c_rules.specs.Items.{member_typed};
ghost use Rattle.c_rules.specs.Objects.{of_known_size, object_of};
ghost use Rattle.c_check_values.specs.View.{env_of};
ghost use Rattle.c_syntax.specs.UnitView.{maybe_init_of};
ghost use Rattle.c_tree.specs.View.{ctype_of};

use crate::sizes::with_size;
use c_check_values::{C13, C14, CheckError, Environment, complete};
use c_syntax::Init;
use c_tree::{CType, copy_type};
use std::alloc::Global;

/// A declared object. Its types differ where its initialiser gives an array its size.
#[derive(Drop)]
pub struct Object {
    /// The type that it has within its own initialiser.
    pub seen: CType,
    /// Its type.
    pub whole: CType,
}

// An object of known size with few cells (C99 5.2.4.1, 6.7 paragraph 7).
fn of_known_size(env: &Environment<'_>, place: u32, name: u32, t: &CType) -> Result<(), CheckError>
    ensures { AgreesWith (λ _. ctype_of t.now) result (of_known_size (env_of env.now) place name (ctype_of t.now)) }
{
    complete(env, place, t)?;
    match env.cells(t) {
        Some(cells) => {
            if cells > 65536 {
                return Err(CheckError::At(C13, name));
            }
            Ok(())
        }
        None => Err(CheckError::At(C13, name)),
    }
}

// Whether it is an array without a size.
fn is_unsized(t: &CType) -> bool
    ensures { result ≡ is_unsized (ctype_of t.now) }
{
    match t {
        CType::Array(_, n) => *n == 0,
        _ => false,
    }
}

/// The demands on the type of a member whose declarator stands at this place and has its name there: it is that of an object of known
/// size (C99 6.7.2.1 paragraph 2).
#[tactic(auto, using(crate::proofs::ObjectLemmas::incomplete_fails, crate::proofs::ObjectLemmas::member_fits))]
pub fn member_typed(
    env: &Environment<'_>,
    place: u32,
    name: u32,
    t: &CType,
) -> Result<(), CheckError>
    ensures { AgreesWith (λ _. ctype_of t.now) result (member_typed (env_of env.now) place name (ctype_of t.now)) }
{
    if is_unsized(t) {
        return Err(CheckError::At(C14, name));
    }
    match complete(env, place, t) {
        Ok(()) => Ok(()),
        Err(e) => Err(e),
    }
}

/// The object whose declarator at this place gives this type, with its name there (C99 6.7 paragraph 7, 6.7.8 paragraph 22).
pub fn object_of(
    alloc: Global,
    env: &Environment<'_>,
    place: u32,
    name: u32,
    m: &Option<Init>,
    t: CType,
) -> Result<Object, CheckError>
    ensures { AgreesWith object_seen result (object_of (env_of env.now) place name (maybe_init_of m.now) (ctype_of t)) }
{
    let seen = copy_type(alloc, &t)?;
    let whole = with_size(alloc, name, m, t)?;
    of_known_size(env, place, name, &whole)?;
    Ok(Object { seen, whole })
}
