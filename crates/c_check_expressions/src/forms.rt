ghost use Rattle.std.specs.Prelude.{◌≡◌, suc, IfOk, OnOk};
ghost use Rattle.c_syntax.specs.SeenNames.{ident_seen};
ghost use Rattle.c_check_expressions.specs.Parts.{Declares, name_of_param};
ghost use Rattle.c_check_types.specs.Agreement.{AgreesWith};
ghost use Rattle.c_rules.specs.Checked.{fine};
ghost use Rattle.c_rules.specs.Declarators.{behind_parameter, is_bare_pointer, is_void_pointer, name_of, place_or, with_name_demands};
ghost use Rattle.c_rules.specs.Scopes.{a_local, with_name};
ghost use Rattle.c_check_counts.specs.View.{env_of};
ghost use Rattle.c_syntax.specs.View.{declarator_of, type_name_of};
ghost use Rattle.c_syntax.specs.Writes.{declarator_in};
ghost use Rattle.c_tree.specs.View.{ctype_of};

use c_check_counts::{Environment, Meaning, name_of};
use c_check_types::{CheckError, new_name};
use c_syntax::{Declarator, DeclaratorKind, Ident, Param, Spec, TypeName};
use c_tree::{CType, copy_type};
use dm_base::OutOfMemory;
use std::alloc::Global;

// Whether it is `*` alone.
fn is_bare_pointer(d: &Declarator) -> bool
    ensures { result ≡ is_bare_pointer (declarator_of d.now) }
{
    match &d.kind {
        DeclaratorKind::Name(_) => false,
        DeclaratorKind::Pointer(inner) => inner.is_none(),
        DeclaratorKind::Array { .. } => false,
        DeclaratorKind::Function { .. } => false,
    }
}

// Whether it is `*` alone, where it may be left out.
fn is_pointer_alone(d: &Option<Declarator>) -> bool
    ensures { result ≡ is_bare_pointer (declarator_in d.now) }
{
    match d {
        Some(d) => is_bare_pointer(d),
        None => false,
    }
}

// Whether it is `void *` (C99 6.3.2.3 paragraph 3).
#[tactic(auto, using(crate::proofs::Parameters::void_pointer))]
pub fn is_void_pointer(name: &TypeName) -> bool
    ensures { result ≡ is_void_pointer (type_name_of name.now) }
{
    match &name.spec {
        Spec::Void => is_pointer_alone(&name.declarator),
        _ => false,
    }
}

// The place of a declarator, or another one where there is none.
pub fn place_or(at: u32, d: &Option<Declarator>) -> u32
    ensures { result ≡ place_or at (declarator_in d.now) }
{
    match d {
        Some(d) => d.at,
        None => at,
    }
}

// The name that a declarator declares, where it has one.
fn name_in(d: &Option<Declarator>) -> Option<&Ident>
    ensures { ident_seen result ≡ name_of (declarator_in d.now) }
{
    match d {
        Some(d) => name_of(d),
        None => None,
    }
}

// Declares a variable with this number and type (C99 6.2.1 paragraph 7).
fn declare_variable<'t>(
    alloc: Global,
    env: &mut Environment<'t>,
    number: u32,
    x: &'t Ident,
    ctype: &CType,
) -> Result<(), OutOfMemory>
    ensures meant { OnOk result (env_of env.new ≡ with_name (env_of env.old) x.now.name (a_local number (ctype_of ctype.now) (ctype_of ctype.now))) }
    ensures kept { OnOk result (Declares env.old env.new) }
{
    let depth = env.depth.copy()?;
    let seen = copy_type(alloc, ctype)?;
    let whole = copy_type(alloc, ctype)?;
    let means = Meaning::Local {
        number,
        seen,
        whole,
    };
    env.names.declare(x.name.as_slice(), depth, means)
}

// Declares the name of a parameter of this type, where it has one (C99 6.2.1 paragraph 7). It has a number of its own in the body of a
// definition alone.
pub fn declare_parameter<'t>(
    alloc: Global,
    env: &mut Environment<'t>,
    p: &'t Param,
    ctype: &CType,
) -> Result<(), CheckError>
    ensures judged { AgreesWith (λ _. ctype_of ctype.now) result (with_name_demands (env_of env.old) (name_of_param p.now) (fine (ctype_of ctype.now))) }
    ensures meant { OnOk result (env_of env.new ≡ behind_parameter (env_of env.old) 0 (name_of_param p.now) (fine (ctype_of ctype.now))) }
    ensures kept { OnOk result (Declares env.old env.new) }
{
    match name_in(&p.declarator) {
        None => Ok(()),
        Some(x) => {
            new_name(env, x)?;
            declare_variable(alloc, env, 0, x, ctype)?;
            Ok(())
        }
    }
}
