ghost use Rattle.std.specs.Prelude.{◌≡◌, ◌&&◌, not, false, Some, OnOk};
ghost use Rattle.c_check_units.specs.Agreement.{AgreesWith};
ghost use Rattle.c_check_units.specs.OutputView.{object_output, output_of};
ghost use Rattle.c_rules.specs.Checked.{gives};
ghost use Rattle.c_rules.specs.Declarators.{name_of};
ghost use Rattle.c_rules.specs.Functions.{declares_function};
ghost use Rattle.c_rules.specs.Items.{after_declared, after_file_part, after_file_parts, behind_declared, behind_file_part, behind_file_parts, declared_part, defines, file_parts, named_part, with_output};
ghost use Rattle.c_check_scopes.specs.View.{before_of, env_of};
ghost use Rattle.c_syntax.specs.UnitView.{maybe_init_of, parts_of, storage_of};
ghost use Rattle.c_syntax.specs.View.{declarator_of, ident_of, spec_of};

use crate::globals::{global_declaration, prototype};
use crate::objects::global_definition;
use c_check_scopes::{Before, Environment};
use c_check_units::{
    C3, CheckError, Output, add_object, declares_function, defines, name_of, place_of_declarator,
};
use c_syntax::{DeclPart, Declarator, Ident, Init, Spec, Storage};
use c_tree::Static;
use std::alloc::Global;

// The declaration of an object at file scope (C99 6.9.2).
fn object_part<'t>(
    alloc: Global,
    env: &mut Environment<'t>,
    before: &mut Before<'t>,
    at: u32,
    class: Storage,
    s: &'t Spec,
    d: &'t Declarator,
    m: &'t Option<Init>,
    x: &'t Ident,
) -> Result<Option<Static>, CheckError>
    ensures judged { AgreesWith object_output result (declared_part (env_of env.old) (before_of before.old) at (storage_of class) (spec_of s.now) (declarator_of d.now) (maybe_init_of m.now) false (ident_of x.now)) }
    ensures behind { OnOk result (env_of env.new ≡ behind_declared (env_of env.old) (before_of before.old) at (storage_of class) (spec_of s.now) (declarator_of d.now) (maybe_init_of m.now) false (ident_of x.now)) }
    ensures counted { OnOk result (before_of before.new ≡ after_declared (env_of env.old) (before_of before.old) at (spec_of s.now) (declarator_of d.now) (maybe_init_of m.now) (defines (storage_of class) (maybe_init_of m.now)) (Some (ident_of x.now))) }
{
    if !defines(class, m) {
        global_declaration(alloc, env, before, at, s, d, x, m)?;
        return Ok(None);
    }
    let object = global_definition(alloc, env, before, at, s, d, x, m)?;
    Ok(Some(object))
}

// One declarator with its name and its initialiser.
fn declared_part<'t>(
    alloc: Global,
    env: &mut Environment<'t>,
    before: &mut Before<'t>,
    at: u32,
    class: Storage,
    s: &'t Spec,
    d: &'t Declarator,
    m: &'t Option<Init>,
    x: &'t Ident,
) -> Result<Option<Static>, CheckError>
    ensures judged { AgreesWith object_output result (declared_part (env_of env.old) (before_of before.old) at (storage_of class) (spec_of s.now) (declarator_of d.now) (maybe_init_of m.now) (declares_function (declarator_of d.now)) (ident_of x.now)) }
    ensures behind { OnOk result (env_of env.new ≡ behind_declared (env_of env.old) (before_of before.old) at (storage_of class) (spec_of s.now) (declarator_of d.now) (maybe_init_of m.now) (declares_function (declarator_of d.now)) (ident_of x.now)) }
    ensures counted { OnOk result (before_of before.new ≡ after_declared (env_of env.old) (before_of before.old) at (spec_of s.now) (declarator_of d.now) (maybe_init_of m.now) (not (declares_function (declarator_of d.now)) && defines (storage_of class) (maybe_init_of m.now)) (Some (ident_of x.now))) }
{
    if declares_function(d) {
        prototype(alloc, env, at, s, d, x, m)?;
        return Ok(None);
    }
    object_part(alloc, env, before, at, class, s, d, m, x)
}

// One declarator with its initialiser.
fn named_part<'t>(
    alloc: Global,
    env: &mut Environment<'t>,
    before: &mut Before<'t>,
    at: u32,
    class: Storage,
    s: &'t Spec,
    d: &'t Declarator,
    m: &'t Option<Init>,
) -> Result<Option<Static>, CheckError>
    ensures judged { AgreesWith object_output result (named_part (env_of env.old) (before_of before.old) at (storage_of class) (spec_of s.now) (declarator_of d.now) (maybe_init_of m.now) (name_of (declarator_of d.now))) }
    ensures behind { OnOk result (env_of env.new ≡ behind_file_part (env_of env.old) (before_of before.old) at (storage_of class) (spec_of s.now) (declarator_of d.now) (maybe_init_of m.now)) }
    ensures counted { OnOk result (before_of before.new ≡ after_file_part (env_of env.old) (before_of before.old) at (storage_of class) (spec_of s.now) (declarator_of d.now) (maybe_init_of m.now)) }
{
    match name_of(d) {
        Some(x) => declared_part(alloc, env, before, at, class, s, d, m, x),
        None => Err(CheckError::At(C3, place_of_declarator(d))),
    }
}

// Adds what one declarator with its initialiser defines.
fn add_part<'t>(
    alloc: Global,
    env: &mut Environment<'t>,
    before: &mut Before<'t>,
    into: &mut Output,
    at: u32,
    class: Storage,
    s: &'t Spec,
    p: &'t DeclPart,
) -> Result<(), CheckError>
    ensures judged { AgreesWith (λ _. output_of into.new) result (gives (named_part (env_of env.old) (before_of before.old) at (storage_of class) (spec_of s.now) (declarator_of p.now.declarator) (maybe_init_of p.now.init) (name_of (declarator_of p.now.declarator))) (with_output (output_of into.old))) }
    ensures behind { OnOk result (env_of env.new ≡ behind_file_part (env_of env.old) (before_of before.old) at (storage_of class) (spec_of s.now) (declarator_of p.now.declarator) (maybe_init_of p.now.init)) }
    ensures counted { OnOk result (before_of before.new ≡ after_file_part (env_of env.old) (before_of before.old) at (storage_of class) (spec_of s.now) (declarator_of p.now.declarator) (maybe_init_of p.now.init)) }
{
    let object = named_part(alloc, env, before, at, class, s, &p.declarator, &p.init)?;
    add_object(into, object)?;
    Ok(())
}

// Adds what a declaration at file scope defines (C99 6.7, 6.9.2).
pub fn add_parts<'t>(
    alloc: Global,
    env: &mut Environment<'t>,
    before: &mut Before<'t>,
    into: &mut Output,
    at: u32,
    class: Storage,
    s: &'t Spec,
    ps: &'t [DeclPart],
) -> Result<(), CheckError>
    ensures judged { AgreesWith (λ _. output_of into.new) result (gives (file_parts (env_of env.old) (before_of before.old) at (storage_of class) (spec_of s.now) (parts_of ps.now)) (with_output (output_of into.old))) }
    ensures behind { OnOk result (env_of env.new ≡ behind_file_parts (env_of env.old) (before_of before.old) at (storage_of class) (spec_of s.now) (parts_of ps.now)) }
    ensures counted { OnOk result (before_of before.new ≡ after_file_parts (env_of env.old) (before_of before.old) at (storage_of class) (spec_of s.now) (parts_of ps.now)) }
{
    for p in ps {
        add_part(alloc, env, before, into, at, class, s, p)?;
    }
    Ok(())
}
