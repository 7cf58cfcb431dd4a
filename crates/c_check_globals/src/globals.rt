ghost use Rattle.std.specs.Prelude.{◌≡◌, false, IfOk, OnOk};
ghost use Rattle.c_check_units.specs.Agreement.{AgreesWith};
ghost use Rattle.c_check_declarations.specs.ObjectView.{object_seen};
ghost use Rattle.c_rules.specs.Checked.{fine};
ghost use Rattle.c_rules.specs.Functions.{behind_function, function_declared};
ghost use Rattle.c_rules.specs.Items.{behind_global, global, global_declared, no_output, prototype};
ghost use Rattle.c_rules.specs.Objects.{object_declared};
ghost use Rattle.c_check_scopes.specs.Bound.{meaning_of};
ghost use Rattle.c_check_scopes.specs.View.{before_of, env_of};
ghost use Rattle.c_syntax.specs.UnitView.{maybe_init_of};
ghost use Rattle.c_syntax.specs.View.{declarator_of, ident_of, spec_of};

use c_check_declarations::{
    Object, declare_behind, declare_function, function_meaning, global_object, object_of,
    without_init,
};
use c_check_expressions::type_declared;
use c_check_scopes::{Before, Environment, Meaning};
use c_check_units::{CheckError, place_of_declarator};
use c_syntax::{Declarator, Ident, Init, Spec};
use std::alloc::Global;

// The object that a declarator with this name declares (C99 6.7 paragraph 7).
pub fn object_declared<'t>(
    alloc: Global,
    env: &mut Environment<'t>,
    at: u32,
    s: &'t Spec,
    d: &'t Declarator,
    x: &Ident,
    m: &Option<Init>,
) -> Result<Object, CheckError>
    ensures judged { AgreesWith object_seen result (object_declared (env_of env.old) at (spec_of s.now) (declarator_of d.now) (ident_of x.now) (maybe_init_of m.now)) }
    ensures kept { OnOk result (env.new ≡ env.old) }
{
    let ctype = type_declared(alloc, env, at, s, d)?;
    object_of(alloc, env, place_of_declarator(d), x.at, m, ctype)
}

// The same at file scope, with the demands on its name and on the cells of all.
pub fn global_declared<'t>(
    alloc: Global,
    env: &mut Environment<'t>,
    defined: bool,
    before: &Before<'t>,
    at: u32,
    s: &'t Spec,
    d: &'t Declarator,
    x: &Ident,
    m: &Option<Init>,
) -> Result<Object, CheckError>
    ensures judged { AgreesWith object_seen result (global_declared (env_of env.old) defined (before_of before.now) at (spec_of s.now) (declarator_of d.now) (ident_of x.now) (maybe_init_of m.now)) }
    ensures declared { IfOk result (λ o. object_declared (env_of env.old) at (spec_of s.now) (declarator_of d.now) (ident_of x.now) (maybe_init_of m.now) ≡ fine (object_seen o)) }
    ensures kept { OnOk result (env.new ≡ env.old) }
{
    let object = object_declared(alloc, env, at, s, d, x, m)?;
    global_object(env, defined, before, x, &object)?;
    Ok(object)
}

// The declaration of an object that doesn't define it (C99 6.9.2).
pub fn global_declaration<'t>(
    alloc: Global,
    env: &mut Environment<'t>,
    before: &Before<'t>,
    at: u32,
    s: &'t Spec,
    d: &'t Declarator,
    x: &'t Ident,
    m: &Option<Init>,
) -> Result<(), CheckError>
    ensures judged { AgreesWith (λ _. no_output) result (global (env_of env.old) false (before_of before.now) (ident_of x.now) (maybe_init_of m.now) (global_declared (env_of env.old) false (before_of before.now) at (spec_of s.now) (declarator_of d.now) (ident_of x.now) (maybe_init_of m.now))) }
    ensures behind { OnOk result (env_of env.new ≡ behind_global (env_of env.old) false (ident_of x.now) (global_declared (env_of env.old) false (before_of before.now) at (spec_of s.now) (declarator_of d.now) (ident_of x.now) (maybe_init_of m.now))) }
{
    let object = global_declared(alloc, env, false, before, at, s, d, x, m)?;
    declare_behind(alloc, env, false, x, &object)?;
    Ok(())
}

// What the name of a function means that a declarator declares.
fn function_declared<'t>(
    alloc: Global,
    env: &mut Environment<'t>,
    at: u32,
    s: &'t Spec,
    d: &'t Declarator,
    x: &Ident,
) -> Result<Meaning, CheckError>
    ensures judged { AgreesWith meaning_of result (function_declared (env_of env.old) false at (spec_of s.now) (declarator_of d.now) (ident_of x.now)) }
    ensures kept { OnOk result (env.new ≡ env.old) }
{
    let ctype = type_declared(alloc, env, at, s, d)?;
    function_meaning(env, false, x, ctype)
}

// The declaration of a function, which has no initialiser (C99 6.7.5.3, 6.7.8 paragraph 3).
pub fn prototype<'t>(
    alloc: Global,
    env: &mut Environment<'t>,
    at: u32,
    s: &'t Spec,
    d: &'t Declarator,
    x: &'t Ident,
    m: &Option<Init>,
) -> Result<(), CheckError>
    ensures judged { AgreesWith (λ _. no_output) result (prototype (maybe_init_of m.now) (function_declared (env_of env.old) false at (spec_of s.now) (declarator_of d.now) (ident_of x.now))) }
    ensures behind { OnOk result (env_of env.new ≡ behind_function (env_of env.old) x.now.name (function_declared (env_of env.old) false at (spec_of s.now) (declarator_of d.now) (ident_of x.now))) }
{
    let means = function_declared(alloc, env, at, s, d, x)?;
    without_init(m)?;
    declare_function(env, x.name.as_slice(), means)?;
    Ok(())
}
