ghost use Rattle.std.specs.Prelude.{◌≡◌, OnOk};
ghost use Rattle.c_check_values.specs.Agreement.{AgreesWith};
ghost use Rattle.c_check_declarations.specs.ObjectView.{object_seen};
ghost use Rattle.c_rules.specs.Checked.{fine, met};
ghost use Rattle.c_rules.specs.Items.{few_static, global_object, behind_global, within_global};
ghost use Rattle.c_check_values.specs.View.{before_of, env_of};
ghost use Rattle.c_syntax.specs.View.{ident_of};
ghost use Rattle.c_tree.specs.View.{ctype_of};

use crate::declared::declare;
use crate::objects::{is_defined_behind, object_name};
use crate::types::Object;
use c_check_values::{Before, C13, CheckError, Environment, Meaning};
use c_syntax::Ident;
use c_tree::{CType, copy_type};
use dm_base::OutOfMemory;
use std::alloc::Global;

// The limit on the cells of static objects and strings (C99 5.2.4.1).
fn few_static(
    env: &Environment<'_>,
    defined: bool,
    before: &Before<'_>,
    x: &Ident,
    t: &CType,
) -> Result<(), CheckError>
    ensures { AgreesWith (λ _. met) result (few_static (env_of env.now) defined (before_of before.now) (ident_of x.now) (ctype_of t.now)) }
{
    if !defined {
        return Ok(());
    }
    let Some(own) = env.cells(t) else {
        return Err(CheckError::At(C13, x.at));
    };
    let Some(cells) = before.cells().number() else {
        return Err(CheckError::At(C13, x.at));
    };
    let Some(all) = cells.checked_add(own) else {
        return Err(CheckError::At(C13, x.at));
    };
    if all > 1048576 {
        return Err(CheckError::At(C13, x.at));
    }
    Ok(())
}

/// The demands on an object at file scope with this name, which is declared or defined: on its name and on the cells of all (C99 5.2.4.1, 6.7
/// paragraph 4, 6.9 paragraph 5).
pub fn global_object(
    env: &Environment<'_>,
    defined: bool,
    before: &Before<'_>,
    x: &Ident,
    o: &Object,
) -> Result<(), CheckError>
    ensures { AgreesWith (λ _. object_seen o.now) result (global_object (env_of env.now) defined (before_of before.now) (ident_of x.now) (object_seen o.now)) }
{
    object_name(env, defined, x, &o.whole)?;
    few_static(env, defined, before, x, &o.whole)
}

/// Declares an object at file scope with the type that it has within its own initialiser (C99 6.2.1 paragraph 7).
pub fn declare_within<'t>(
    alloc: Global,
    env: &mut Environment<'t>,
    defined: bool,
    x: &'t Ident,
    o: &Object,
) -> Result<(), OutOfMemory>
    ensures { OnOk result (env_of env.new ≡ within_global (env_of env.old) defined (ident_of x.now) (fine (object_seen o.now))) }
{
    let name = x.name.as_slice();
    let seen = copy_type(alloc, &o.seen)?;
    let whole = copy_type(alloc, &o.whole)?;
    let defined = is_defined_behind(env, defined, name);
    declare(
        env,
        name,
        Meaning::Static {
            seen,
            whole,
            defined,
        },
    )
}

/// Declares an object at file scope with its type.
pub fn declare_behind<'t>(
    alloc: Global,
    env: &mut Environment<'t>,
    defined: bool,
    x: &'t Ident,
    o: &Object,
) -> Result<(), OutOfMemory>
    ensures { OnOk result (env_of env.new ≡ behind_global (env_of env.old) defined (ident_of x.now) (fine (object_seen o.now))) }
{
    let name = x.name.as_slice();
    let seen = copy_type(alloc, &o.whole)?;
    let whole = copy_type(alloc, &o.whole)?;
    let defined = is_defined_behind(env, defined, name);
    declare(
        env,
        name,
        Meaning::Static {
            seen,
            whole,
            defined,
        },
    )
}
