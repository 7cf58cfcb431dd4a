ghost use Rattle.std.specs.Prelude.{◌≡◌, ◌+◌, ◌≤◌, [], ◌∷◌, true, OnOk};
ghost use Rattle.c_check_units.specs.Agreement.{AgreesWith};
ghost use Rattle.c_check_expressions.specs.CellView.{typed_expressions_of};
ghost use Rattle.c_check_declarations.specs.ObjectView.{object_seen};
ghost use Rattle.c_rules.specs.Checked.{fine};
ghost use Rattle.c_rules.specs.Counts.{past};
ghost use Rattle.c_rules.specs.Initialisers.{calls_of_maybe_init, held_by, initialised_static};
ghost use Rattle.c_rules.specs.Items.{after_global, after_object, behind_global, global, global_declared, within_global};
ghost use Rattle.c_rules.specs.Limits.{most_static_cells};
ghost use Rattle.c_rules.specs.Objects.{object_declared};
ghost use Rattle.c_rules.specs.Scopes.{layout_of};
ghost use Rattle.c_check_scopes.specs.View.{before_of, env_of};
ghost use Rattle.c_syntax.specs.UnitView.{maybe_init_of};
ghost use Rattle.c_syntax.specs.View.{declarator_of, ident_of, spec_of};
ghost use Rattle.c_tree.specs.Layout.{cells};
ghost use Rattle.c_tree.specs.View.{ctype_of, static_of};

use crate::globals::global_declared;
use c_check_declarations::{Object, count_object, declare_behind, declare_within, static_object};
use c_check_expressions::initialised_static;
use c_check_scopes::{Before, Environment};
use c_check_units::{CheckError, TypedExpression, count_names, leave};
use c_syntax::{Declarator, Ident, Init, Spec};
use c_tree::Static;
use std::alloc::Global;

// The cells of an object at file scope that its initialiser gives, within which the object is known (C99 6.2.1 paragraph 7).
fn cells_of_object<'t>(
    alloc: Global,
    env: &mut Environment<'t>,
    before: &mut Before<'t>,
    x: &'t Ident,
    m: &'t Option<Init>,
    o: &Object,
) -> Result<Vec<TypedExpression>, CheckError>
    requires { (before_of before.old).cells + cells (layout_of (env_of env.old)) (ctype_of o.now.whole) ≤ most_static_cells }
    ensures judged { AgreesWith (λ v. typed_expressions_of v.items) result (initialised_static (within_global (env_of env.old) true (ident_of x.now) (fine (object_seen o.now))) (after_object (env_of env.old) (before_of before.old) (ctype_of o.now.whole)) (ctype_of o.now.whole) (maybe_init_of m.now)) }
    ensures kept { OnOk result (env_of env.new ≡ env_of env.old) }
    ensures counted { OnOk result (before_of before.new ≡ past (after_object (env_of env.old) (before_of before.old) (ctype_of o.now.whole)) (calls_of_maybe_init (maybe_init_of m.now)) (held_by (env_of env.old) (ctype_of o.now.whole) (maybe_init_of m.now))) }
{
    let count = count_names(env);
    let depth = env.depth.copy()?;
    declare_within(alloc, env, true, x, o)?;
    count_object(env, before, &o.whole)?;
    let cells = initialised_static(alloc, env, before, &o.whole, m)?;
    leave(env, count, depth);
    Ok(cells)
}

// The definition of an object at file scope (C99 6.9.2).
pub fn global_definition<'t>(
    alloc: Global,
    env: &mut Environment<'t>,
    before: &mut Before<'t>,
    at: u32,
    s: &'t Spec,
    d: &'t Declarator,
    x: &'t Ident,
    m: &'t Option<Init>,
) -> Result<Static, CheckError>
    ensures judged { AgreesWith (λ o. record { functions = []; statics = static_of o ∷ [] }) result (global (env_of env.old) true (before_of before.old) (ident_of x.now) (maybe_init_of m.now) (global_declared (env_of env.old) true (before_of before.old) at (spec_of s.now) (declarator_of d.now) (ident_of x.now) (maybe_init_of m.now))) }
    ensures behind { OnOk result (env_of env.new ≡ behind_global (env_of env.old) true (ident_of x.now) (global_declared (env_of env.old) true (before_of before.old) at (spec_of s.now) (declarator_of d.now) (ident_of x.now) (maybe_init_of m.now))) }
    ensures counted { OnOk result (before_of before.new ≡ after_global (env_of env.old) (before_of before.old) (maybe_init_of m.now) (object_declared (env_of env.old) at (spec_of s.now) (declarator_of d.now) (ident_of x.now) (maybe_init_of m.now))) }
{
    let object = global_declared(alloc, env, true, before, at, s, d, x, m)?;
    let cells = cells_of_object(alloc, env, before, x, m, &object)?;
    declare_behind(alloc, env, true, x, &object)?;
    Ok(static_object(alloc, object, &cells)?)
}
