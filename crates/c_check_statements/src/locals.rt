ghost use Rattle.std.specs.Prelude.{◌≡◌, ◌≤◌, Some, OnOk};
ghost use Rattle.c_check_expressions.specs.CellView.{cells_of};
ghost use Rattle.c_check_bodies.specs.Numbered.{next_of};
ghost use Rattle.c_check_declarations.specs.Agreement.{AgreesWith};
ghost use Rattle.c_check_bodies.specs.StatementTreeView.{statement_tree_of};
ghost use Rattle.c_check_bodies.specs.Scoped.{Declares};
ghost use Rattle.c_check_declarations.specs.ObjectView.{object_seen};
ghost use Rattle.c_rules.specs.Blocks.{behind_local, behind_named, held_by_named, held_by_object, local, local_named};
ghost use Rattle.c_rules.specs.Counts.{past};
ghost use Rattle.c_rules.specs.Declarators.{place_or};
ghost use Rattle.c_rules.specs.Expressions.{type_declared};
ghost use Rattle.c_rules.specs.Initialisers.{calls_of_maybe_init, held_by, initialised_local};
ghost use Rattle.c_rules.specs.Limits.{most_cells};
ghost use Rattle.c_rules.specs.Names.{given_names, number_among};
ghost use Rattle.c_rules.specs.Objects.{object_declared};
ghost use Rattle.c_rules.specs.Scopes.{a_local, layout_of, with_name};
ghost use Rattle.c_check_scopes.specs.View.{before_of, env_of};
ghost use Rattle.c_check_statements.specs.Ruled.{given_seen, local_as};
ghost use Rattle.c_syntax.specs.UnitView.{maybe_init_of};
ghost use Rattle.c_syntax.specs.View.{declarator_of, ident_of, spec_of};
ghost use Rattle.c_tree.specs.Layout.{cells};

use c_check_bodies::{Next, StatementTree, declare_variable, found, laid_variable, leave_names};
use c_check_declarations::{C3, CheckError, Object, TypedExpression, object_of};
use c_check_expressions::{initialised_local, new_name, type_declared};
use c_check_scopes::{Before, Environment, given_number, has_given_type};
use c_syntax::{Declarator, DeclaratorKind, Ident, Init, Spec};
use std::alloc::Global;

// The place of a declarator.
pub fn place_of(_at: u32, d: &Declarator) -> u32
    ensures { result ≡ place_or _at (declarator_of d.now) }
{
    match &d.kind {
        DeclaratorKind::Name(_) => d.at,
        DeclaratorKind::Pointer(_) => d.at,
        DeclaratorKind::Array { .. } => d.at,
        DeclaratorKind::Function { .. } => d.at,
    }
}

// The object that a declarator with this name declares.
fn object_declared<'t>(
    alloc: Global,
    env: &mut Environment<'t>,
    at: u32,
    spec: &'t Spec,
    d: &'t Declarator,
    x: &'t Ident,
    m: &'t Option<Init>,
) -> Result<Object, CheckError>
    ensures judged { AgreesWith object_seen result (object_declared (env_of env.old) at (spec_of spec.now) (declarator_of d.now) (ident_of x.now) (maybe_init_of m.now)) }
    ensures kept { OnOk result (env.new ≡ env.old) }
{
    let ctype = type_declared(alloc, env, at, spec, d)?;
    object_of(alloc, env, place_of(at, d), x.at, m, ctype)
}

// The values of the first cells of a variable with this name and number, whose name is declared within its initialiser (C99 6.2.1
// paragraph 7).
fn initialised_within<'t>(
    alloc: Global,
    env: &mut Environment<'t>,
    before: &mut Before<'t>,
    number: u32,
    x: &'t Ident,
    o: &Object,
    m: &'t Option<Init>,
) -> Result<Vec<TypedExpression>, CheckError>
    ensures judged { AgreesWith cells_of result (initialised_local (with_name (env_of env.old) (ident_of x.now).name (a_local number (object_seen o.now).seen (object_seen o.now).whole)) (before_of before.old) (object_seen o.now).whole (maybe_init_of m.now)) }
    ensures counted { OnOk result (before_of before.new ≡ past (before_of before.old) (calls_of_maybe_init (maybe_init_of m.now)) (held_by (env_of env.old) (object_seen o.now).whole (maybe_init_of m.now))) }
    ensures kept { OnOk result (env.new ≡ env.old) }
{
    let count = env.names.len();
    declare_variable(alloc, env, x.name.as_slice(), number, &o.seen, &o.whole)?;
    let cells = initialised_local(alloc, env, before, &o.whole, m)?;
    leave_names(env, count);
    Ok(cells)
}

// The declaration of a variable that is this object with few cells, where its name is new.
fn local_of<'t>(
    alloc: Global,
    env: &mut Environment<'t>,
    before: &mut Before<'t>,
    number: u32,
    x: &'t Ident,
    o: Object,
    m: &'t Option<Init>,
) -> Result<StatementTree, CheckError>
    requires few { cells (layout_of (env_of env.old)) (object_seen o).whole ≤ most_cells }
    ensures judged { AgreesWith statement_tree_of result (local_as (env_of env.old) (before_of before.old) number (ident_of x.now) (maybe_init_of m.now) (object_seen o)) }
    ensures counted { OnOk result (before_of before.new ≡ past (before_of before.old) (calls_of_maybe_init (maybe_init_of m.now)) (held_by (env_of env.old) (object_seen o).whole (maybe_init_of m.now))) }
    ensures meant { OnOk result (env_of env.new ≡ with_name (env_of env.old) (ident_of x.now).name (a_local number (object_seen o).whole (object_seen o).whole)) }
    ensures kept { OnOk result (Declares env.old env.new) }
{
    env.have_cells_of_members();
    let name = x.name.as_slice();
    let cells = initialised_within(alloc, env, before, number, x, &o, m)?;
    declare_variable(alloc, env, name, number, &o.whole, &o.whole)?;
    let Object { whole, .. } = o;
    found(laid_variable(alloc, name, number, whole, cells))
}

// The declaration of a variable with this name: its name is new, its type is that of an object, and its initialiser fits.
fn local<'t>(
    alloc: Global,
    env: &mut Environment<'t>,
    before: &mut Before<'t>,
    next: Next,
    at: u32,
    spec: &'t Spec,
    d: &'t Declarator,
    x: &'t Ident,
    m: &'t Option<Init>,
) -> Result<StatementTree, CheckError>
    ensures judged { AgreesWith statement_tree_of result (local (env_of env.old) (before_of before.old) (next_of next) (ident_of x.now) (maybe_init_of m.now) (object_declared (env_of env.old) at (spec_of spec.now) (declarator_of d.now) (ident_of x.now) (maybe_init_of m.now))) }
    ensures counted { OnOk result (before_of before.new ≡ past (before_of before.old) (calls_of_maybe_init (maybe_init_of m.now)) (held_by_object (env_of env.old) (maybe_init_of m.now) (object_declared (env_of env.old) at (spec_of spec.now) (declarator_of d.now) (ident_of x.now) (maybe_init_of m.now)))) }
    ensures meant { OnOk result (env_of env.new ≡ behind_local (env_of env.old) (next_of next) (ident_of x.now) (object_declared (env_of env.old) at (spec_of spec.now) (declarator_of d.now) (ident_of x.now) (maybe_init_of m.now))) }
    ensures kept { OnOk result (Declares env.old env.new) }
{
    new_name(env, x)?;
    let object = object_declared(alloc, env, at, spec, d, x, m)?;
    let number = next.number(x.name.as_slice());
    local_of(alloc, env, before, number, x, object, m)
}

// Whether a function is declared by its name and its type as it is given.
fn is_given<'t>(
    alloc: Global,
    env: &mut Environment<'t>,
    at: u32,
    spec: &'t Spec,
    d: &'t Declarator,
    x: &Ident,
) -> Result<bool, CheckError>
    ensures judged { AgreesWith (λ given. given) result (given_seen (env_of env.old) (type_declared (env_of env.old) at (spec_of spec.now) (declarator_of d.now)) (number_among (given_names (env_of env.old).whole.mode) (ident_of x.now).name)) }
    ensures kept { OnOk result (env.new ≡ env.old) }
{
    match given_number(env.mode, x.name.as_slice()) {
        Some(number) => {
            let ctype = type_declared(alloc, env, at, spec, d)?;
            Ok(has_given_type(env.mode, number, &ctype))
        }
        None => Ok(false),
    }
}

// The same of what is declared with this name. A function that is declared as it is given has nothing wrong but its place (C99 7.1.4
// paragraph 2).
pub fn local_named<'t>(
    alloc: Global,
    env: &mut Environment<'t>,
    before: &mut Before<'t>,
    next: Next,
    at: u32,
    spec: &'t Spec,
    d: &'t Declarator,
    x: &'t Ident,
    m: &'t Option<Init>,
) -> Result<StatementTree, CheckError>
    ensures judged { AgreesWith statement_tree_of result (local_named (env_of env.old) (before_of before.old) (next_of next) at (spec_of spec.now) (declarator_of d.now) (maybe_init_of m.now) (Some (ident_of x.now))) }
    ensures counted { OnOk result (before_of before.new ≡ past (before_of before.old) (calls_of_maybe_init (maybe_init_of m.now)) (held_by_named (env_of env.old) at (spec_of spec.now) (declarator_of d.now) (maybe_init_of m.now) (Some (ident_of x.now)))) }
    ensures meant { OnOk result (env_of env.new ≡ behind_named (env_of env.old) (next_of next) at (spec_of spec.now) (declarator_of d.now) (maybe_init_of m.now) (Some (ident_of x.now))) }
    ensures kept { OnOk result (Declares env.old env.new) }
{
    let given = is_given(alloc, env, at, spec, d, x)?;
    if given {
        return Err(CheckError::At(C3, place_of(at, d)));
    }
    local(alloc, env, before, next, at, spec, d, x, m)
}
