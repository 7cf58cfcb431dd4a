ghost use Rattle.std.specs.Prelude.{◌≡◌, OnOk};
ghost use Rattle.c_check_initialisers.specs.CellView.{cells_of};
ghost use Rattle.c_check_types.specs.Agreement.{AgreesWith};
ghost use Rattle.c_rules.specs.Counts.{past};
ghost use Rattle.c_rules.specs.Initialisers.{calls_of_maybe_init, held_by, initialised_local, initialised_static};
ghost use Rattle.c_check_counts.specs.View.{before_of, env_of};
ghost use Rattle.c_syntax.specs.UnitView.{maybe_init_of};
ghost use Rattle.c_tree.specs.View.{ctype_of};

use crate::initialised::initialised;
use c_check_counts::{Before, Environment};
use c_check_initialisers::zero_cells;
use c_check_types::{CheckError, TypedExpression};
use c_syntax::Init;
use c_tree::CType;
use std::alloc::Global;

/// The values of the first cells of a variable of this type, with its initialiser; without one it begins indeterminate (C99 6.7.8 paragraph
/// 10). Behind it the calls and the strings in the initialiser stand before.
pub fn initialised_local<'t>(
    alloc: Global,
    env: &mut Environment<'t>,
    before: &mut Before<'t>,
    t: &CType,
    m: &'t Option<Init>,
) -> Result<Vec<TypedExpression>, CheckError>
    ensures judged { AgreesWith cells_of result (initialised_local (env_of env.old) (before_of before.old) (ctype_of t.now) (maybe_init_of m.now)) }
    ensures counted { OnOk result (before_of before.new ≡ past (before_of before.old) (calls_of_maybe_init (maybe_init_of m.now)) (held_by (env_of env.old) (ctype_of t.now) (maybe_init_of m.now))) }
    ensures kept { OnOk result (env.new ≡ env.old) }
{
    match m {
        Some(i) => initialised(alloc, env, before, false, i, t),
        None => Ok(Vec::new(alloc)),
    }
}

/// The values of the cells of a static object of this type, with its initialiser, which are constant and defined; without one they are
/// zeros (C99 6.7.8 paragraphs 4 and 10). Behind it the calls and the strings in the initialiser stand before.
pub fn initialised_static<'t>(
    alloc: Global,
    env: &mut Environment<'t>,
    before: &mut Before<'t>,
    t: &CType,
    m: &'t Option<Init>,
) -> Result<Vec<TypedExpression>, CheckError>
    ensures judged { AgreesWith cells_of result (initialised_static (env_of env.old) (before_of before.old) (ctype_of t.now) (maybe_init_of m.now)) }
    ensures counted { OnOk result (before_of before.new ≡ past (before_of before.old) (calls_of_maybe_init (maybe_init_of m.now)) (held_by (env_of env.old) (ctype_of t.now) (maybe_init_of m.now))) }
    ensures kept { OnOk result (env.new ≡ env.old) }
{
    match m {
        Some(i) => initialised(alloc, env, before, true, i, t),
        None => Ok(zero_cells(alloc, env, t)?),
    }
}
