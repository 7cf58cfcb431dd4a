ghost use Rattle.std.specs.Prelude.{◌≡◌, ◌≤◌, length, OnOk};
ghost use Rattle.c_check_initialisers.specs.CellView.{cells_of, slots_of};
ghost use Rattle.c_check_types.specs.Agreement.{AgreesWith};
ghost use Rattle.c_rules.specs.Counts.{past};
ghost use Rattle.c_rules.specs.Initialisers.{after_init, calls_of_inits, capacity, cells_of_list, count_inits, held_in_turn, in_turn, initialised, slots, takes_list};
ghost use Rattle.c_check_counts.specs.View.{before_of, env_of};
ghost use Rattle.c_syntax.specs.UnitView.{init_of};
ghost use Rattle.c_syntax.specs.WritesUnit.{inits_of};
ghost use Rattle.c_tree.specs.View.{ctype_of};

use crate::ones::one_initialised;
use c_check_counts::{Before, Environment};
use c_check_initialisers::{Slots, add_zeros_behind, capacity, slot_at, slots_of_type, takes_list};
use c_check_types::{C14, CheckError, TypedExpression};
use c_syntax::{Init, InitKind};
use c_tree::CType;
use std::alloc::Global;

// The values of the cells of an object of this type, in order.
#[cycle(initialiser)]
pub fn initialised<'t>(
    alloc: Global,
    env: &mut Environment<'t>,
    before: &mut Before<'t>,
    is_static: bool,
    i: &'t Init,
    t: &CType,
) -> Result<Vec<TypedExpression>, CheckError>
    ensures judged { AgreesWith cells_of result (initialised (env_of env.old) (before_of before.old) is_static (ctype_of t.now) (init_of i.now)) }
    ensures counted { OnOk result (before_of before.new ≡ after_init (env_of env.old) (before_of before.old) (ctype_of t.now) (init_of i.now)) }
    ensures kept { OnOk result (env.new ≡ env.old) }
{
    match &i.kind {
        InitKind::One(e) => one_initialised(alloc, env, before, is_static, i.at, t, e),
        InitKind::List(inits) => list_initialised(alloc, env, before, is_static, i.at, inits, t),
    }
}

// The same of a list in braces, which has the form and at most the count that the type allows (C99 6.7.8 paragraph 2).
#[cycle(initialiser)]
fn list_initialised<'t>(
    alloc: Global,
    env: &mut Environment<'t>,
    before: &mut Before<'t>,
    is_static: bool,
    at: u32,
    inits: &'t [Init],
    t: &CType,
) -> Result<Vec<TypedExpression>, CheckError>
    ensures judged { AgreesWith cells_of result (cells_of_list (takes_list (ctype_of t.now)) at (capacity (slots (env_of env.old) (ctype_of t.now))) (count_inits (inits_of inits.now)) (in_turn (env_of env.old) (before_of before.old) is_static (slots (env_of env.old) (ctype_of t.now)) (inits_of inits.now))) }
    ensures counted { OnOk result (before_of before.new ≡ past (before_of before.old) (calls_of_inits (inits_of inits.now)) (held_in_turn (env_of env.old) (slots (env_of env.old) (ctype_of t.now)) (inits_of inits.now))) }
    ensures kept { OnOk result (env.new ≡ env.old) }
{
    if !takes_list(t) {
        return Err(CheckError::At(C14, at));
    }
    let slots = slots_of_type(alloc, env, t)?;
    let cells = in_turn(alloc, env, before, is_static, inits, &slots)?;
    if inits.len() > capacity(&slots) {
        return Err(CheckError::At(C14, at));
    }
    Ok(cells)
}

// The same of elements or members in turn, with zeros for those without an initialiser (C99 6.7.8 paragraphs 17 and 21). What stands behind
// the last one isn't looked at.
#[cycle(initialiser)]
fn in_turn<'t>(
    alloc: Global,
    env: &mut Environment<'t>,
    before: &mut Before<'t>,
    is_static: bool,
    inits: &'t [Init],
    slots: &Slots,
) -> Result<Vec<TypedExpression>, CheckError>
    ensures judged { AgreesWith cells_of result (in_turn (env_of env.old) (before_of before.old) is_static (slots_of slots.now) (inits_of inits.now)) }
    ensures counted { OnOk result (length inits.now ≤ capacity (slots_of slots.now) → before_of before.new ≡ past (before_of before.old) (calls_of_inits (inits_of inits.now)) (held_in_turn (env_of env.old) (slots_of slots.now) (inits_of inits.now))) }
    ensures kept { OnOk result (env.new ≡ env.old) }
{
    let mut cells = Vec::new(alloc);
    let mut place = 0usize;
    for i in inits {
        let Some(t) = slot_at(slots, place) else {
            return Ok(cells);
        };
        let mut one = initialised(alloc, env, before, is_static, i, t)?;
        cells.append(&mut one)?;
        place += 1;
    }
    add_zeros_behind(alloc, env, slots, place, &mut cells)?;
    Ok(cells)
}
