ghost use Rattle.std.specs.Prelude.{◌≡◌};
ghost use Rattle.c_check_values.specs.Agreement.{AgreesWith};
ghost use Rattle.c_rules.specs.Checked.{fine, met};
ghost use Rattle.c_rules.specs.Items.{after_items, items};
ghost use Rattle.c_rules.specs.Scopes.{nothing_before};
ghost use Rattle.c_rules.specs.Units.{IsTyped, checked, env_before, env_behind, few_names};
ghost use Rattle.c_check_values.specs.View.{before_of, env_of};
ghost use Rattle.c_syntax.specs.UnitView.{items_of};
ghost use Rattle.c_tree.specs.Program.{IsProgram};
ghost use Rattle.c_tree.specs.Tree.{Program as ProgramTerm};
ghost use Rattle.c_tree.specs.View.{program_of};
ghost use Rattle.c_check_units.specs.Made.{output_of};

use crate::mains::has_main;
use crate::programs::{main_number, program_with};
use c_check_values::{Before, C9, CheckError, Environment};
use c_syntax::Item;
use c_tree::{Function, Program, Static};
use dm_base::Mode;
use std::alloc::Global;

/// The program that a unit with these items is typed as (C99 6.9), where they define these functions and these static objects, and this is
/// known and stands before behind them; what is typed is well-typed. `At` names the demand that `main` is defined.
pub fn typed_program(
    alloc: Global,
    mode: Mode,
    listed: &[Item],
    env: &Environment<'_>,
    before: &Before<'_>,
    defined: Vec<Function>,
    objects: Vec<Static>,
) -> Result<Program, CheckError>
    requires few { few_names (items_of listed.now) ≡ fine met }
    requires behind { env_of env.now ≡ env_behind mode (items_of listed.now) }
    requires counted { before_of before.now ≡ after_items (env_before mode (items_of listed.now)) nothing_before (items_of listed.now) }
    requires given { items (env_before mode (items_of listed.now)) nothing_before (items_of listed.now) ≡ fine (output_of defined.items objects.items) }
    requires right { (p : ProgramTerm) → IsTyped (items_of listed.now) mode p → IsProgram p before.now.sites }
    ensures { AgreesWith program_of result (checked (items_of listed.now) mode) }
{
    if !has_main(env) {
        return Err(CheckError::At(C9, 0));
    }
    let number = main_number(env);
    let program = program_with(alloc, env, before, defined, number, objects)?;
    Ok(program)
}
