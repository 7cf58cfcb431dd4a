ghost use Rattle.std.specs.Prelude.{◌≡◌, IfErr, IfOk};
ghost use Rattle.c_check.specs.Refused.{IsRefused};
ghost use Rattle.c_check_values.specs.Agreement.{AgreesWith};
ghost use Rattle.c_rules.specs.NullCalls.{CallsNoNullCall};
ghost use Rattle.c_rules.specs.Units.{IsTyped, checked};
ghost use Rattle.c_syntax.specs.UnitView.{items_of};
ghost use Rattle.c_tree.specs.View.{program_of};
ghost use Rattle.dm_base.specs.declared.mode.Mode.TheVariants.{Plain};
ghost use Rattle.c_rules_laws.specs.Lexical.{IsUnitLexical};

use crate::found::{Found, found_in};
use crate::typed_program;
use c_check_values::CheckError;
use c_rules::{a_plain_program_calls_no_null_call, a_typed_unit_violates_no_rule};
use c_rules_laws::a_typed_unit_is_a_program;
use c_syntax::{Item, Unit};
use c_tree::Program;
use dm_base::Mode;
use std::alloc::Global;

// The program that a unit with these items is typed as.
fn checked_items(alloc: Global, listed: &[Item], mode: Mode) -> Result<Program, CheckError>
    requires { IsUnitLexical (items_of listed.now) }
    ensures { AgreesWith program_of result (checked (items_of listed.now) mode) }
{
    a_typed_unit_is_a_program();
    let Found {
        env,
        before,
        output,
    } = found_in(alloc, mode, listed)?;
    typed_program(
        alloc,
        mode,
        listed,
        &env,
        &before,
        output.functions,
        output.statics,
    )
}

/// The program that the unit is typed as in the mode (C99 6.2 to 6.9); in the mode Plain it calls neither null call. Its constants
/// are in range and its strings no longer than a text (C99 6.4.4, 6.4.5), as in each unit that `parse` gives, and in the instrumented one.
///
/// # Errors
///
/// `At` names a demand on the unit that fails, by the number of its code, from 1 to 14, and its place; then the unit is typed as no
/// program. Where several demands fail it names any of them. `OutOfMemory` comes where memory was refused.
pub fn check(alloc: Global, unit: &Unit, mode: Mode) -> Result<Program, CheckError>
    requires lexical { IsUnitLexical (items_of unit.now.items.items) }
    ensures typed { IfOk result (λ p. IsTyped (items_of unit.now.items.items) mode (program_of p)) }
    ensures refused { IfErr result (IsRefused (items_of unit.now.items.items) mode) }
    ensures no_null_calls { mode ≡ Plain → IfOk result (λ p. CallsNoNullCall (program_of p)) }
{
    a_typed_unit_violates_no_rule();
    a_plain_program_calls_no_null_call();
    checked_items(alloc, &unit.items, mode)
}
