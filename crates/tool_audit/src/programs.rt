ghost use Rattle.std.specs.Prelude.{◌≡◌, ℕ, List, IfOk};
ghost use Rattle.null_calls_laws.specs.MarkedRuns.{marked_run};
ghost use Rattle.c_check_values.specs.declared.error.CheckError.TheVariants.{At};
ghost use Rattle.c_meaning.specs.Runs.{run};
ghost use Rattle.c_tree.specs.View.{program_of};
ghost use Rattle.dm_base.specs.declared.mode.Mode.TheVariants.{Plain};
ghost use Rattle.tool_steps.specs.Sources.{IsSourceOf};
ghost use Rattle.sys_table.specs.declared.sys_result.SysResult.{SysResult};

use c_check_values::CheckError;
use c_rules_laws::a_spelled_unit_is_lexical;
use c_syntax::Unit;
use c_tree::Program;
use dm_base::{Mode, OutOfMemory};
use headline::{
    instrumented_texts_run_marked, instrumented_units_are_lexical, instrumented_units_are_units,
};
use null_calls::instrumented_items;
use std::alloc::Global;
use tool_steps::{Source, check};

// The want of memory, where no demand fails.
fn memory_of(error: CheckError) -> OutOfMemory
    requires { (code place : ℕ) → error ≡ At code place → ⊥ }
{
    match error {
        CheckError::OutOfMemory => OutOfMemory,
        CheckError::At(_, _) => unreachable!(),
    }
}

/// The program of a source's instrumented unit, which is always typed.
pub fn instrumented_program(alloc: Global, source: &Source) -> Result<Program, OutOfMemory>
    requires { (text : List ℕ) × IsSourceOf text Plain source.now }
    ensures { IfOk result (λ q. (records : List SysResult) (turns : ℕ) → run (program_of q) records turns ≡ marked_run (program_of source.now.program) records turns) }
{
    a_spelled_unit_is_lexical();
    instrumented_units_are_units();
    instrumented_units_are_lexical();
    instrumented_texts_run_marked();
    let items = instrumented_items(alloc, &source.unit, &source.program)?;
    let unit = Unit { items };
    match check(alloc, &unit, Mode::Instrumented) {
        Ok(program) => Ok(program),
        Err(error) => Err(memory_of(error)),
    }
}
