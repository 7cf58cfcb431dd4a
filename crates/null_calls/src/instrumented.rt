ghost use Rattle.std.specs.Prelude.{◌≡◌, IfOk};
ghost use Rattle.c_syntax.specs.UnitView.{items_of};
ghost use Rattle.c_tree.specs.View.{program_of};
ghost use Rattle.null_calls.specs.Instrumented.{instrumented_unit};

use crate::units::instrument;
use c_syntax::{Item, Unit};
use c_tree::Program;
use dm_base::OutOfMemory;
use flow_graph::Calls;
use std::alloc::Global;

/// The items of the instrumented unit of a unit that is typed as the program. The error is that memory was refused.
pub fn instrumented_items(
    alloc: Global,
    unit: &Unit,
    program: &Program,
) -> Result<Vec<Item>, OutOfMemory>
    ensures { IfOk result (λ made. items_of made.items ≡ instrumented_unit (program_of program.now) (items_of unit.now.items.items)) }
{
    let calls = Calls::of(alloc, program)?;
    instrument(alloc, &unit.items, program, &calls)
}
