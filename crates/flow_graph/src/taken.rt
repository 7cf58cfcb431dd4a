ghost use Rattle.std.specs.Prelude.{◌≡◌, ◌++◌, ◌∷◌, [], OnOk, IfOk, if◌then◌else◌};
ghost use Rattle.c_tree.specs.View.{program_of};
ghost use Rattle.c_meaning.specs.ShapeOf.{taken_calls};
ghost use Rattle.flow_graph.specs.Calls.{AreCallsOf};

use crate::Calls;
use c_tree::Program;
use dm_base::OutOfMemory;
use std::alloc::Global;

// Adds the number, where it is taken.
fn add(into: &mut Vec<u32>, is_taken: bool, x: u32) -> Result<(), OutOfMemory>
    ensures { OnOk result (into.new.items ≡ into.old.items ++ (if is_taken then x ∷ [] else [])) }
{
    if !is_taken {
        return Ok(());
    }
    into.push(x)?;
    Ok(())
}

// The system calls whose names are taken, in the order of their numbers.
pub fn taken_of(alloc: Global, program: &Program, calls: &Calls) -> Result<Vec<u32>, OutOfMemory>
    requires { AreCallsOf (program_of program.now) calls.now }
    ensures { IfOk result (λ taken. taken.items ≡ taken_calls (program_of program.now)) }
{
    let defined = program.defined();
    let _sites = program.sites();
    let mut taken = Vec::new(alloc);
    for x in 0..24u32 {
        add(&mut taken, calls.address_taken(defined + x), x)?;
    }
    Ok(taken)
}
