ghost use Rattle.std.specs.Prelude.{◌≤◌, ◌+◌, IfOk};
ghost use Rattle.c_tree.specs.Tree.{Program};
ghost use Rattle.c_values.specs.Memory.{Objects};
ghost use Rattle.c_values.specs.Seen.{seen};
ghost use Rattle.c_meaning.specs.Results.{then_do};
ghost use Rattle.ref_machine_frames.specs.Frames.{place_of, asked, chosen};
ghost use Rattle.ref_machine_frames.specs.Parts.{Gives};
ghost use Rattle.ref_machine_frames.specs.declared.frames.Here.{Here as Activation};
ghost use Rattle.ref_machine_frames.specs.Work.{of_all, of_choice, work};

use c_tree::Value;
use c_values::Memory;
use dm_base::OutOfMemory;
use ref_machine_frames::{Choice, Frame, Now, ValueFrame, stopped, test, truth_value, wait};

// What comes of an operand that was tested.
fn chosen<'p>(
    todo: &mut Vec<Frame<'p>>,
    choice: Choice<'p>,
    holds: bool,
) -> Result<Now<'p>, OutOfMemory>
    ensures same { IfOk result (λ now. (p : Program) (h : Activation) (m : Objects) → Gives p h m todo.old.items (λ w st. chosen p w (place_of h) choice.entry holds st) now m todo.new.items) }
    ensures less { IfOk result (λ now. work now todo.new.items ≤ of_choice choice.entry + of_all todo.old.items) }
{
    match choice {
        Choice::And(second) => {
            if holds {
                return wait(todo, ValueFrame::Test(Choice::Truth), true, second);
            }
            Ok(Now::Have(truth_value(false)))
        }
        Choice::Or(second) => {
            if holds {
                return Ok(Now::Have(truth_value(true)));
            }
            wait(todo, ValueFrame::Test(Choice::Truth), true, second)
        }
        Choice::Truth => Ok(Now::Have(truth_value(holds))),
        Choice::Cond { wanted, yes, no } => {
            if holds {
                return Ok(Now::Eval { wanted, of: yes });
            }
            Ok(Now::Eval { wanted, of: no })
        }
    }
}

// What comes of the value of an operand that is tested.
pub fn choosing<'p>(
    memory: &Memory,
    todo: &mut Vec<Frame<'p>>,
    choice: Choice<'p>,
    v: Value,
) -> Result<Now<'p>, OutOfMemory>
    ensures same { IfOk result (λ now. (p : Program) (h : Activation) → Gives p h (seen memory.now) todo.old.items (λ w st. then_do (asked v st) (chosen p w (place_of h) choice.entry)) now (seen memory.now) todo.new.items) }
    ensures less { IfOk result (λ now. work now todo.new.items ≤ of_choice choice.entry + of_all todo.old.items) }
{
    match test(memory, v) {
        Ok(holds) => chosen(todo, choice, holds),
        Err(fault) => Ok(stopped(fault)),
    }
}
