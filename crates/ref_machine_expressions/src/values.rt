ghost use Rattle.std.specs.Prelude.{◌≤◌, ◌<◌, ◌+◌, ◌≡◌, ◌++◌, ◌∷◌, [], IfOk};
ghost use Rattle.c_tree.specs.Tree.{Program as Term};
ghost use Rattle.c_tree.specs.View.{exprs_of, program_of};
ghost use Rattle.c_values.specs.Memory.{Objects};
ghost use Rattle.c_values.specs.Seen.{seen};
ghost use Rattle.ref_machine_frames.specs.Held.{eval_each};
ghost use Rattle.ref_machine_frames.specs.Cells.{AreCells};
ghost use Rattle.ref_machine_frames.specs.Frames.{place_of, with_value};
ghost use Rattle.ref_machine_frames.specs.Parts.{Gives};
ghost use Rattle.ref_machine_frames.specs.declared.frames.Here.{Here as Activation};
ghost use Rattle.ref_machine_frames.specs.Work.{of_all, of_exprs, of_value_frame, work};

use crate::calls::arguments;
use crate::choices::choosing;
use crate::steps::{one_step, two_step};
use crate::storing::storing;
use c_tree::{Program, TExpr, Value};
use c_values::Memory;
use dm_base::OutOfMemory;
use ref_machine_frames::{Callee, Frame, Now, ValueFrame, given, wait};
use std::alloc::Global;

// The members of a comma expression.
pub fn members<'p>(
    todo: &mut Vec<Frame<'p>>,
    wanted: bool,
    left: &'p [TExpr],
) -> Result<Now<'p>, OutOfMemory>
    ensures same { IfOk result (λ now. (p : Term) (h : Activation) (m : Objects) → Gives p h m todo.old.items (λ w st. eval_each p w (place_of h) wanted (exprs_of left.now) st) now m todo.new.items) }
    ensures less { IfOk result (λ now. work now todo.new.items ≤ of_exprs (exprs_of left.now) + of_all todo.old.items) }
{
    let Some((first, rest)) = left.split_first() else {
        return Ok(Now::Mistyped);
    };
    if rest.is_empty() {
        return Ok(Now::Eval { wanted, of: first });
    }
    wait(todo, ValueFrame::Members { wanted, rest }, false, first)
}

// The values of arguments, with one more.
fn with_argument(before: Vec<Value>, v: Value) -> Result<Vec<Value>, OutOfMemory>
    ensures { IfOk result (λ all. all.items ≡ before.items ++ v ∷ []) }
{
    let mut all = before;
    all.push(v)?;
    Ok(all)
}

/// What comes of a value in an expression. `counts` has the number of cells of each struct.
pub fn with_value<'p>(
    alloc: Global,
    program: &Program,
    counts: &[u32],
    memory: &mut Memory,
    todo: &mut Vec<Frame<'p>>,
    frame: ValueFrame<'p>,
    v: Value,
) -> Result<Now<'p>, OutOfMemory>
    requires { AreCells (program_of program.now).structs counts.now }
    ensures same { IfOk result (λ now. (h : Activation) → Gives (program_of program.now) h (seen memory.old) todo.old.items (λ w st. with_value (program_of program.now) w (place_of h) frame.entry v st) now (seen memory.new) todo.new.items) }
    ensures less { IfOk result (λ now. work now todo.new.items < of_value_frame frame.entry + of_all todo.old.items) }
{
    match frame {
        ValueFrame::One(step) => Ok(given(one_step(counts, memory, step, v))),
        ValueFrame::First(pair, second) => wait(todo, ValueFrame::Second(pair, v), true, second),
        ValueFrame::Second(pair, first) => Ok(given(two_step(memory, pair, first, v))),
        ValueFrame::Store(part) => storing(memory, todo, part, v),
        ValueFrame::Test(choice) => choosing(memory, todo, choice, v),
        ValueFrame::Members { wanted, rest } => members(todo, wanted, rest),
        ValueFrame::Designator {
            wanted,
            arguments: left,
        } => {
            let whom = Callee::Through(v);
            let none = Vec::new(alloc);
            arguments(alloc, program, memory, todo, wanted, whom, none, left)
        }
        ValueFrame::Argument {
            wanted,
            callee,
            before,
            rest,
        } => {
            let all = with_argument(before, v)?;
            arguments(alloc, program, memory, todo, wanted, callee, all, rest)
        }
    }
}
