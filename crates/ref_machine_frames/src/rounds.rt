ghost use Rattle.std.specs.Prelude.{◌≤◌, ◌<◌, ◌+◌, IfOk};
ghost use Rattle.c_tree.specs.Tree.{Program};
ghost use Rattle.c_tree.specs.View.{stmt_of};
ghost use Rattle.c_values.specs.Memory.{Objects};
ghost use Rattle.c_meaning.specs.Results.{then_do};
ghost use Rattle.ref_machine_frames.specs.Held.{condition, exec, perhaps};
ghost use Rattle.ref_machine_frames.specs.Frames.{exit_in, going_round, place_of, round, rounds_of};
ghost use Rattle.ref_machine_frames.specs.Parts.{Leaves};
ghost use Rattle.ref_machine_frames.specs.declared.frames.Here.{Here as Activation};
ghost use Rattle.ref_machine_frames.specs.Work.{of_all, of_round, of_step, work};

use crate::{
    ExitFrame, Frame, Left, Now, Parted, StatementFrame, Valued, wait_for_statement,
    wait_in_statement,
};
use c_tree::TStmt;
use dm_base::OutOfMemory;

/// What comes of the condition of a loop.
pub fn going_round<'p>(
    todo: &mut Vec<Frame<'p>>,
    of: &'p TStmt,
    holds: bool,
) -> Result<Now<'p>, OutOfMemory>
    ensures same { IfOk result (λ now. (p : Program) (h : Activation) (m : Objects) → Leaves p h m todo.old.items (λ w st. going_round p w (place_of h) (rounds_of (stmt_of of.now)) holds st) now m todo.new.items) }
    ensures less { IfOk result (λ now. work now todo.new.items ≤ of_round (rounds_of (stmt_of of.now)) + of_all todo.old.items) }
{
    if !holds {
        return Ok(Now::Left(Left::On));
    }
    match of {
        TStmt::While { body, .. } => wait_for_statement(
            todo,
            ExitFrame::Part(Parted::Round, of),
            body,
        ),
        TStmt::Do { body, .. } => wait_for_statement(
            todo,
            ExitFrame::Part(Parted::Round, of),
            body,
        ),
        TStmt::For { body, .. } => wait_for_statement(
            todo,
            ExitFrame::Part(Parted::Round, of),
            body,
        ),
        _ => Ok(Now::Test(of)),
    }
}

/// A loop is tested, once its turn is spent (C99 6.8.5); a missing condition holds (6.8.5.3 paragraph 2), and a
/// statement that is no loop has neither a condition nor a body. Where memory is refused, what is left to do may have
/// been changed.
pub fn test_loop<'p>(todo: &mut Vec<Frame<'p>>, of: &'p TStmt) -> Result<Now<'p>, OutOfMemory>
    ensures { IfOk result (λ now. (p : Program) (h : Activation) (m : Objects) → Leaves p h m todo.old.items (λ w st. then_do (condition p w (place_of h) (rounds_of (stmt_of of.now)).test st) (going_round p w (place_of h) (rounds_of (stmt_of of.now)))) now m todo.new.items) }
{
    match of {
        TStmt::While { test, .. } => wait_in_statement(
            todo,
            StatementFrame::Part(Valued::Test, of),
            true,
            test,
        ),
        TStmt::Do { test, .. } => wait_in_statement(
            todo,
            StatementFrame::Part(Valued::Test, of),
            true,
            test,
        ),
        TStmt::For { test, .. } => match test {
            Some(test) => wait_in_statement(
                todo,
                StatementFrame::Part(Valued::Test, of),
                true,
                test,
            ),
            None => going_round(todo, of, true),
        },
        _ => Ok(Now::Test(of)),
    }
}

// What is done after a round; then the loop is tested again.
fn step<'p>(todo: &mut Vec<Frame<'p>>, of: &'p TStmt) -> Result<Now<'p>, OutOfMemory>
    ensures same { IfOk result (λ now. (p : Program) (h : Activation) (m : Objects) → Leaves p h m todo.old.items (λ w st. then_do (perhaps p w (place_of h) (rounds_of (stmt_of of.now)).step st) (λ y st. w.again (place_of h) (rounds_of (stmt_of of.now)) st)) now m todo.new.items) }
    ensures less { IfOk result (λ now. work now todo.new.items < of_step (rounds_of (stmt_of of.now)) + of_all todo.old.items) }
{
    match of {
        TStmt::For { step, .. } => match step {
            Some(step) => wait_in_statement(
                todo,
                StatementFrame::Part(Valued::Step, of),
                false,
                step,
            ),
            None => Ok(Now::Test(of)),
        },
        _ => Ok(Now::Test(of)),
    }
}

/// What comes of a round.
pub fn round<'p>(todo: &mut Vec<Frame<'p>>, of: &'p TStmt, by: Left) -> Result<Now<'p>, OutOfMemory>
    ensures same { IfOk result (λ now. (p : Program) (h : Activation) (m : Objects) → Leaves p h m todo.old.items (λ w st. round p w (place_of h) (rounds_of (stmt_of of.now)) (exit_in by) st) now m todo.new.items) }
    ensures less { IfOk result (λ now. work now todo.new.items < of_step (rounds_of (stmt_of of.now)) + of_all todo.old.items) }
{
    match by {
        Left::On => step(todo, of),
        Left::Continued => step(todo, of),
        Left::Broken => Ok(Now::Left(Left::On)),
        Left::Returned(value) => Ok(Now::Left(Left::Returned(value))),
    }
}
