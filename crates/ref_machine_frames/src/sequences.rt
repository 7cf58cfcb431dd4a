ghost use Rattle.std.specs.Prelude.{◌≤◌, ◌+◌, IfOk};
ghost use Rattle.c_tree.specs.Tree.{Program};
ghost use Rattle.c_tree.specs.View.{groups_of, inits_of, stmts_of};
ghost use Rattle.c_values.specs.Memory.{Objects};
ghost use Rattle.ref_machine_frames.specs.Held.{exec_all, exec_from, initialise};
ghost use Rattle.ref_machine_frames.specs.Frames.{place_of};
ghost use Rattle.ref_machine_frames.specs.Parts.{Leaves};
ghost use Rattle.ref_machine_frames.specs.declared.frames.Here.{Here as Activation};
ghost use Rattle.ref_machine_frames.specs.Work.{of_all, of_groups, of_inits, of_stmts, work};

use crate::{ExitFrame, Frame, Left, Now, StatementFrame, wait_for_statement, wait_in_statement};
use c_tree::{TGroup, TInit, TStmt};
use dm_base::OutOfMemory;

/// Statements, one after the other.
pub fn statements<'p>(todo: &mut Vec<Frame<'p>>, left: &'p [TStmt]) -> Result<Now<'p>, OutOfMemory>
    ensures same { IfOk result (λ now. (p : Program) (h : Activation) (m : Objects) → Leaves p h m todo.old.items (λ w st. exec_all p w (place_of h) (stmts_of left.now) st) now m todo.new.items) }
    ensures less { IfOk result (λ now. work now todo.new.items ≤ of_stmts (stmts_of left.now) + of_all todo.old.items) }
{
    let Some((first, rest)) = left.split_first() else {
        return Ok(Now::Left(Left::On));
    };
    wait_for_statement(todo, ExitFrame::Statements(rest), first)
}

/// The statements of groups of a `switch`, one after the other.
pub fn groups<'p>(todo: &mut Vec<Frame<'p>>, left: &'p [TGroup]) -> Result<Now<'p>, OutOfMemory>
    ensures same { IfOk result (λ now. (p : Program) (h : Activation) (m : Objects) → Leaves p h m todo.old.items (λ w st. exec_from p w (place_of h) 0 (groups_of left.now) st) now m todo.new.items) }
    ensures less { IfOk result (λ now. work now todo.new.items ≤ of_groups (groups_of left.now) + of_all todo.old.items) }
{
    let Some((first, rest)) = left.split_first() else {
        return Ok(Now::Left(Left::On));
    };
    todo.push(Frame::Exit(ExitFrame::Groups(rest)))?;
    statements(todo, &first.body)
}

/// The values of cells of a variable, one after the other.
pub fn initialisers<'p>(
    todo: &mut Vec<Frame<'p>>,
    variable: u32,
    left: &'p [TInit],
) -> Result<Now<'p>, OutOfMemory>
    ensures same { IfOk result (λ now. (p : Program) (h : Activation) (m : Objects) → Leaves p h m todo.old.items (λ w st. initialise p w (place_of h) variable (inits_of left.now) st) now m todo.new.items) }
    ensures less { IfOk result (λ now. work now todo.new.items ≤ of_inits (inits_of left.now) + of_all todo.old.items) }
{
    let Some((first, rest)) = left.split_first() else {
        return Ok(Now::Left(Left::On));
    };
    let frame = StatementFrame::Initialise {
        variable,
        cell: first.cell,
        rest,
    };
    wait_in_statement(todo, frame, true, &first.value)
}
