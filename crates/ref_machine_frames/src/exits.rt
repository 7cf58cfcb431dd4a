ghost use Rattle.std.specs.Prelude.{◌≤◌, ◌<◌, ◌+◌, ◌≡◌, IfOk, List};
ghost use Rattle.c_tree.specs.Tree.{Program};
ghost use Rattle.c_tree.specs.View.{groups_of, stmt_of, stmts_of};
ghost use Rattle.c_values.specs.Memory.{Objects};
ghost use Rattle.c_values.specs.Seen.{seen};
ghost use Rattle.c_meaning.specs.Results.{on_exit, out_of_switch};
ghost use Rattle.ref_machine_frames.specs.Held.{exec_all, exec_from};
ghost use Rattle.ref_machine_frames.specs.Frames.{exit_in, place_of, rounds_of, with_exit};
ghost use Rattle.ref_machine_frames.specs.Parts.{Leaves};
ghost use Rattle.ref_machine_frames.specs.declared.frames.Frame.{Frame as Todo};
ghost use Rattle.ref_machine_frames.specs.declared.frames.Here.{Here as Activation};
ghost use Rattle.ref_machine_frames.specs.Work.{of_all, of_exit_frame, of_groups, of_now, of_stmts, work};

use crate::rounds::round;
use crate::sequences::{groups, statements};
use crate::variables::leave;
use crate::{ExitFrame, Frame, Here, Left, Now, Parted};
use c_tree::{TGroup, TStmt};
use c_values::Memory;
use dm_base::OutOfMemory;

// Later statements, where the one before goes on.
fn later_statements<'p>(
    todo: &mut Vec<Frame<'p>>,
    rest: &'p [TStmt],
    by: Left,
) -> Result<Now<'p>, OutOfMemory>
    ensures same { IfOk result (λ now. (p : Program) (h : Activation) (m : Objects) → Leaves p h m todo.old.items (λ w st. on_exit (exit_in by) st (exec_all p w (place_of h) (stmts_of rest.now))) now m todo.new.items) }
    ensures less { IfOk result (λ now. work now todo.new.items ≤ of_stmts (stmts_of rest.now) + of_all todo.old.items) }
{
    match by {
        Left::On => statements(todo, rest),
        Left::Broken => Ok(Now::Left(by)),
        Left::Continued => Ok(Now::Left(by)),
        Left::Returned(_) => Ok(Now::Left(by)),
    }
}

// Later groups, where the one before goes on.
fn later_groups<'p>(
    todo: &mut Vec<Frame<'p>>,
    rest: &'p [TGroup],
    by: Left,
) -> Result<Now<'p>, OutOfMemory>
    ensures same { IfOk result (λ now. (p : Program) (h : Activation) (m : Objects) → Leaves p h m todo.old.items (λ w st. on_exit (exit_in by) st (exec_from p w (place_of h) 0 (groups_of rest.now))) now m todo.new.items) }
    ensures less { IfOk result (λ now. work now todo.new.items ≤ of_groups (groups_of rest.now) + of_all todo.old.items) }
{
    match by {
        Left::On => groups(todo, rest),
        Left::Broken => Ok(Now::Left(by)),
        Left::Continued => Ok(Now::Left(by)),
        Left::Returned(_) => Ok(Now::Left(by)),
    }
}

// A loop after the head of its `for`, where that goes on.
fn begin_loop<'p>(of: &'p TStmt, by: Left) -> Now<'p>
    ensures same { (p : Program) (h : Activation) (m : Objects) (todo : List Todo) → Leaves p h m todo (λ w st. on_exit (exit_in by) st (w.again (place_of h) (rounds_of (stmt_of of.now)))) result m todo }
    ensures less { of_now result ≤ 1 }
{
    match by {
        Left::On => Now::Test(of),
        Left::Broken => Now::Left(by),
        Left::Continued => Now::Left(by),
        Left::Returned(_) => Now::Left(by),
    }
}

// How a `switch` is left.
fn out_of_switch(by: Left) -> Left
    ensures { exit_in result ≡ out_of_switch (exit_in by) }
{
    match by {
        Left::On => Left::On,
        Left::Broken => Left::On,
        Left::Continued => Left::Continued,
        Left::Returned(value) => Left::Returned(value),
    }
}

/// What comes of an exit in a statement (C99 6.8, 6.8.6). Where memory is refused, `memory` and `todo` may have been
/// changed.
pub fn with_exit<'p>(
    memory: &mut Memory,
    todo: &mut Vec<Frame<'p>>,
    here: Here<'p>,
    frame: ExitFrame<'p>,
    by: Left,
) -> Result<Now<'p>, OutOfMemory>
    ensures same { IfOk result (λ now. (p : Program) → Leaves p here.entry (seen memory.old) todo.old.items (λ w st. with_exit p w (place_of here.entry) frame.entry (exit_in by) st) now (seen memory.new) todo.new.items) }
    ensures less { IfOk result (λ now. work now todo.new.items < of_exit_frame frame.entry + of_all todo.old.items) }
{
    match frame {
        ExitFrame::Statements(rest) => later_statements(todo, rest, by),
        ExitFrame::Groups(rest) => later_groups(todo, rest, by),
        ExitFrame::Switch => Ok(Now::Left(out_of_switch(by))),
        ExitFrame::Part(Parted::Whole, of) => {
            leave(memory, here.activation, of);
            Ok(Now::Left(by))
        }
        ExitFrame::Part(Parted::Round, of) => round(todo, of, by),
        ExitFrame::Part(Parted::Head, of) => Ok(begin_loop(of, by)),
    }
}
