ghost use Rattle.std.specs.Prelude.{◌≤◌, ◌<◌, ◌+◌, IfOk, slice_get};
ghost use Rattle.c_tree.specs.Tree.{Program};
ghost use Rattle.c_tree.specs.View.{inits_of, program_of, stmt_of, stmts_of};
ghost use Rattle.c_values.specs.Memory.{Objects};
ghost use Rattle.c_values.specs.Seen.{seen};
ghost use Rattle.c_meaning.specs.Results.{then_do};
ghost use Rattle.ref_machine_frames.specs.Held.{exec, exec_all, fresh, initialise};
ghost use Rattle.ref_machine_frames.specs.Cells.{AreCells};
ghost use Rattle.ref_machine_frames.specs.Frames.{after_part, place_of};
ghost use Rattle.ref_machine_frames.specs.Parts.{Leaves};
ghost use Rattle.ref_machine_frames.specs.declared.frames.Here.{Here as Activation};
ghost use Rattle.ref_machine_frames.specs.declared.frames.Parted.TheVariants.{Head, Whole};
ghost use Rattle.ref_machine_frames.specs.Work.{of_all, of_inits, of_stmt, of_stmts, work};

use crate::sequences::{initialisers, statements};
use crate::variables::name_here;
use crate::{
    ExitFrame, Frame, Here, Left, Now, Parted, StatementFrame, Valued, cells_in, stopped,
    wait_for_statement, wait_in_statement,
};
use c_tree::{Program as Checked, TInit, TStmt};
use c_values::Memory;
use dm_base::OutOfMemory;

// A variable has new cells, and these get their values.
fn declare<'p>(
    program: &Checked,
    counts: &[u32],
    memory: &mut Memory,
    todo: &mut Vec<Frame<'p>>,
    here: Here<'p>,
    variable: u32,
    init: &'p [TInit],
) -> Result<Now<'p>, OutOfMemory>
    requires { AreCells (program_of program.now).structs counts.now }
    ensures same { IfOk result (λ now. Leaves (program_of program.now) here.entry (seen memory.old) todo.old.items (λ w st. then_do (fresh (program_of program.now).structs (place_of here.entry) variable (slice_get (place_of here.entry).types variable) st) (λ y st. initialise (program_of program.now) w (place_of here.entry) variable (inits_of init.now) st)) now (seen memory.new) todo.new.items) }
    ensures less { IfOk result (λ now. work now todo.new.items ≤ of_inits (inits_of init.now) + of_all todo.old.items) }
{
    let Some(t) = here.types.get(variable as usize) else {
        return Ok(Now::Mistyped);
    };
    match cells_in(counts, t) {
        Ok(count) => {
            memory.declare(name_here(here, variable), count)?;
            initialisers(todo, variable, init)
        }
        Err(fault) => Ok(stopped(fault)),
    }
}

// The statements of a block or of the head of a `for`, whose variables end with it.
fn whole<'p>(
    todo: &mut Vec<Frame<'p>>,
    of: &'p TStmt,
    left: &'p [TStmt],
) -> Result<Now<'p>, OutOfMemory>
    ensures same { IfOk result (λ now. (p : Program) (h : Activation) (m : Objects) → Leaves p h m todo.old.items (λ w st. then_do (exec_all p w (place_of h) (stmts_of left.now) st) (after_part p w (place_of h) Whole (stmt_of of.now))) now m todo.new.items) }
    ensures less { IfOk result (λ now. work now todo.new.items ≤ 1 + (of_stmts (stmts_of left.now) + of_all todo.old.items)) }
{
    todo.push(Frame::Exit(ExitFrame::Part(Parted::Whole, of)))?;
    statements(todo, left)
}

// The head of a `for`, and then its rounds.
fn head<'p>(
    todo: &mut Vec<Frame<'p>>,
    of: &'p TStmt,
    left: &'p [TStmt],
) -> Result<Now<'p>, OutOfMemory>
    ensures same { IfOk result (λ now. (p : Program) (h : Activation) (m : Objects) → Leaves p h m todo.old.items (λ w st. then_do (exec_all p w (place_of h) (stmts_of left.now) st) (after_part p w (place_of h) Head (stmt_of of.now))) now m todo.new.items) }
    ensures less { IfOk result (λ now. work now todo.new.items ≤ 2 + (of_stmts (stmts_of left.now) + of_all todo.old.items)) }
{
    todo.push(Frame::Exit(ExitFrame::Part(Parted::Head, of)))?;
    statements(todo, left)
}

// A `for`, whose variables end with it.
fn begin_for<'p>(
    todo: &mut Vec<Frame<'p>>,
    of: &'p TStmt,
    left: &'p [TStmt],
) -> Result<Now<'p>, OutOfMemory>
    ensures same { IfOk result (λ now. (p : Program) (h : Activation) (m : Objects) → Leaves p h m todo.old.items (λ w st. then_do (then_do (exec_all p w (place_of h) (stmts_of left.now) st) (after_part p w (place_of h) Head (stmt_of of.now))) (after_part p w (place_of h) Whole (stmt_of of.now))) now m todo.new.items) }
    ensures less { IfOk result (λ now. work now todo.new.items ≤ 3 + (of_stmts (stmts_of left.now) + of_all todo.old.items)) }
{
    todo.push(Frame::Exit(ExitFrame::Part(Parted::Whole, of)))?;
    head(todo, of, left)
}

/// How a statement begins (C99 6.8). `counts` has the number of cells of each struct. Where memory is refused, `memory` and
/// `todo` may have been changed.
pub fn begin_statement<'p>(
    program: &Checked,
    counts: &[u32],
    memory: &mut Memory,
    todo: &mut Vec<Frame<'p>>,
    here: Here<'p>,
    s: &'p TStmt,
) -> Result<Now<'p>, OutOfMemory>
    requires { AreCells (program_of program.now).structs counts.now }
    ensures same { IfOk result (λ now. Leaves (program_of program.now) here.entry (seen memory.old) todo.old.items (λ w st. exec (program_of program.now) w (place_of here.entry) (stmt_of s.now) st) now (seen memory.new) todo.new.items) }
    ensures less { IfOk result (λ now. work now todo.new.items < of_stmt (stmt_of s.now) + of_all todo.old.items) }
{
    match s {
        TStmt::Block(ss) => whole(todo, s, ss),
        TStmt::Empty => Ok(Now::Left(Left::On)),
        TStmt::Expr(e) => wait_in_statement(todo, StatementFrame::Forget, false, e),
        TStmt::Declare { variable, init } => {
            declare(program, counts, memory, todo, here, *variable, init)
        }
        TStmt::If { test, .. } => wait_in_statement(
            todo,
            StatementFrame::Part(Valued::If, s),
            true,
            test,
        ),
        TStmt::While { .. } => Ok(Now::Test(s)),
        TStmt::Do { body, .. } => wait_for_statement(todo, ExitFrame::Part(Parted::Round, s), body),
        TStmt::For { first, .. } => begin_for(todo, s, first),
        TStmt::Switch { on, .. } => wait_in_statement(
            todo,
            StatementFrame::Part(Valued::Switch, s),
            true,
            on,
        ),
        TStmt::Break => Ok(Now::Left(Left::Broken)),
        TStmt::Continue => Ok(Now::Left(Left::Continued)),
        TStmt::Return(given) => match given {
            None => Ok(Now::Left(Left::Returned(None))),
            Some(e) => wait_in_statement(todo, StatementFrame::Give, true, e),
        },
    }
}
