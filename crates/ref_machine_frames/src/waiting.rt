ghost use Rattle.std.specs.Prelude.{◌≡◌, ◌+◌, IfOk};
ghost use Rattle.c_tree.specs.Tree.{Program};
ghost use Rattle.c_tree.specs.View.{expr_of, stmt_of};
ghost use Rattle.c_values.specs.Memory.{Objects};
ghost use Rattle.c_meaning.specs.Results.{then_do};
ghost use Rattle.ref_machine_frames.specs.Held.{eval, exec};
ghost use Rattle.ref_machine_frames.specs.Frames.{place_of, with_value, in_statement, with_exit};
ghost use Rattle.ref_machine_frames.specs.Parts.{Gives, Leaves};
ghost use Rattle.ref_machine_frames.specs.Work.{of_all, of_exit_frame, of_expr, of_statement_frame, of_stmt, of_value_frame, work};
ghost use Rattle.ref_machine_frames.specs.declared.frames.Here.{Here as Activation};

use crate::frames::{ExitFrame, Frame, Now, StatementFrame, ValueFrame};
use c_tree::{TExpr, TStmt};
use dm_base::OutOfMemory;

/// An expression is evaluated, and this frame of an expression waits for its value.
pub fn wait<'p>(
    todo: &mut Vec<Frame<'p>>,
    frame: ValueFrame<'p>,
    wanted: bool,
    of: &'p TExpr,
) -> Result<Now<'p>, OutOfMemory>
    ensures same { IfOk result (λ now. (p : Program) (h : Activation) (m : Objects) → Gives p h m todo.old.items (λ w st. then_do (eval p w (place_of h) wanted (expr_of of.now) st) (with_value p w (place_of h) frame.entry)) now m todo.new.items) }
    ensures less { IfOk result (λ now. work now todo.new.items ≡ of_expr (expr_of of.now) + (of_value_frame frame.entry + of_all todo.old.items)) }
{
    todo.push(Frame::Value(frame))?;
    Ok(Now::Eval { wanted, of })
}

/// An expression is evaluated, and this frame of a statement waits for its value.
pub fn wait_in_statement<'p>(
    todo: &mut Vec<Frame<'p>>,
    frame: StatementFrame<'p>,
    wanted: bool,
    of: &'p TExpr,
) -> Result<Now<'p>, OutOfMemory>
    ensures same { IfOk result (λ now. (p : Program) (h : Activation) (m : Objects) → Leaves p h m todo.old.items (λ w st. then_do (eval p w (place_of h) wanted (expr_of of.now) st) (in_statement p w (place_of h) frame.entry)) now m todo.new.items) }
    ensures less { IfOk result (λ now. work now todo.new.items ≡ of_expr (expr_of of.now) + (of_statement_frame frame.entry + of_all todo.old.items)) }
{
    todo.push(Frame::Statement(frame))?;
    Ok(Now::Eval { wanted, of })
}

/// A statement is done, and this frame waits for how it is left.
pub fn wait_for_statement<'p>(
    todo: &mut Vec<Frame<'p>>,
    frame: ExitFrame<'p>,
    statement: &'p TStmt,
) -> Result<Now<'p>, OutOfMemory>
    ensures same { IfOk result (λ now. (p : Program) (h : Activation) (m : Objects) → Leaves p h m todo.old.items (λ w st. then_do (exec p w (place_of h) (stmt_of statement.now) st) (with_exit p w (place_of h) frame.entry)) now m todo.new.items) }
    ensures less { IfOk result (λ now. work now todo.new.items ≡ of_stmt (stmt_of statement.now) + (of_exit_frame frame.entry + of_all todo.old.items)) }
{
    todo.push(Frame::Exit(frame))?;
    Ok(Now::Exec(statement))
}
