ghost use Rattle.std.specs.Prelude.{◌≤◌, ◌<◌, ◌+◌, IfOk, List, false};
ghost use Rattle.c_tree.specs.Tree.{Program};
ghost use Rattle.c_tree.specs.View.{inits_of, stmt_of};
ghost use Rattle.c_values.specs.Memory.{Objects};
ghost use Rattle.c_values.specs.Seen.{seen};
ghost use Rattle.c_meaning.specs.Meaning.{name_in};
ghost use Rattle.c_meaning.specs.Pointers.{place, store_place};
ghost use Rattle.c_meaning.specs.Results.{remembered, then_do};
ghost use Rattle.ref_machine_frames.specs.Held.{initialise};
ghost use Rattle.ref_machine_frames.specs.Frames.{asked, going_round, in_statement, one_of, place_of, rounds_of};
ghost use Rattle.ref_machine_frames.specs.Parts.{Leaves};
ghost use Rattle.ref_machine_frames.specs.declared.frames.Frame.{Frame as Todo};
ghost use Rattle.ref_machine_frames.specs.declared.frames.Here.{Here as Activation};
ghost use Rattle.ref_machine_frames.specs.Work.{of_all, of_branches, of_inits, of_now, of_round, of_statement_frame, work};

use crate::rounds::going_round;
use crate::sequences::initialisers;
use crate::switches::switched;
use crate::variables::name_here;
use crate::{Frame, Here, Left, Now, StatementFrame, Valued, place, stopped, store_place, test};
use c_tree::{TInit, TStmt, Value};
use c_values::Memory;
use dm_base::OutOfMemory;

// A cell of a variable gets the value, and then the later ones theirs.
fn initialised<'p>(
    memory: &mut Memory,
    todo: &mut Vec<Frame<'p>>,
    here: Here<'p>,
    variable: u32,
    cell: u32,
    rest: &'p [TInit],
    v: Value,
) -> Result<Now<'p>, OutOfMemory>
    ensures same { IfOk result (λ now. (p : Program) → Leaves p here.entry (seen memory.old) todo.old.items (λ w st. then_do (remembered (store_place st.memory (place (name_in (place_of here.entry) false variable) cell 1) v) v st) (λ v st. initialise p w (place_of here.entry) variable (inits_of rest.now) st)) now (seen memory.new) todo.new.items) }
    ensures less { IfOk result (λ now. work now todo.new.items ≤ of_inits (inits_of rest.now) + of_all todo.old.items) }
{
    match store_place(memory, place(name_here(here, variable), cell, 1), v) {
        Ok(()) => initialisers(todo, variable, rest),
        Err(fault) => Ok(stopped(fault)),
    }
}

// One of the two statements of an `if`.
fn one_of<'p>(of: &'p TStmt, holds: bool) -> Now<'p>
    ensures same { (p : Program) (h : Activation) (m : Objects) (todo : List Todo) → Leaves p h m todo (λ w st. one_of p w (place_of h) (stmt_of of.now) holds st) result m todo }
    ensures less { of_now result ≤ of_branches (stmt_of of.now) }
{
    let TStmt::If { yes, no, .. } = of else {
        return Now::Mistyped;
    };
    if holds {
        return Now::Exec(yes);
    }
    match no {
        Some(no) => Now::Exec(no),
        None => Now::Left(Left::On),
    }
}

// What comes of the condition of an `if`.
fn tested<'p>(memory: &Memory, of: &'p TStmt, v: Value) -> Now<'p>
    ensures same { (p : Program) (h : Activation) (todo : List Todo) → Leaves p h (seen memory.now) todo (λ w st. then_do (asked v st) (one_of p w (place_of h) (stmt_of of.now))) result (seen memory.now) todo }
    ensures less { of_now result ≤ of_branches (stmt_of of.now) }
{
    match test(memory, v) {
        Ok(holds) => one_of(of, holds),
        Err(fault) => stopped(fault),
    }
}

// What comes of the value of the condition of a loop.
fn tested_loop<'p>(
    memory: &Memory,
    todo: &mut Vec<Frame<'p>>,
    of: &'p TStmt,
    v: Value,
) -> Result<Now<'p>, OutOfMemory>
    ensures same { IfOk result (λ now. (p : Program) (h : Activation) → Leaves p h (seen memory.now) todo.old.items (λ w st. then_do (asked v st) (going_round p w (place_of h) (rounds_of (stmt_of of.now)))) now (seen memory.now) todo.new.items) }
    ensures less { IfOk result (λ now. work now todo.new.items ≤ of_round (rounds_of (stmt_of of.now)) + of_all todo.old.items) }
{
    match test(memory, v) {
        Ok(holds) => going_round(todo, of, holds),
        Err(fault) => Ok(stopped(fault)),
    }
}

/// What comes of a value in a statement (C99 6.8). Where memory is refused, `memory` and `todo` may have been changed.
pub fn in_statement<'p>(
    memory: &mut Memory,
    todo: &mut Vec<Frame<'p>>,
    here: Here<'p>,
    frame: StatementFrame<'p>,
    v: Value,
) -> Result<Now<'p>, OutOfMemory>
    ensures same { IfOk result (λ now. (p : Program) → Leaves p here.entry (seen memory.old) todo.old.items (λ w st. in_statement p w (place_of here.entry) frame.entry v st) now (seen memory.new) todo.new.items) }
    ensures less { IfOk result (λ now. work now todo.new.items < of_statement_frame frame.entry + of_all todo.old.items) }
{
    match frame {
        StatementFrame::Forget => Ok(Now::Left(Left::On)),
        StatementFrame::Give => Ok(Now::Left(Left::Returned(Some(v)))),
        StatementFrame::Initialise {
            variable,
            cell,
            rest,
        } => initialised(memory, todo, here, variable, cell, rest, v),
        StatementFrame::Part(Valued::If, of) => Ok(tested(memory, of, v)),
        StatementFrame::Part(Valued::Switch, of) => switched(todo, v, of),
        StatementFrame::Part(Valued::Test, of) => tested_loop(memory, todo, of, v),
        StatementFrame::Part(Valued::Step, of) => Ok(Now::Test(of)),
    }
}
