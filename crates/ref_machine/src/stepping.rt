ghost use Rattle.std.specs.Prelude.{◌≡◌, ◌≤◌, ◌<◌, ◌+◌, ◌^◌, ◌↔◌, IsTrue, ℕ, List, [], ◌∷◌, IfOk};
ghost use Rattle.c_tree.specs.Tree.{Program as Term};
ghost use Rattle.sys_table.specs.declared.sys_result.SysResult.{SysResult as Record};
ghost use Rattle.c_tree.specs.View.{program_of, stmt_of};
ghost use Rattle.c_values.specs.Memory.{Objects};
ghost use Rattle.c_values.specs.Seen.{seen};
ghost use Rattle.c_meaning.specs.Meaning.{World, Frame as Place};
ghost use Rattle.c_meaning.specs.Results.{State, Stop, then_do, with_memory};
ghost use Rattle.c_meaning.specs.Runs.{exit_of};
ghost use Rattle.ref_machine_frames.specs.Held.{world};
ghost use Rattle.ref_machine_frames.specs.declared.frames.Here.{Here as Activation};
ghost use Rattle.ref_machine_frames.specs.declared.frames.Frame.{Frame as Todo};
ghost use Rattle.ref_machine_frames.specs.Cells.{AreCells};
ghost use Rattle.ref_machine_frames.specs.Frames.{after_exit, after_value, exit_in, place_of, rest, rounds_of, stack, then_comes};
ghost use Rattle.ref_machine_frames.specs.Parts.{IsAnswer};
ghost use Rattle.ref_machine_frames.specs.Work.{of_all, of_bit, of_frame, of_now, work};
ghost use Rattle.ref_machine_frames.specs.Faults.{told};
ghost use Rattle.ref_machine.specs.Standing.{EndsRightly, IsCostly, IsPausing, SameLeft, Standing, left_of, state};

use crate::calls::{enter, leave_call};
use c_tree::{Program, TStmt, Value};
use c_values::Memory;
use dm_base::{OutOfMemory, Outcome};
use ref_machine_expressions::{begin, with_value};
use ref_machine_frames::{
    After, Fault, Frame, Here, Left, Now, begin_statement, given, in_statement, test_loop,
    with_exit,
};
use std::alloc::Global;

// The end of the run with the value of main.
fn end<'p>(v: Value) -> Now<'p>
    ensures same { (p : Term) (w : World) (fr : Place) (todo : List Todo) (st : State) → rest p w fr result todo st ≡ Stop (exit_of v) [] }
    ensures ended { of_now result + of_bit result ≡ 0 }
{
    match v {
        Value::Int(status) => Now::Stopped(Outcome::Exit(status)),
        _ => Now::Mistyped,
    }
}

// What comes of a value, where this is left to do.
fn with_frame<'p>(
    alloc: Global,
    program: &'p Program,
    counts: &[u32],
    memory: &mut Memory,
    todo: &mut Vec<Frame<'p>>,
    here: Here<'p>,
    frame: Frame<'p>,
    v: Value,
) -> Result<Now<'p>, OutOfMemory>
    requires { AreCells (program_of program.now).structs counts.now }
    ensures same { IfOk result (λ now. (w : World) (st : State) → rest (program_of program.now) w (place_of here.entry) now (stack todo.new.items) (with_memory st (seen memory.new)) ≡ after_value (program_of program.now) w (place_of here.entry) (frame.entry ∷ stack todo.old.items) v (with_memory st (seen memory.old))) }
    ensures less { IfOk result (λ now. work now todo.new.items + of_bit now ≤ of_frame frame.entry + of_all todo.old.items) }
{
    match frame {
        Frame::Value(frame) => with_value(alloc, program, counts, memory, todo, frame, v),
        Frame::Statement(frame) => in_statement(memory, todo, here, frame, v),
        Frame::Exit(_) => Ok(Now::Mistyped),
        Frame::Call(_) => Ok(Now::Mistyped),
    }
}

// What comes of a value.
fn have<'p>(
    alloc: Global,
    program: &'p Program,
    counts: &[u32],
    memory: &mut Memory,
    todo: &mut Vec<Frame<'p>>,
    here: Here<'p>,
    v: Value,
) -> Result<Now<'p>, OutOfMemory>
    requires { AreCells (program_of program.now).structs counts.now }
    ensures same { IfOk result (λ now. (w : World) (st : State) → rest (program_of program.now) w (place_of here.entry) now (stack todo.new.items) (with_memory st (seen memory.new)) ≡ after_value (program_of program.now) w (place_of here.entry) (stack todo.old.items) v (with_memory st (seen memory.old))) }
    ensures less { IfOk result (λ now. work now todo.new.items + of_bit now ≤ of_all todo.old.items) }
{
    match todo.pop() {
        None => Ok(end(v)),
        Some(frame) => with_frame(alloc, program, counts, memory, todo, here, frame, v),
    }
}

// What comes of an exit, where this is left to do.
fn left_with<'p>(
    memory: &mut Memory,
    todo: &mut Vec<Frame<'p>>,
    here: &mut Here<'p>,
    frame: Frame<'p>,
    by: Left,
) -> Result<Now<'p>, OutOfMemory>
    ensures same { IfOk result (λ now. (p : Term) (w : World) (st : State) → rest p w (place_of here.new) now (stack todo.new.items) (with_memory st (seen memory.new)) ≡ after_exit p w (place_of here.old) (frame.entry ∷ stack todo.old.items) (exit_in by) (with_memory st (seen memory.old))) }
    ensures less { IfOk result (λ now. work now todo.new.items + of_bit now ≤ of_frame frame.entry + of_all todo.old.items) }
{
    match &frame {
        Frame::Exit(frame) => with_exit(memory, todo, *here, *frame, by),
        Frame::Call(call) => Ok(leave_call(memory, here, *call, by)),
        Frame::Value(_) => Ok(Now::Mistyped),
        Frame::Statement(_) => Ok(Now::Mistyped),
    }
}

// What comes of an exit.
fn left<'p>(
    memory: &mut Memory,
    todo: &mut Vec<Frame<'p>>,
    here: &mut Here<'p>,
    by: Left,
) -> Result<Now<'p>, OutOfMemory>
    ensures same { IfOk result (λ now. (p : Term) (w : World) (st : State) → rest p w (place_of here.new) now (stack todo.new.items) (with_memory st (seen memory.new)) ≡ after_exit p w (place_of here.old) (stack todo.old.items) (exit_in by) (with_memory st (seen memory.old))) }
    ensures less { IfOk result (λ now. work now todo.new.items + of_bit now ≤ of_all todo.old.items) }
{
    match todo.pop() {
        None => Ok(Now::Mistyped),
        Some(frame) => left_with(memory, todo, here, frame, by),
    }
}

// A function is entered, which costs a turn.
fn enter_in_turn<'p>(
    program: &'p Program,
    memory: &mut Memory,
    todo: &mut Vec<Frame<'p>>,
    here: &mut Here<'p>,
    entries: &mut u64,
    turns: &mut u32,
    wanted: bool,
    f: u32,
    values: &[Value],
) -> Result<Now<'p>, OutOfMemory>
    requires some { 0 < turns.old }
    requires few { entries.old + turns.old < 2 ^ 32 }
    ensures same { IfOk result (λ next. (n : ℕ) (records : List Record) (taken : ℕ) → turns.old ≤ n → left_of (program_of program.now) n (record { here = here.new; memory = seen memory.new; entries = entries.new; turns = turns.new; now = next; todo = todo.new.items }) records taken ≡ then_do ((world (program_of program.now) n).enter wanted f values.now (state (seen memory.old) entries.old records taken turns.old)) (after_value (program_of program.now) (world (program_of program.now) n) (place_of here.old) (stack todo.old.items))) }
    ensures fewer { turns.new < turns.old }
    ensures spent { entries.new + turns.new ≤ entries.old + turns.old }
{
    *turns -= 1;
    enter(program, memory, todo, here, entries, wanted, f, values)
}

// A loop is tested, which costs a turn.
fn test_in_turn<'p>(
    todo: &mut Vec<Frame<'p>>,
    turns: &mut u32,
    of: &'p TStmt,
) -> Result<Now<'p>, OutOfMemory>
    requires { 0 < turns.old }
    ensures same { IfOk result (λ next. (p : Term) (h : Activation) (m : Objects) (entries n : ℕ) (records : List Record) (taken : ℕ) → turns.old ≤ n → left_of p n (record { here = h; memory = m; entries = entries; turns = turns.new; now = next; todo = todo.new.items }) records taken ≡ then_do ((world p n).again (place_of h) (rounds_of (stmt_of of.now)) (state m entries records taken turns.old)) (after_exit p (world p n) (place_of h) (stack todo.old.items))) }
    ensures fewer { turns.new < turns.old }
{
    *turns -= 1;
    test_loop(todo, of)
}

// Whether the next step costs no turn.
fn is_free(now: &Now) -> bool
    ensures { IsTrue result ↔ (of_bit now.now ≡ 1) }
{
    matches!(
        now,
        Now::Eval { .. } | Now::Have(_) | Now::Exec(_) | Now::Left(_)
    )
}

// Whether it costs a turn.
fn is_costly(now: &Now) -> bool
    ensures { IsTrue result ↔ IsCostly now.now }
{
    matches!(now, Now::Enter { .. } | Now::Test(_))
}

// One step that costs no turn.
fn free_step<'p>(
    alloc: Global,
    program: &'p Program,
    counts: &[u32],
    memory: &mut Memory,
    todo: &mut Vec<Frame<'p>>,
    here: &mut Here<'p>,
    now: Now<'p>,
) -> Result<Now<'p>, OutOfMemory>
    requires { AreCells (program_of program.now).structs counts.now }
    ensures same { IfOk result (λ next. (entries turns : ℕ) → SameLeft (program_of program.now) (record { here = here.old; memory = seen memory.old; entries = entries; turns = turns; now = now.entry; todo = todo.old.items }) (record { here = here.new; memory = seen memory.new; entries = entries; turns = turns; now = next; todo = todo.new.items })) }
    ensures less { IfOk result (λ next. of_bit now.entry ≡ 1 → work next todo.new.items + of_bit next < work now.entry todo.old.items + of_bit now.entry) }
{
    match now {
        Now::Eval { wanted, of } => begin(alloc, program, counts, memory, todo, *here, wanted, of),
        Now::Have(v) => have(alloc, program, counts, memory, todo, *here, v),
        Now::Exec(s) => begin_statement(program, counts, memory, todo, *here, s),
        Now::Left(by) => left(memory, todo, here, by),
        other => Ok(other),
    }
}

// Goes on to the next step that costs a turn, or to the next event, need of a record or end.
fn freely<'p>(
    alloc: Global,
    program: &'p Program,
    counts: &[u32],
    memory: &mut Memory,
    todo: &mut Vec<Frame<'p>>,
    here: &mut Here<'p>,
    now: Now<'p>,
) -> Result<Now<'p>, OutOfMemory>
    requires { AreCells (program_of program.now).structs counts.now }
    ensures same { IfOk result (λ next. (entries turns : ℕ) → SameLeft (program_of program.now) (record { here = here.old; memory = seen memory.old; entries = entries; turns = turns; now = now.entry; todo = todo.old.items }) (record { here = here.new; memory = seen memory.new; entries = entries; turns = turns; now = next; todo = todo.new.items })) }
    ensures rests { IfOk result (λ next. of_bit next ≡ 1 → ⊥) }
{
    let mut next = now;
    'steps: while is_free(&next) {
        next = free_step(alloc, program, counts, memory, todo, here, next)?;
    }
    Ok(next)
}

// One step that costs a turn.
fn costly_step<'p>(
    program: &'p Program,
    memory: &mut Memory,
    todo: &mut Vec<Frame<'p>>,
    here: &mut Here<'p>,
    entries: &mut u64,
    turns: &mut u32,
    now: Now<'p>,
) -> Result<Now<'p>, OutOfMemory>
    requires costly { IsCostly now }
    requires some { 0 < turns.old }
    requires few { entries.old + turns.old < 2 ^ 32 }
    ensures same { IfOk result (λ next. SameLeft (program_of program.now) (record { here = here.old; memory = seen memory.old; entries = entries.old; turns = turns.old; now = now.entry; todo = todo.old.items }) (record { here = here.new; memory = seen memory.new; entries = entries.new; turns = turns.new; now = next; todo = todo.new.items })) }
    ensures fewer { turns.new < turns.old }
    ensures spent { entries.new + turns.new ≤ entries.old + turns.old }
{
    match now {
        Now::Enter {
            wanted,
            function,
            arguments,
        } => {
            enter_in_turn(
                program, memory, todo, here, entries, turns, wanted, function, &arguments,
            )
        }
        Now::Test(of) => test_in_turn(todo, turns, of),
        _ => unreachable!(),
    }
}

// Goes on to the next event, need of a record or end.
pub fn go_on<'p>(
    alloc: Global,
    program: &'p Program,
    counts: &[u32],
    memory: &mut Memory,
    todo: &mut Vec<Frame<'p>>,
    here: &mut Here<'p>,
    entries: &mut u64,
    turns: &mut u32,
    now: Now<'p>,
) -> Result<Now<'p>, OutOfMemory>
    requires counted { AreCells (program_of program.now).structs counts.now }
    requires few { entries.old + turns.old < 2 ^ 32 }
    ensures same { IfOk result (λ next. SameLeft (program_of program.now) (record { here = here.old; memory = seen memory.old; entries = entries.old; turns = turns.old; now = now.entry; todo = todo.old.items }) (record { here = here.new; memory = seen memory.new; entries = entries.new; turns = turns.new; now = next; todo = todo.new.items })) }
    ensures fewer { turns.new ≤ turns.old }
    ensures spent { entries.new + turns.new ≤ entries.old + turns.old }
    ensures pausing { IfOk result (λ next. IsPausing next) }
{
    let mut next = freely(alloc, program, counts, memory, todo, here, now)?;
    'turns: while is_costly(&next) {
        if *turns == 0 {
            return Ok(Now::Stopped(Outcome::Turns));
        }
        next = costly_step(program, memory, todo, here, entries, turns, next)?;
        next = freely(alloc, program, counts, memory, todo, here, next)?;
    }
    Ok(next)
}

// What comes after the event of a system call.
pub fn settled<'p>(value: Result<Value, Fault>) -> Now<'p>
    ensures { IsAnswer (told value) result }
{
    given(value)
}

// What comes after an event, whose status is an `int` where the run ends with it.
pub fn coming<'p>(then: After) -> Now<'p>
    requires { EndsRightly then }
    ensures { (p : Term) (w : World) (fr : Place) (todo : List Todo) (st : State) → rest p w fr result todo st ≡ then_comes p w fr then todo st }
{
    match then {
        After::Have(v) => Now::Have(v),
        After::Exited(status) => Now::Stopped(Outcome::Exit(status as i32)),
    }
}
