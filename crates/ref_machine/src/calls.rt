ghost use Rattle.std.specs.Prelude.{◌≡◌, ℕ, ◌+◌, ◌-◌, ◌^◌, ◌<◌, ◌≤◌, List, length, nat_eq, slice_get, IfOk};
ghost use Rattle.sys_table.specs.declared.sys_result.SysResult.{SysResult as Record};
ghost use Rattle.c_tree.specs.Functions.{defined};
ghost use Rattle.c_tree.specs.Tree.{Program as Term};
ghost use Rattle.c_tree.specs.View.{program_of};
ghost use Rattle.c_values.specs.Memory.{Objects};
ghost use Rattle.c_values.specs.Seen.{seen};
ghost use Rattle.c_meaning.specs.Meaning.{World, without};
ghost use Rattle.c_meaning.specs.Results.{State, then_do, with_memory};
ghost use Rattle.c_meaning.specs.Runs.{result_of, without_value};
ghost use Rattle.ref_machine_frames.specs.Held.{run_body, run_few};
ghost use Rattle.ref_machine_frames.specs.declared.frames.Frame.{Frame as Todo};
ghost use Rattle.ref_machine_frames.specs.Frames.{after_value, exit_in, numbers, out_of_call, place_of, rest, stack};
ghost use Rattle.ref_machine_frames.specs.Parts.{Does};
ghost use Rattle.ref_machine_frames.specs.Work.{of_now};
ghost use Rattle.ref_machine.specs.Standing.{state};

use c_tree::{ObjectName, Program, Value};
use c_values::Memory;
use dm_base::{Kind, OutOfMemory, Outcome};
use ref_machine_frames::{Call, Frame, Here, Left, Now, set_parameters};

// Enters a function that is defined, with at most 16 arguments, once its turn is spent.
fn enter_defined<'p>(
    program: &'p Program,
    memory: &mut Memory,
    todo: &mut Vec<Frame<'p>>,
    here: &mut Here<'p>,
    entries: &mut u64,
    wanted: bool,
    f: u32,
    values: &[Value],
) -> Result<Now<'p>, OutOfMemory>
    requires known { f < defined (program_of program.now) }
    requires few { length values.now ≤ 16 }
    requires room { entries.old < 2 ^ 64 - 1 }
    ensures entered { IfOk result (λ now. (w : World) (rs : List Record) (taken turns : ℕ) → rest (program_of program.now) w (place_of here.new) now (stack todo.new.items) (state (seen memory.new) entries.new rs taken turns) ≡ then_do (run_body (program_of program.now) w (nat_eq f (program_of program.now).main) wanted (slice_get (program_of program.now).functions f) values.now (state (seen memory.old) entries.old rs taken turns)) (after_value (program_of program.now) w (place_of here.old) (stack todo.old.items))) }
    ensures counted { entries.new ≤ entries.old + 1 }
{
    let activation = *entries + 1;
    let function = program.function(f);
    set_parameters(memory, activation, values)?;
    let call = Call {
        caller: *here,
        is_main: f == program.main(),
        wanted,
        parameters: values.len() as u32,
    };
    todo.push(Frame::Call(call))?;
    *here = Here {
        activation,
        types: &function.variables,
    };
    *entries = activation;
    Ok(Now::Exec(&function.body))
}

// Enters a function, once its turn is spent.
pub fn enter<'p>(
    program: &'p Program,
    memory: &mut Memory,
    todo: &mut Vec<Frame<'p>>,
    here: &mut Here<'p>,
    entries: &mut u64,
    wanted: bool,
    f: u32,
    values: &[Value],
) -> Result<Now<'p>, OutOfMemory>
    requires { entries.old < 2 ^ 64 - 1 }
    ensures entered { IfOk result (λ now. (w : World) (rs : List Record) (taken turns : ℕ) → rest (program_of program.now) w (place_of here.new) now (stack todo.new.items) (state (seen memory.new) entries.new rs taken turns) ≡ then_do (run_few (program_of program.now) w (nat_eq f (program_of program.now).main) wanted (slice_get (program_of program.now).functions f) values.now (state (seen memory.old) entries.old rs taken turns)) (after_value (program_of program.now) w (place_of here.old) (stack todo.old.items))) }
    ensures counted { entries.new ≤ entries.old + 1 }
{
    if values.len() > 16 {
        return Ok(Now::Mistyped);
    }
    let count = program.defined();
    if f < count {
        return enter_defined(program, memory, todo, here, entries, wanted, f, values);
    }
    Ok(Now::Mistyped)
}

// The parameters of an activation end.
fn end_parameters(memory: &mut Memory, activation: u64, count: u32)
    ensures { seen memory.new ≡ without activation (numbers 0 count) (seen memory.old) }
{
    for variable in 0..count {
        memory.end(ObjectName {
            activation,
            variable,
        });
    }
}

// Undefined behaviour of a function that ends without its value (C99 6.9.1 paragraph 12).
fn without_value<'p>(is_main: bool, wanted: bool) -> Now<'p>
    ensures same { (p : Term) (m : Objects) → Does p m (λ w st. without_value is_main wanted st) result }
    ensures done { of_now result ≡ 0 }
{
    if is_main {
        return Now::Have(Value::Int(0));
    }
    if !wanted {
        return Now::Have(Value::Indeterminate);
    }
    match Kind::from_number(11) {
        Some(kind) => Now::Stopped(Outcome::Undefined(kind)),
        None => unreachable!(),
    }
}

// What a call gives, by how its function is left.
fn value_of<'p>(is_main: bool, wanted: bool, by: Left) -> Now<'p>
    ensures same { (p : Term) (m : Objects) → Does p m (λ w st. result_of is_main wanted (exit_in by) st) result }
    ensures done { of_now result ≡ 0 }
{
    match by {
        Left::Returned(given) => match given {
            Some(v) => Now::Have(v),
            None => without_value(is_main, wanted),
        },
        Left::On => without_value(is_main, wanted),
        Left::Broken => Now::Mistyped,
        Left::Continued => Now::Mistyped,
    }
}

// A function is left: its parameters end, and the call gives its value to the caller.
pub fn leave_call<'p>(memory: &mut Memory, here: &mut Here<'p>, call: Call<'p>, by: Left) -> Now<'p>
    ensures same { (p : Term) (w : World) (todo : List Todo) (st : State) → rest p w (place_of here.new) result (stack todo) (with_memory st (seen memory.new)) ≡ then_do (out_of_call (place_of here.old) call.entry (exit_in by) (with_memory st (seen memory.old))) (after_value p w (place_of call.entry.caller) (stack todo)) }
    ensures done { of_now result ≡ 0 }
{
    end_parameters(memory, here.activation, call.parameters);
    *here = call.caller;
    value_of(call.is_main, call.wanted, by)
}
