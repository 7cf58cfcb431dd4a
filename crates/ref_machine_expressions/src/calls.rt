ghost use Rattle.std.specs.Prelude.{◌+◌, ◌≡◌, ◌++◌, ◌∷◌, [], ◌≤◌, IfOk, length};
ghost use Rattle.c_tree.specs.declared.value.Value.TheVariants.{Uint};
ghost use Rattle.c_tree.specs.Tree.{Program as Term};
ghost use Rattle.c_tree.specs.View.{ctype_of, exprs_of, program_of};
ghost use Rattle.c_values.specs.Memory.{Objects};
ghost use Rattle.c_values.specs.Seen.{seen};
ghost use Rattle.c_meaning.specs.Meaning.{wants};
ghost use Rattle.c_meaning.specs.Results.{then_do};
ghost use Rattle.c_meaning.specs.SystemCalls.{Request as Asked, exit_with};
ghost use Rattle.c_values.specs.Answers.{Answer};
ghost use Rattle.ref_machine_frames.specs.Asking.{IsRefusal};
ghost use Rattle.ref_machine_frames.specs.Requests.{asked_by};
ghost use Rattle.ref_machine_frames.specs.Held.{call_undefined, called, called_through, eval_all, system_call, system_call_alone};
ghost use Rattle.ref_machine_expressions.specs.Asking.{asking, site_of, IsStop};
ghost use Rattle.ref_machine_frames.specs.Frames.{made, place_of};
ghost use Rattle.ref_machine_frames.specs.Parts.{Does, Gives};
ghost use Rattle.ref_machine_frames.specs.declared.frames.Here.{Here as Activation};
ghost use Rattle.ref_machine_frames.specs.Work.{of_all, of_exprs, of_now, work};

use c_tree::{CType, Program, TExpr, Value};
use c_values::Memory;
use dm_base::{Event, OutOfMemory, SysName};
use ref_machine_frames::{
    After, Callee, Frame, Now, Request, StepError, ValueFrame, callee, exit_status, requested,
    stopped, wait,
};
use std::alloc::Global;

// The number of `_exit`.
const EXIT: u8 = 23;

// Whether the value of a call of this type is wanted; there is none of void.
pub fn wants(wanted: bool, t: &CType) -> bool
    ensures { result ≡ wants wanted (ctype_of t.now) }
{
    match t {
        CType::Void => false,
        _ => wanted,
    }
}

// `_exit` ends the run with its argument.
fn exit<'p>(name: SysName, request: Request) -> Now<'p>
    requires { name ≡ 23 }
    ensures same { (p : Term) (m : Objects) → Does p m (λ w st. exit_with request.arguments) result }
    ensures done { of_now result ≡ 0 }
{
    let Some(status) = exit_status(&request) else {
        return Now::Mistyped;
    };
    Now::Told {
        event: Event::Sys {
            name,
            args: request.arguments,
            result: 0,
        },
        then: After::Exited(status),
    }
}

// A system call that has asked for this needs a record, but for `_exit`.
fn asking<'p>(name: SysName, request: Request) -> Now<'p>
    ensures same { (p : Term) (m : Objects) → Does p m (λ w st. asking name (asked_by request) st) result }
    ensures done { of_now result ≡ 0 }
{
    if name.index() == EXIT {
        return exit(name, request);
    }
    Now::Ask { name, request }
}

// Why a system call asks for nothing.
fn refused<'p>(error: StepError) -> Result<Now<'p>, OutOfMemory>
    ensures same { IfOk result (λ now. (answer : Answer Asked) → IsRefusal error answer → IsStop answer now) }
    ensures done { IfOk result (λ now. of_now now ≡ 0) }
{
    match error {
        StepError::Faulty(fault) => Ok(stopped(fault)),
        StepError::OutOfMemory => Err(OutOfMemory),
    }
}

// A system call tests its buffers and strings; then it needs a record, but for `_exit`.
fn system_call<'p>(
    alloc: Global,
    memory: &Memory,
    name: SysName,
    values: &[Value],
) -> Result<Now<'p>, OutOfMemory>
    ensures same { IfOk result (λ now. (p : Term) → Does p (seen memory.now) (λ w st. system_call name values.now st) now) }
    ensures done { IfOk result (λ now. of_now now ≡ 0) }
{
    if values.len() > 3 {
        return Ok(Now::Mistyped);
    }
    match requested(alloc, memory, name, values) {
        Ok(request) => Ok(asking(name, request)),
        Err(error) => refused(error),
    }
}

// A call of a system call by its number.
fn call_system<'p>(
    alloc: Global,
    memory: &Memory,
    x: u32,
    values: &[Value],
) -> Result<Now<'p>, OutOfMemory>
    ensures same { IfOk result (λ now. (p : Term) → Does p (seen memory.now) (λ w st. system_call_alone x values.now st) now) }
    ensures done { IfOk result (λ now. of_now now ≡ 0) }
{
    if x >= 24 {
        return Ok(Now::Mistyped);
    }
    let Some(name) = SysName::from_index(x as u8) else {
        unreachable!()
    };
    system_call(alloc, memory, name, values)
}

// The one argument of a null call.
fn site_in(values: &[Value]) -> Option<u32>
    ensures { result ≡ site_of values.now }
{
    let [one] = values else {
        return None;
    };
    match one {
        Value::Uint(site) => Some(*site),
        _ => None,
    }
}

// A null call, of which 24 is that before a call, and 25 that after it.
fn null_call<'p>(x: u32, site: u32) -> Now<'p>
    requires { 24 ≤ x }
    ensures same { (p : Term) (m : Objects) → Does p m (λ w st. call_undefined x (Uint site ∷ []) st) result }
    ensures done { of_now result ≡ 0 }
{
    if x == 24 {
        return Now::Told {
            event: Event::Pre(site),
            then: After::Have(Value::Indeterminate),
        };
    }
    if x == 25 {
        return Now::Told {
            event: Event::Post(site),
            then: After::Have(Value::Indeterminate),
        };
    }
    Now::Mistyped
}

// A call of a function that has no definition.
fn call_undefined<'p>(
    alloc: Global,
    memory: &Memory,
    x: u32,
    values: &[Value],
) -> Result<Now<'p>, OutOfMemory>
    ensures same { IfOk result (λ now. (p : Term) → Does p (seen memory.now) (λ w st. call_undefined x values.now st) now) }
    ensures done { IfOk result (λ now. of_now now ≡ 0) }
{
    if x < 24 {
        return call_system(alloc, memory, x, values);
    }
    match site_in(values) {
        Some(site) => Ok(null_call(x, site)),
        None => Ok(Now::Mistyped),
    }
}

// A call of the function with this number by its name.
fn called<'p>(
    alloc: Global,
    program: &Program,
    memory: &Memory,
    wanted: bool,
    f: u32,
    values: Vec<Value>,
) -> Result<Now<'p>, OutOfMemory>
    ensures same { IfOk result (λ now. Does (program_of program.now) (seen memory.now) (λ w st. called (program_of program.now) w wanted f values.items st) now) }
    ensures less { IfOk result (λ now. of_now now ≤ 1) }
{
    let count = program.defined();
    if f < count {
        return Ok(Now::Enter {
            wanted,
            function: f,
            arguments: values,
        });
    }
    call_undefined(alloc, memory, f - count, &values)
}

// The same through a pointer.
fn called_through<'p>(
    alloc: Global,
    program: &Program,
    memory: &Memory,
    wanted: bool,
    f: u32,
    values: Vec<Value>,
) -> Result<Now<'p>, OutOfMemory>
    ensures same { IfOk result (λ now. Does (program_of program.now) (seen memory.now) (λ w st. called_through (program_of program.now) w wanted f values.items st) now) }
    ensures less { IfOk result (λ now. of_now now ≤ 1) }
{
    let count = program.defined();
    if f < count {
        return Ok(Now::Enter {
            wanted,
            function: f,
            arguments: values,
        });
    }
    call_system(alloc, memory, f - count, &values)
}

// A call with its arguments.
fn made<'p>(
    alloc: Global,
    program: &Program,
    memory: &Memory,
    wanted: bool,
    whom: Callee,
    values: Vec<Value>,
) -> Result<Now<'p>, OutOfMemory>
    ensures same { IfOk result (λ now. Does (program_of program.now) (seen memory.now) (λ w st. made (program_of program.now) w wanted whom values.items st) now) }
    ensures less { IfOk result (λ now. of_now now ≤ 1) }
{
    match whom {
        Callee::Named(f) => called(alloc, program, memory, wanted, f, values),
        Callee::Through(v) => match callee(v) {
            Ok(f) => called_through(alloc, program, memory, wanted, f, values),
            Err(fault) => Ok(stopped(fault)),
        },
    }
}

// The arguments that are left, and then the call.
pub fn arguments<'p>(
    alloc: Global,
    program: &Program,
    memory: &Memory,
    todo: &mut Vec<Frame<'p>>,
    wanted: bool,
    whom: Callee,
    before: Vec<Value>,
    left: &'p [TExpr],
) -> Result<Now<'p>, OutOfMemory>
    ensures same { IfOk result (λ now. (h : Activation) → Gives (program_of program.now) h (seen memory.now) todo.old.items (λ w st. then_do (eval_all (program_of program.now) w (place_of h) (exprs_of left.now) st) (λ vs st. made (program_of program.now) w wanted whom (before.items ++ vs) st)) now (seen memory.now) todo.new.items) }
    ensures less { IfOk result (λ now. work now todo.new.items ≤ 1 + (of_exprs (exprs_of left.now) + of_all todo.old.items)) }
{
    let Some((first, rest)) = left.split_first() else {
        return made(alloc, program, memory, wanted, whom, before);
    };
    let frame = ValueFrame::Argument {
        wanted,
        callee: whom,
        before,
        rest,
    };
    wait(todo, frame, true, first)
}
