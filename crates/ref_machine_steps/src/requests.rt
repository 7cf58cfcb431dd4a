ghost use Rattle.std.specs.Prelude.{◌≡◌, ◌≤◌, [], ◌∷◌, length};
ghost use Rattle.c_values.specs.Seen.{seen};
ghost use Rattle.c_meaning.specs.SystemCalls.{size, argument, arguments, read_request, write_request, request, exit_with};
ghost use Rattle.ref_machine_steps.specs.Asking.{Tells};
ghost use Rattle.ref_machine_steps.specs.Faults.{told};
ghost use Rattle.ref_machine_steps.specs.Requests.{told_request, TellsRequest, exited};

use crate::buffers::{bytes_of_buffer, room_for, string};
use crate::fault::undefined;
use crate::values::number;
use crate::{Fault, StepError};
use c_tree::{Pointer, Value};
use c_values::Memory;
use dm_base::{Arg, ArgList, SysName};
use std::alloc::Global;

/// What a system call asks for.
#[derive(Drop)]
pub struct Request {
    /// The arguments that are recorded.
    pub arguments: ArgList,
    /// How many bytes `read` and `write` ask for, and 0 for other calls.
    pub asked: u32,
    /// Where `read` stores its data.
    pub buffer: Option<Pointer>,
}

// A size in bytes.
fn size(value: Value) -> Result<u32, Fault>
    ensures { told result ≡ size value }
{
    match value {
        Value::Uint(count) => Ok(count),
        _ => Err(Fault::Mistyped),
    }
}

// A recorded argument.
fn argument(alloc: Global, memory: &Memory, value: Value) -> Result<Arg, StepError>
    ensures { Tells result (argument (seen memory.now) value) }
{
    match value {
        Value::Int(z) => Ok(Arg::Int(z as i64)),
        Value::Uint(n) => Ok(Arg::Int(n as i64)),
        Value::At(at) => {
            let bytes = string(alloc, memory, &at)?;
            Ok(Arg::Bytes(bytes))
        }
        Value::Null => Err(StepError::Faulty(undefined(5))),
        _ => Err(StepError::Faulty(Fault::Mistyped)),
    }
}

// The recorded arguments.
fn arguments(alloc: Global, memory: &Memory, values: &[Value]) -> Result<ArgList, StepError>
    requires { length values.now ≤ 3 }
    ensures { Tells result (arguments (seen memory.now) values.now) }
{
    let mut list = ArgList::new();
    for value in values {
        let recorded = argument(alloc, memory, *value)?;
        list.push(recorded);
    }
    Ok(list)
}

// What read(fd, buffer, count) asks for.
fn read_request(memory: &Memory, fd: Value, buffer: Value, count: Value) -> Result<Request, Fault>
    ensures { told_request result ≡ read_request (seen memory.now) fd buffer count }
{
    let fd = number(fd)?;
    let asked = size(count)?;
    let buffer = room_for(memory, buffer, asked)?;
    Ok(Request {
        arguments: two(Arg::Int(fd), Arg::Int(asked as i64)),
        asked,
        buffer,
    })
}

// What write(fd, buffer, count) asks for.
fn write_request(
    alloc: Global,
    memory: &Memory,
    fd: Value,
    buffer: Value,
    count: Value,
) -> Result<Request, StepError>
    ensures { TellsRequest result (write_request (seen memory.now) fd buffer count) }
{
    let fd = number(fd)?;
    let asked = size(count)?;
    let bytes = bytes_of_buffer(alloc, memory, buffer, asked)?;
    Ok(Request {
        arguments: two(Arg::Int(fd), Arg::Bytes(bytes)),
        asked,
        buffer: None,
    })
}

/// What the system call asks for, with these arguments. Its buffers and strings are tested one after the other, from
/// the first argument on, with the kinds of `string`, `bytes_of_buffer` and `room_for`.
pub fn requested(
    alloc: Global,
    memory: &Memory,
    name: SysName,
    values: &[Value],
) -> Result<Request, StepError>
    requires { length values.now ≤ 3 }
    ensures { TellsRequest result (request name (seen memory.now) values.now) }
{
    match name.index() {
        0 => {
            let [fd, buffer, count] = values else {
                return Err(StepError::Faulty(Fault::Mistyped));
            };
            let asked = read_request(memory, *fd, *buffer, *count)?;
            Ok(asked)
        }
        1 => {
            let [fd, buffer, count] = values else {
                return Err(StepError::Faulty(Fault::Mistyped));
            };
            write_request(alloc, memory, *fd, *buffer, *count)
        }
        _ => {
            let arguments = arguments(alloc, memory, values)?;
            Ok(Request {
                arguments,
                asked: 0,
                buffer: None,
            })
        }
    }
}

/// The status with which `_exit` ends the run, where it asked for one.
pub fn exit_status(asked: &Request) -> Option<i64>
    ensures { exit_with asked.now.arguments ≡ exited asked.now.arguments result }
{
    if asked.arguments.len() != 1 {
        return None;
    }
    match asked.arguments.get(0) {
        Some(Arg::Int(status)) => Some(*status),
        _ => None,
    }
}

// Two arguments.
fn two(first: Arg, second: Arg) -> ArgList
    ensures { result ≡ first ∷ second ∷ [] }
{
    let mut list = ArgList::new();
    list.push(first);
    list.push(second);
    list
}
