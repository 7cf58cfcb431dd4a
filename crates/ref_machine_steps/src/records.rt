ghost use Rattle.std.specs.Prelude.{◌≡◌, ◌<◌};
ghost use Rattle.sys_table.specs.Table.{FitsResult};
ghost use Rattle.c_values.specs.Seen.{seen};
ghost use Rattle.c_meaning.specs.SystemCalls.{char_of, next, filled, filled_where, result_value};
ghost use Rattle.ref_machine_steps.specs.Faults.{left};
ghost use Rattle.ref_machine_steps.specs.Requests.{asked_by};
ghost use Rattle.ref_machine_steps.specs.Taking.{Takes};

use crate::Fault;
use crate::places::store;
use crate::requests::Request;
use c_tree::{Pointer, Value};
use c_values::Memory;
use dm_base::{Event, SysName};
use sys_table::{ResultKind, SysResult, answers, result_kind};

// The char of a byte.
fn char_of(byte: u8) -> i8
    ensures { result ≡ char_of byte }
{
    byte.cast_signed()
}

// The next element.
fn next(at: Pointer) -> Pointer
    requires { at.index < at.elements }
    ensures { result ≡ next at }
{
    Pointer {
        name: at.name,
        first: at.first,
        width: at.width,
        elements: at.elements,
        index: at.index + 1,
    }
}

// The data stand in the buffer from now on.
fn fill_from(memory: &mut Memory, buffer: Pointer, bytes: &[u8]) -> Result<(), Fault>
    ensures { left (seen memory.new) result ≡ filled buffer bytes.now (seen memory.old) }
{
    let mut at = buffer;
    for byte in bytes {
        store(memory, &at, Value::Char(char_of(*byte)))?;
        at = next(at);
    }
    Ok(())
}

// The data stand in the buffer, where there is one, from now on.
fn fill(memory: &mut Memory, buffer: Option<Pointer>, bytes: &[u8]) -> Result<(), Fault>
    ensures { left (seen memory.new) result ≡ filled_where buffer bytes.now (seen memory.old) }
{
    match buffer {
        None => Ok(()),
        Some(at) => fill_from(memory, at, bytes),
    }
}

// What a system call gives.
fn result_value(kind: ResultKind, value: i64) -> Value
    requires { FitsResult kind value }
    ensures { result ≡ result_value kind value }
{
    match kind {
        ResultKind::Int => Value::Int(value as i32),
        ResultKind::UnsignedInt => Value::Uint(value as u32),
        ResultKind::Void => Value::Indeterminate,
    }
}

/// What a system call comes to with a recorded result.
#[derive(Drop)]
pub enum Called {
    /// The result answers the call, which made the event; then it gave the value, unless its data found no place.
    Answered {
        event: Event,
        value: Result<Value, Fault>,
    },
    /// The result does not answer the call.
    BadResult,
}

/// Takes a recorded result for a system call other than `_exit`, which has asked for this.
pub fn take_record(memory: &mut Memory, name: SysName, asked: Request, given: &SysResult) -> Called
    ensures { Takes (seen memory.old) (seen memory.new) name (asked_by asked) given.now result }
{
    if !answers(name, asked.asked, given) {
        return Called::BadResult;
    }
    let buffer = asked.buffer;
    let event = Event::Sys {
        name,
        args: asked.arguments,
        result: given.value,
    };
    match fill(memory, buffer, given.bytes.as_slice()) {
        Ok(()) => Called::Answered {
            event,
            value: Ok(result_value(result_kind(name), given.value)),
        },
        Err(fault) => Called::Answered {
            event,
            value: Err(fault),
        },
    }
}
