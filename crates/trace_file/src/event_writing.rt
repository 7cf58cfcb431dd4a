ghost use Rattle.std.specs.Prelude.{◌≡◌, ◌<◌, ◌++◌, All, codes, decimal, flat_map, OnOk};
ghost use Rattle.std.specs.Fmt.{signed_decimal};
ghost use Rattle.hex.specs.Hex.{IsBytes};
ghost use Rattle.line_text.specs.Words.{bytes_text};
ghost use Rattle.sys_table.specs.Table.{name_of, IsRecorded};
ghost use Rattle.trace_file.specs.EventText.{argument_text, argument_word, event_text, HasBytes, IsWritten};

use dm_base::{Arg, ArgList, Event, OutOfMemory, SysName};
use line_text::{push_bytes, push_decimal, push_hexadecimal, push_signed};
use std::alloc::Global;
use sys_table::name_text;

/// Adds the text of the event at the end of the text. The error is that memory was refused.
pub fn push_event(alloc: Global, text: &mut Vec<u8>, event: &Event) -> Result<(), OutOfMemory>
    requires { IsRecorded event.now }
    ensures text { OnOk result (text.new.items ≡ text.old.items ++ event_text event.now) }
    ensures written { OnOk result (IsWritten event.now) }
{
    match event {
        Event::Sys { name, args, result } => push_call(alloc, text, *name, args, *result),
        Event::Pre(site) => push_null_call(alloc, text, b"B ", *site),
        Event::Post(site) => push_null_call(alloc, text, b"E ", *site),
    }
}

// Adds the text of a system call.
fn push_call(
    alloc: Global,
    text: &mut Vec<u8>,
    name: SysName,
    arguments: &ArgList,
    outcome: i64,
) -> Result<(), OutOfMemory>
    ensures text { OnOk result (text.new.items ≡ text.old.items
        ++ (codes "S " ++ name_of name ++ codes " " ++ flat_map argument_word arguments.now ++ codes "= " ++ signed_decimal outcome)) }
    ensures name { name < 24 }
    ensures are_bytes { OnOk result (All HasBytes arguments.now) }
{
    push_bytes(text, b"S ")?;
    push_bytes(text, name_text(name))?;
    push_bytes(text, b" ")?;
    push_arguments(alloc, text, arguments)?;
    push_bytes(text, b"= ")?;
    push_signed(alloc, text, outcome)
}

// Adds the text of a null call, which begins with these bytes.
fn push_null_call(
    alloc: Global,
    text: &mut Vec<u8>,
    letter: &[u8],
    site: u32,
) -> Result<(), OutOfMemory>
    ensures { OnOk result (text.new.items ≡ text.old.items ++ (letter.now ++ decimal site)) }
{
    push_bytes(text, letter)?;
    push_decimal(alloc, text, u64::from(site))
}

// Adds each argument and a space after it.
fn push_arguments(alloc: Global, text: &mut Vec<u8>, arguments: &ArgList) -> Result<(), OutOfMemory>
    ensures text { OnOk result (text.new.items ≡ text.old.items ++ flat_map argument_word arguments.now) }
    ensures are_bytes { OnOk result (All HasBytes arguments.now) }
{
    for i in 0..arguments.len() {
        let Some(argument) = arguments.get(i) else {
            unreachable!();
        };
        push_argument(alloc, text, argument)?;
        push_bytes(text, b" ")?;
    }
    Ok(())
}

// Adds the argument.
fn push_argument(alloc: Global, text: &mut Vec<u8>, argument: &Arg) -> Result<(), OutOfMemory>
    ensures text { OnOk result (text.new.items ≡ text.old.items ++ argument_text argument.now) }
    ensures are_bytes { HasBytes argument.now }
{
    match argument {
        Arg::Int(number) => push_signed(alloc, text, *number),
        Arg::Bytes(bytes) => push_held(alloc, text, bytes.as_slice()),
    }
}

// Adds the bytes in hexadecimal, or `-` for none.
fn push_held(alloc: Global, text: &mut Vec<u8>, bytes: &[u8]) -> Result<(), OutOfMemory>
    ensures text { OnOk result (text.new.items ≡ text.old.items ++ bytes_text bytes.now) }
    ensures are_bytes { IsBytes bytes.now }
{
    push_hexadecimal(alloc, text, bytes)
}
