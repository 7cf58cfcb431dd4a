ghost use Rattle.std.specs.Prelude.{◌≤◌, ◌+◌, [], ◌++◌, length, flat_map, codes, FitsSigned, IsTrue};
ghost use Rattle.std.specs.Int.{FitsUnsigned, w32};
ghost use Rattle.std.specs.List.{AllZip};
ghost use Rattle.line_text.specs.Reading.{Reads};
ghost use Rattle.line_text.specs.Words.{IsEnd, integer_word, number_word};
ghost use Rattle.sys_table.specs.Table.{FitsResult};
ghost use Rattle.trace_file.specs.EventText.{argument_word};
ghost use Rattle.trace_file.specs.LineParts.{has_no_feed, IsWrittenCall, IsWrittenArgument, GoOn, words_after, result_line};
ghost use Rattle.trace_file.specs.Lines.{event_line};

use dm_base::{Arg, ArgList, Event, SysName};
use line_text::{Cursor, Miss};
use std::alloc::Global;
use sys_table::{ArgKind, ResultKind, argument_kinds, result_kind, take_call_name};

/// Takes the text of a system call, and the line feed after it.
pub fn take_call(alloc: Global, cursor: &mut Cursor) -> Result<Event, Miss>
    ensures { Reads IsWrittenCall event_line cursor.old.rest.now cursor.new.rest.now result }
{
    cursor.take(b"S ")?;
    let name = take_call_name(cursor, 0)?;
    let args = take_arguments(alloc, cursor, argument_kinds(name), ArgList::new())?;
    let result = take_result(cursor, result_kind(name))?;
    Ok(Event::Sys { name, args, result })
}

// Takes an argument of each kind and the space after it, and adds them to those that were taken.
fn take_arguments(
    alloc: Global,
    cursor: &mut Cursor,
    kinds: &[ArgKind],
    mut taken: ArgList,
) -> Result<ArgList, Miss>
    requires { length taken + length kinds.now ≤ 3 }
    ensures { Reads (GoOn taken kinds.now) (words_after (length taken)) cursor.old.rest.now cursor.new.rest.now result }
{
    match kinds {
        [] => Ok(taken),
        [kind, others @ ..] => {
            taken.push(take_argument(alloc, cursor, *kind)?);
            take_arguments(alloc, cursor, others, taken)
        }
    }
}

// Takes an argument of the kind and the space after it.
fn take_argument(alloc: Global, cursor: &mut Cursor, kind: ArgKind) -> Result<Arg, Miss>
    ensures { Reads (IsWrittenArgument kind) argument_word cursor.old.rest.now cursor.new.rest.now result }
{
    match kind {
        ArgKind::Signed => Ok(Arg::Int(take_signed(cursor, b' ')?)),
        ArgKind::Unsigned => Ok(Arg::Int(take_unsigned(cursor, b' ')?)),
        ArgKind::Bytes => Ok(Arg::Bytes(cursor.bytes(alloc, b' ')?)),
    }
}

// Takes `= `, a result of the kind and the line feed.
fn take_result(cursor: &mut Cursor, kind: ResultKind) -> Result<i64, Miss>
    ensures { Reads (FitsResult kind) result_line cursor.old.rest.now cursor.new.rest.now result }
{
    cursor.take(b"= ")?;
    take_value(cursor, kind)
}

// Takes a number in the range of the kind, and the line feed.
fn take_value(cursor: &mut Cursor, kind: ResultKind) -> Result<i64, Miss>
    ensures { Reads (FitsResult kind) (integer_word 10) cursor.old.rest.now cursor.new.rest.now result }
{
    match kind {
        ResultKind::Int => take_signed(cursor, b'\n'),
        ResultKind::UnsignedInt => take_unsigned(cursor, b'\n'),
        ResultKind::Void => cursor.integer(0, 0, b'\n'),
    }
}

/// Takes a number from −2^31 to 2^31 − 1, and the byte `end` after it.
pub fn take_signed(cursor: &mut Cursor, end: u8) -> Result<i64, Miss>
    requires { IsEnd end }
    ensures { Reads (FitsSigned w32) (integer_word end) cursor.old.rest.now cursor.new.rest.now result }
{
    cursor.integer(-2_147_483_648, 2_147_483_647, end)
}

// Takes a number from 0 to 2^32 − 1, and the byte `end` after it.
fn take_unsigned(cursor: &mut Cursor, end: u8) -> Result<i64, Miss>
    requires { IsEnd end }
    ensures { Reads (FitsUnsigned w32) (integer_word end) cursor.old.rest.now cursor.new.rest.now result }
{
    cursor.integer(0, 4_294_967_295, end)
}

/// Takes a word, with its space where it has one, then a number in the range and the line feed.
pub fn take_labelled(cursor: &mut Cursor, label: &[u8], least: u64, most: u64) -> Result<u64, Miss>
    requires label { IsTrue (has_no_feed label.now) }
    requires range { least ≤ most }
    ensures { Reads (λ n. (least ≤ n) × (n ≤ most)) (λ n. label.now ++ number_word 10 n) cursor.old.rest.now cursor.new.rest.now result }
{
    cursor.take(label)?;
    cursor.number(least, most, b'\n')
}
