ghost use Rattle.std.specs.Prelude.{◌⊎◌, [], MatchBool};
ghost use Rattle.line_text.specs.OneLine.{IsLine};
ghost use Rattle.line_text.specs.Reading.{Reads};
ghost use Rattle.line_text.specs.Words.{EndsWith, IsPlain};
ghost use Rattle.sys_table.specs.ResultsLines.{HasData, HasNoData, IsResultsLine, results_line};
ghost use Rattle.sys_table.specs.ResultsText.{IsRightResult, result_line, result_text};

use crate::SysResult;
use line_text::{Bytes, Cursor, Miss};
use std::alloc::Global;

/// A line of a file of results after the first.
#[derive(Drop)]
pub enum ResultsLine {
    Record(SysResult),
    End,
}

// The least value of a record.
const LEAST: i64 = -2_147_483_648;

// The greatest value of a record.
const MOST: i64 = 4_294_967_295;

/// The line of a file of results that the whole of this one is.
pub fn read_results_line(alloc: Global, line: &[u8]) -> Result<ResultsLine, Miss>
    requires { IsLine line.now }
    ensures { Reads IsResultsLine results_line line.now [] result }
{
    match line {
        [] => Err(Miss::Short),
        [b'R', ..] => match read_record(alloc, line) {
            Ok(record) => Ok(ResultsLine::Record(record)),
            Err(miss) => Err(miss),
        },
        _ => match (Cursor { rest: line }).take(b"end\n") {
            Ok(()) => Ok(ResultsLine::End),
            Err(miss) => Err(miss),
        },
    }
}

// The record whose line the whole of this one is.
fn read_record(alloc: Global, line: &[u8]) -> Result<SysResult, Miss>
    requires { IsLine line.now }
    ensures { Reads IsRightResult result_line line.now [] result }
{
    let mut cursor = Cursor { rest: line };
    match cursor.take(b"R ") {
        Ok(()) => take_record(alloc, &mut cursor),
        Err(miss) => Err(miss),
    }
}

// Takes the value and the data of a record, and the line feed.
fn take_record(alloc: Global, cursor: &mut Cursor) -> Result<SysResult, Miss>
    ensures { Reads IsRightResult result_text cursor.old.rest.now cursor.new.rest.now result }
{
    if has_data(cursor) {
        take_with_data(alloc, cursor)
    } else {
        take_without_data(alloc, cursor)
    }
}

// Takes a value, a space, the data in hexadecimal, and the line feed.
fn take_with_data(alloc: Global, cursor: &mut Cursor) -> Result<SysResult, Miss>
    ensures { Reads HasData result_text cursor.old.rest.now cursor.new.rest.now result }
{
    let value = match cursor.integer(LEAST, MOST, b' ') {
        Ok(value) => value,
        Err(miss) => return Err(miss),
    };
    match cursor.hexadecimal(alloc, b'\n') {
        Ok(bytes) => Ok(SysResult { value, bytes }),
        Err(miss) => Err(miss),
    }
}

// Takes a value and the line feed.
fn take_without_data(alloc: Global, cursor: &mut Cursor) -> Result<SysResult, Miss>
    ensures { Reads HasNoData result_text cursor.old.rest.now cursor.new.rest.now result }
{
    match cursor.integer(LEAST, MOST, b'\n') {
        Ok(value) => Ok(SysResult {
            value,
            bytes: Bytes::of(alloc, b"")?,
        }),
        Err(miss) => Err(miss),
    }
}

// Whether the value of a record is followed by its data: the first byte that ends a word is a space.
fn has_data(cursor: &Cursor) -> bool
    ensures { MatchBool result (EndsWith 32 cursor.now.rest.now)
        (IsPlain cursor.now.rest.now ⊎ EndsWith 10 cursor.now.rest.now) }
{
    match cursor.next_end() {
        Some(end) => end == b' ',
        None => false,
    }
}
