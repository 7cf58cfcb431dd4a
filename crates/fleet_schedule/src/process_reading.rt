ghost use Rattle.std.specs.Prelude.{◌↔◌, ◌≤◌, ◌<◌, ◌^◌, All, Contains, IsTrue, length};
ghost use Rattle.line_text.specs.Reading.{Reads};
ghost use Rattle.line_text.specs.Words.{IsEnd, ended_word, number_word};
ghost use Rattle.fleet_schedule.specs.Lines.{IsFileFront, IsFresh, IsNewLine};
ghost use Rattle.fleet_schedule.specs.ScheduleText.{IsFileName, IsNameByte, IsRightLine, advance_line, pids, process_line};

use crate::Line;
use crate::pids::{begins_fresh, begins_known, has_pid};
use dm_base::{Bytes, read_u32};
use line_text::{Cursor, Miss};
use std::alloc::Global;

// The greatest length of the name of a file.
const LONGEST_NAME: usize = 255;

// The greatest number of turns.
const MOST_TURNS: u64 = 1_000_000;

// The greatest bound.
const GREATEST_BOUND: u64 = 65_535;

/// Takes the line of a process that none of the others has the number of.
pub fn take_process(alloc: Global, cursor: &mut Cursor, processes: &[Line]) -> Result<Line, Miss>
    requires { length processes.now ≤ 64 }
    ensures { Reads (IsNewLine processes.now) process_line cursor.old.rest.now cursor.new.rest.now result }
{
    cursor.take(b"p ")?;
    let pid = take_fresh(cursor, processes)?;
    let file = take_file(alloc, cursor)?;
    let model = take_file(alloc, cursor)?;
    let results = take_file(alloc, cursor)?;
    let turns = take_number(cursor, 0, MOST_TURNS, b' ')?;
    let bound = take_number(cursor, 1, GREATEST_BOUND, b'\n')?;
    Ok(Line {
        pid,
        file,
        model,
        results,
        turns,
        bound,
    })
}

/// Takes the line of an advance of one of the processes.
pub fn take_advance(cursor: &mut Cursor, processes: &[Line]) -> Result<u32, Miss>
    requires { All IsRightLine processes.now }
    ensures { Reads (Contains (pids processes.now)) advance_line cursor.old.rest.now cursor.new.rest.now result }
{
    if processes.is_empty() {
        return Err(Miss::Wrong);
    }
    match cursor.take(b"a ") {
        Ok(()) => take_known(cursor, processes),
        Err(miss) => Err(miss),
    }
}

// Takes the number of one of the processes, and the line feed after it.
fn take_known(cursor: &mut Cursor, processes: &[Line]) -> Result<u32, Miss>
    requires { All IsRightLine processes.now }
    ensures { Reads (Contains (pids processes.now)) (number_word 10) cursor.old.rest.now cursor.new.rest.now result }
{
    let rest = cursor.rest;
    match cursor.word(b'\n') {
        Ok(digits) => match read_u32(digits) {
            Some(pid) => {
                if has_pid(processes, pid) {
                    Ok(pid)
                } else {
                    Err(Miss::Wrong)
                }
            }
            None => Err(Miss::Wrong),
        },
        Err(miss) => {
            if begins_known(processes, rest) {
                Err(miss)
            } else {
                Err(Miss::Wrong)
            }
        }
    }
}

// Takes a number that none of the processes has, and the space after it.
fn take_fresh(cursor: &mut Cursor, processes: &[Line]) -> Result<u32, Miss>
    requires { length processes.now ≤ 64 }
    ensures { Reads (IsFresh processes.now) (number_word 32) cursor.old.rest.now cursor.new.rest.now result }
{
    let rest = cursor.rest;
    match cursor.word(b' ') {
        Ok(digits) => match read_u32(digits) {
            Some(pid) => {
                if has_pid(processes, pid) {
                    Err(Miss::Wrong)
                } else {
                    Ok(pid)
                }
            }
            None => Err(Miss::Wrong),
        },
        Err(miss) => {
            if begins_fresh(processes, rest) {
                Err(miss)
            } else {
                Err(Miss::Wrong)
            }
        }
    }
}

// Takes the name of a file, and the space after it.
fn take_file(alloc: Global, cursor: &mut Cursor) -> Result<Bytes, Miss>
    ensures { Reads IsFileName (ended_word 32) cursor.old.rest.now cursor.new.rest.now result }
{
    let rest = cursor.rest;
    match cursor.word(b' ') {
        Ok(word) => {
            if is_file_name(word) {
                Ok(Bytes::of(alloc, word)?)
            } else {
                Err(Miss::Wrong)
            }
        }
        Err(miss) => {
            if is_file_front(rest) {
                Err(miss)
            } else {
                Err(Miss::Wrong)
            }
        }
    }
}

// Takes a number of the range, and the byte `end` after it.
fn take_number(cursor: &mut Cursor, least: u64, most: u64, end: u8) -> Result<u32, Miss>
    requires range { least ≤ most }
    requires small { most < 2 ^ 32 }
    requires end { IsEnd end }
    ensures { Reads (λ n. (least ≤ n) × (n ≤ most)) (number_word end) cursor.old.rest.now cursor.new.rest.now result }
{
    match cursor.number(least, most, end) {
        Ok(number) => Ok(number as u32),
        Err(miss) => Err(miss),
    }
}

// Whether the text is the name of a file.
fn is_file_name(text: &[u8]) -> bool
    ensures { IsTrue result ↔ IsFileName text.now }
{
    !text.is_empty() && is_file_front(text)
}

// Whether the name of a file begins with the text.
fn is_file_front(text: &[u8]) -> bool
    ensures { IsTrue result ↔ IsFileFront text.now }
{
    if text.len() > LONGEST_NAME {
        return false;
    }
    text.iter().all(|b| is_name_byte(*b))
}

// Whether the byte is from 33 to 126.
fn is_name_byte(b: u8) -> bool
    ensures { IsTrue result ↔ IsNameByte b }
{
    33 <= b && b <= 126
}
