ghost use Rattle.std.specs.Prelude.{◌≤◌, ◌++◌, codes, FitsSigned};
ghost use Rattle.std.specs.Int.{w32};
ghost use Rattle.line_text.specs.Reading.{Reads};
ghost use Rattle.line_text.specs.Words.{integer_word, number_word};
ghost use Rattle.trace_file.specs.EventText.{IsRightEnd};
ghost use Rattle.trace_file.specs.LineParts.{ending_line};
ghost use Rattle.trace_file.specs.Lines.{end_line};

use crate::call::{take_labelled, take_signed};
use dm_base::{Kind, Outcome, TraceEnd};
use line_text::{Cursor, Miss};

/// Takes the end line of a trace.
pub fn take_end(cursor: &mut Cursor) -> Result<TraceEnd, Miss>
    ensures { Reads IsRightEnd end_line cursor.old.rest.now cursor.new.rest.now result }
{
    cursor.take(b"end ")?;
    take_ending(cursor)
}

// Takes what follows `end ` in an end line.
fn take_ending(cursor: &mut Cursor) -> Result<TraceEnd, Miss>
    ensures { Reads IsRightEnd ending_line cursor.old.rest.now cursor.new.rest.now result }
{
    match cursor.rest {
        [] => Err(Miss::Short),
        [b'o', ..] => {
            cursor.take(b"open\n")?;
            Ok(TraceEnd::Open)
        }
        [b'e', ..] => Ok(TraceEnd::Ended(Outcome::Exit(take_exit(cursor)?))),
        [b'u', ..] => Ok(TraceEnd::Ended(Outcome::Undefined(take_undefined(cursor)?))),
        [b't', ..] => {
            cursor.take(b"turns\n")?;
            Ok(TraceEnd::Ended(Outcome::Turns))
        }
        [b'r', ..] => {
            cursor.take(b"results\n")?;
            Ok(TraceEnd::Ended(Outcome::Results))
        }
        [b'b', ..] => {
            let number = take_labelled(cursor, b"badresult ", 1, u64::MAX)?;
            Ok(TraceEnd::Ended(Outcome::BadResult(number)))
        }
        _ => Err(Miss::Wrong),
    }
}

// Takes `exit `, the value that `main` returned and the line feed.
fn take_exit(cursor: &mut Cursor) -> Result<i32, Miss>
    ensures { Reads (FitsSigned w32) (λ z. codes "exit " ++ integer_word 10 z) cursor.old.rest.now cursor.new.rest.now result }
{
    cursor.take(b"exit ")?;
    let value = take_signed(cursor, b'\n')?;
    Ok(value as i32)
}

// Takes `undefined U`, the number of the kind and the line feed.
fn take_undefined(cursor: &mut Cursor) -> Result<Kind, Miss>
    ensures { Reads (λ n. (1 ≤ n) × (n ≤ 12)) (λ n. codes "undefined U" ++ number_word 10 n) cursor.old.rest.now cursor.new.rest.now result }
{
    let number = take_labelled(cursor, b"undefined U", 1, 12)?;
    match Kind::from_number(number as u8) {
        Some(kind) => Ok(kind),
        None => unreachable!(),
    }
}
