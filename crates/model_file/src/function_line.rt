ghost use Rattle.std.specs.Prelude.{◌⊎◌, ◌↔◌, IsTrue, All};
ghost use Rattle.dm_base.specs.Name.{IsName, IsLetter, IsDigit};
ghost use Rattle.line_text.specs.Reading.{Reads};
ghost use Rattle.model_file.specs.ModelText.{function_line, IsSpelledFunction};
ghost use Rattle.model_file.specs.Words.{name_word, IsNameFront};

use crate::words::take_number;
use dm_base::{Bytes, is_name};
use flow_model::ModelFunction;
use line_text::{Cursor, Miss};
use std::alloc::Global;

// Takes the line of a function.
pub(crate) fn take_function_line(alloc: Global, cursor: &mut Cursor) -> Result<ModelFunction, Miss>
    ensures { Reads IsSpelledFunction function_line cursor.old.rest.now cursor.new.rest.now result }
{
    cursor.take(b"f ")?;
    let name = take_name(alloc, cursor)?;
    let entry = take_number(cursor, 0, b' ')?;
    let exit = take_number(cursor, 0, b'\n')?;
    Ok(ModelFunction { name, entry, exit })
}

// Takes a name of the C profile, and the space after it.
fn take_name(alloc: Global, cursor: &mut Cursor) -> Result<Bytes, Miss>
    ensures { Reads IsName name_word cursor.old.rest.now cursor.new.rest.now result }
{
    let rest = cursor.rest;
    match cursor.word(b' ') {
        Ok(word) => {
            if is_name(word) {
                Ok(Bytes::of(alloc, word)?)
            } else {
                Err(Miss::Wrong)
            }
        }
        Err(miss) => {
            if is_name_front(rest) {
                Err(miss)
            } else {
                Err(Miss::Wrong)
            }
        }
    }
}

// Whether a name begins with the bytes.
fn is_name_front(text: &[u8]) -> bool
    ensures { IsTrue result ↔ IsNameFront text.now }
{
    if text.len() > 63 {
        return false;
    }
    if let [first, ..] = text
        && !is_letter(*first)
    {
        return false;
    }
    text.iter().all(|b| is_letter(*b) || b.is_ascii_digit())
}

// Whether the byte is a letter or an underscore.
fn is_letter(b: u8) -> bool
    ensures { IsTrue result ↔ IsLetter b }
{
    b.is_ascii_alphabetic() || b == b'_'
}
