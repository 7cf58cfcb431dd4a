ghost use Rattle.c_lexer.specs.Reading.{IsClear, ReadsToken};

use crate::literal::{read_character, read_string};
use crate::mark::read_mark;
use crate::misfit::{Lexeme, Misfit};
use crate::number::read_number;
use crate::word::read_word;
use std::alloc::Global;

// Reads the token that stands first in the text.
pub fn read_token(alloc: Global, text: &[u8]) -> Result<Lexeme, Misfit>
    requires { IsClear text.now }
    ensures { ReadsToken text.now result }
{
    let first = text[0];
    if first.is_ascii_alphabetic() || first == b'_' {
        return read_word(alloc, text);
    }
    if first.is_ascii_digit() {
        return Ok(read_number(text)?);
    }
    if first == b'\'' {
        return Ok(read_character(text)?);
    }
    if first == b'"' {
        return read_string(alloc, text);
    }
    Ok(read_mark(text)?)
}
