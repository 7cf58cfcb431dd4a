ghost use Rattle.std.specs.Prelude.{◌≡◌, ◌≤◌, ◌<◌, ◌↔◌, ◌∷◌, ℕ, List, length, slice_index, IsTrue, IfOk, OnOk};
ghost use Rattle.c_lexer.specs.Elements.{IsQuote, ReadsElements, AddsValue};
ghost use Rattle.c_lexer.specs.Literals.{char_value};
ghost use Rattle.c_lexer.specs.Reading.{ReadsToken, ReadsTokenOrCause};

use crate::error::Cause;
use crate::escape::read_element;
use crate::misfit::{Lexeme, Misfit};
use crate::token::TokenKind;
use dm_base::{Bytes, OutOfMemory};
use std::alloc::Global;

// The elements that stand first in a text: their values, whether one of them is above 255 and so left
// out, and how many bytes the elements have.
#[derive(Drop)]
pub struct Elements {
    pub bytes: Vec<u8>,
    pub large: bool,
    pub length: usize,
}

impl Elements {
    // Adds the value of one more element, None where it is above 255.
    fn push(&mut self, value: Option<u8>) -> Result<(), OutOfMemory>
        ensures length { self.new.length ≡ self.old.length }
        ensures values { OnOk result (AddsValue self.old self.new value) }
    {
        let Some(byte) = value else {
            self.large = true;
            return Ok(());
        };
        self.bytes.push(byte)?;
        Ok(())
    }
}

// Reads the character constant that stands first in the text, where a single quote does.
pub fn read_character(text: &[u8]) -> Result<Lexeme, Cause>
    requires { (rest : List ℕ) × (text.now ≡ 39 ∷ rest) }
    ensures { ReadsTokenOrCause text.now result }
{
    let Some(element) = read_element(&text[1..], b'\'') else {
        return Err(Cause::Malformed);
    };
    let end = element.length + 1;
    if !has_byte(text, end, b'\'') {
        return Err(Cause::Malformed);
    }
    let Some(value) = element.value else {
        return Err(Cause::TooLarge);
    };
    Ok(Lexeme {
        kind: TokenKind::Char(char_value(value)),
        length: end + 1,
    })
}

// The value of a character constant whose element has the value: char is signed (C99 6.4.4.4).
fn char_value(value: u8) -> i32
    ensures { result ≡ char_value value }
{
    if value < 128 {
        i32::from(value)
    } else {
        i32::from(value) - 256
    }
}

// Reads the string literal that stands first in the text, where a double quote does.
pub fn read_string(alloc: Global, text: &[u8]) -> Result<Lexeme, Misfit>
    requires { (rest : List ℕ) × (text.now ≡ 34 ∷ rest) }
    ensures { ReadsToken text.now result }
{
    let elements = read_elements(alloc, &text[1..], b'"')?;
    let end = elements.length + 1;
    if !has_byte(text, end, b'"') {
        return Err(Misfit::By(Cause::Malformed));
    }
    if elements.large {
        return Err(Misfit::By(Cause::TooLarge));
    }
    let bytes = Bytes::of(alloc, &elements.bytes)?;
    Ok(Lexeme {
        kind: TokenKind::Str(bytes),
        length: end + 1,
    })
}

// Reads all elements that stand first in the text of a literal that the quote ends.
fn read_elements(alloc: Global, text: &[u8], quote: u8) -> Result<Elements, OutOfMemory>
    requires { IsQuote quote }
    ensures { IfOk result (ReadsElements quote text.now) }
{
    let mut found = Elements {
        bytes: Vec::new(alloc),
        large: false,
        length: 0,
    };
    while let Some(element) = read_element(&text[found.length..], quote) {
        found.push(element.value)?;
        found.length += element.length;
    }
    Ok(found)
}

// Whether the byte stands at the place in the text.
fn has_byte(text: &[u8], at: usize, byte: u8) -> bool
    ensures { IsTrue result ↔ ((at < length text.now) × (slice_index text.now at ≡ byte)) }
{
    match text.get(at) {
        Some(found) => *found == byte,
        None => false,
    }
}
