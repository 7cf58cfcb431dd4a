ghost use Rattle.std.specs.Prelude.{◌≡◌, ◌≢◌, ◌↔◌, [], IsTrue, All};
ghost use Rattle.hex.specs.Hex.{IsBytes, encode_lower};
ghost use Rattle.line_text.specs.Hexadecimal.{IsLowerDigit};
ghost use Rattle.line_text.specs.Spelling.{BeginsOne, Spells};
ghost use Rattle.line_text.specs.Words.{bytes_text};

use crate::Miss;
use dm_base::Bytes;
use std::alloc::Global;

/// The bytes, at least one, that the word spells by two lower-case digits for each.
pub fn hexadecimal_in(alloc: Global, word: &[u8]) -> Result<Bytes, Miss>
    ensures { Spells (λ bytes. IsBytes bytes × (bytes ≢ [])) encode_lower word.now result }
{
    if word.is_empty() {
        return Err(Miss::Wrong);
    }
    if word.len() % 2 == 1 {
        return Err(Miss::Wrong);
    }
    if !are_lower_digits(word) {
        return Err(Miss::Wrong);
    }
    match hex::decode(alloc, word) {
        Ok(bytes) => Ok(Bytes::of(alloc, &bytes)?),
        Err(_) => Err(Miss::OutOfMemory),
    }
}

/// The bytes that the word spells by two lower-case digits for each, or by `-` for none.
pub fn bytes_in(alloc: Global, word: &[u8]) -> Result<Bytes, Miss>
    ensures { Spells IsBytes bytes_text word.now result }
{
    if word == b"-".as_slice() {
        return Ok(Bytes::of(alloc, b"")?);
    }
    hexadecimal_in(alloc, word)
}

/// Whether the word of some bytes begins with the text, or is it.
pub fn begins_bytes(text: &[u8]) -> bool
    ensures { IsTrue result ↔ BeginsOne IsBytes bytes_text text.now }
{
    text == b"-".as_slice() || are_lower_digits(text)
}

/// Whether each byte is a digit or a letter from a to f.
pub fn are_lower_digits(text: &[u8]) -> bool
    ensures { IsTrue result ↔ All IsLowerDigit text.now }
{
    text.iter().all(|b| is_lower_digit(*b))
}

// Whether the byte is a digit or a letter from a to f.
fn is_lower_digit(b: u8) -> bool
    ensures { IsTrue result ↔ IsLowerDigit b }
{
    b.is_ascii_digit() || (b'a' <= b && b <= b'f')
}
