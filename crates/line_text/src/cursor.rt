ghost use Rattle.std.specs.Prelude.{◌≡◌, ◌≢◌, ◌≤◌, ◌<◌, ◌^◌, ◌≤ℤ◌, [], IsTrue, IfSome, IfNone, slice_index, take, length};
ghost use Rattle.std.specs.Result.{result_map_both};
ghost use Rattle.hex.specs.Hex.{IsBytes};
ghost use Rattle.line_text.specs.Reading.{Reads};
ghost use Rattle.line_text.specs.Words.{IsEnd, IsNextEnd, IsPlain, ended_word, is_in_line, number_word, integer_word, hexadecimal_word, bytes_word};
ghost use Rattle.line_text.specs.declared.miss.Miss.TheVariants.{OutOfMemory as NoMemory};

use crate::Miss;
use crate::decimal::{begins_number, number_in};
use crate::hexadecimal::{are_lower_digits, begins_bytes, bytes_in, hexadecimal_in};
use crate::integer::{begins_integer, integer_in};
use dm_base::Bytes;
use std::alloc::Global;

/// The bytes of a line that are left. Each call takes what stands first; where it answers a `Miss`,
/// the cursor is of no more use.
#[derive(Drop)]
pub struct Cursor<'a> {
    pub rest: &'a [u8],
}

impl<'a> Cursor<'a> {
    /// Takes a fixed word, or several with the spaces between them.
    pub fn take(&mut self, word: &[u8]) -> Result<(), Miss>
        requires { IsTrue (is_in_line word.now) }
        ensures reads { Reads (λ _. Unit {0}) (λ _. word.now) self.old.rest.now self.new.rest.now result }
        ensures memory { result ≡ Err NoMemory → ⊥ }
    {
        if let Some(rest) = self.rest.strip_prefix(word) {
            self.rest = rest;
            return Ok(());
        }
        if word.starts_with(self.rest) {
            Err(Miss::Short)
        } else {
            Err(Miss::Wrong)
        }
    }

    /// Takes the bytes before the first space or line feed, and that byte, which has to be `end`.
    pub fn word(&mut self, end: u8) -> Result<&'a [u8], Miss>
        requires { IsEnd end }
        ensures reads { Reads IsPlain (ended_word end) self.old.rest.now self.new.rest.now
            (result_map_both (λ word. word.now) (λ miss. miss) result) }
        ensures memory { result ≡ Err NoMemory → ⊥ }
    {
        let rest = self.rest;
        let Some(place) = first_end(rest) else {
            return Err(Miss::Short);
        };
        if rest[place] != end {
            return Err(Miss::Wrong);
        }
        self.rest = &rest[place + 1..];
        Ok(&rest[..place])
    }

    /// The first space or line feed of the bytes that are left, or None where they have none.
    pub fn next_end(&self) -> Option<u8>
        ensures { IsNextEnd self.now.rest.now result }
    {
        let rest = self.rest;
        let place = first_end(rest)?;
        Some(rest[place])
    }

    /// Takes the canonical decimal of a number in the range, and the byte `end` after it.
    pub fn number(&mut self, least: u64, most: u64, end: u8) -> Result<u64, Miss>
        requires range { least ≤ most }
        requires end { IsEnd end }
        ensures reads { Reads (λ n. (least ≤ n) × (n ≤ most)) (number_word end) self.old.rest.now self.new.rest.now result }
        ensures memory { result ≡ Err NoMemory → ⊥ }
    {
        let rest = self.rest;
        match self.word(end) {
            Ok(digits) => match number_in(digits, least, most) {
                Some(number) => Ok(number),
                None => Err(Miss::Wrong),
            },
            Err(miss) => {
                if begins_number(rest, least, most) {
                    Err(miss)
                } else {
                    Err(Miss::Wrong)
                }
            }
        }
    }

    /// Takes the canonical decimal of a number in the range, with `-` where it is below 0, and the
    /// byte `end` after it.
    pub fn integer(&mut self, least: i64, most: i64, end: u8) -> Result<i64, Miss>
        requires range { least ≤ℤ most }
        requires end { IsEnd end }
        ensures reads { Reads (λ z. (least ≤ℤ z) × (z ≤ℤ most)) (integer_word end) self.old.rest.now self.new.rest.now result }
        ensures memory { result ≡ Err NoMemory → ⊥ }
    {
        let rest = self.rest;
        match self.word(end) {
            Ok(digits) => match integer_in(digits, least, most) {
                Some(integer) => Ok(integer),
                None => Err(Miss::Wrong),
            },
            Err(miss) => {
                if begins_integer(rest, least, most) {
                    Err(miss)
                } else {
                    Err(Miss::Wrong)
                }
            }
        }
    }

    /// Takes at least one byte in lower-case hexadecimal, and the byte `end` after them.
    pub fn hexadecimal(&mut self, alloc: Global, end: u8) -> Result<Bytes, Miss>
        requires { IsEnd end }
        ensures { Reads (λ bytes. IsBytes bytes × (bytes ≢ [])) (hexadecimal_word end) self.old.rest.now self.new.rest.now result }
    {
        let rest = self.rest;
        match self.word(end) {
            Ok(digits) => hexadecimal_in(alloc, digits),
            Err(miss) => {
                if are_lower_digits(rest) {
                    Err(miss)
                } else {
                    Err(Miss::Wrong)
                }
            }
        }
    }

    /// Takes bytes in lower-case hexadecimal, or `-` for none, and the byte `end` after them.
    pub fn bytes(&mut self, alloc: Global, end: u8) -> Result<Bytes, Miss>
        requires { IsEnd end }
        ensures { Reads IsBytes (bytes_word end) self.old.rest.now self.new.rest.now result }
    {
        let rest = self.rest;
        match self.word(end) {
            Ok(word) => bytes_in(alloc, word),
            Err(miss) => {
                if begins_bytes(rest) {
                    Err(miss)
                } else {
                    Err(Miss::Wrong)
                }
            }
        }
    }
}

// The first place at which a space or a line feed stands.
fn first_end(text: &[u8]) -> Option<usize>
    ensures there { IfSome result (λ i. (i < length text.now) × IsEnd (slice_index text.now i)) }
    ensures first { IfSome result (λ i. IsPlain (take i text.now)) }
    ensures none { IfNone result (IsPlain text.now) }
{
    for (i, b) in text.iter().enumerate() {
        if *b == b' ' || *b == b'\n' {
            return Some(i);
        }
    }
    None
}
