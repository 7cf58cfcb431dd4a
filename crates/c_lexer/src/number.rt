ghost use Rattle.std.specs.Prelude.{◌≡◌, ◌↔◌, ◌≤◌, ◌<◌, ◌+◌, ◌*◌, ◌^◌, IsTrue, SomeIff};
ghost use Rattle.std.specs.Char.{digit_value};
ghost use Rattle.std.specs.Str.Parse.{IsNumeral, digits_value};
ghost use Rattle.dm_base.specs.Name.{IsDigit};
ghost use Rattle.c_lexer.specs.Literals.{type_of};
ghost use Rattle.c_lexer.specs.Reading.{ReadsTokenOrCause};
ghost use Rattle.c_lexer.specs.Parts.{BeginsWith, ReadsNumber, IsUnsuffixed, IsBased};

use crate::error::Cause;
use crate::misfit::Lexeme;
use crate::run::{ByteClass, run_length};
use crate::token::TokenKind;

// Reads the integer constant that stands first in the text. What is taken is the whole run of letters,
// digits, `_` and `.`.
pub fn read_number(text: &[u8]) -> Result<Lexeme, Cause>
    requires { BeginsWith IsDigit text.now }
    ensures { ReadsTokenOrCause text.now result }
{
    let length = run_length(text, ByteClass::Number);
    let kind = number_kind(&text[..length])?;
    Ok(Lexeme { kind, length })
}

// What the number spells.
fn number_kind(number: &[u8]) -> Result<TokenKind, Cause>
    ensures { ReadsNumber number.now result }
{
    let (body, suffixed) = without_suffix(number);
    let (base, digits) = based(body);
    if !is_numeral(digits, base) {
        return Err(Cause::Malformed);
    }
    let Some(value) = number_of(digits, base) else {
        return Err(Cause::TooLarge);
    };
    let Some(unsigned) = type_of(base == 10, suffixed, value) else {
        return Err(Cause::TooLarge);
    };
    Ok(TokenKind::Int { value, unsigned })
}

// The constant without its suffix, and whether it has one.
fn without_suffix(number: &[u8]) -> (&[u8], bool)
    ensures { IsUnsuffixed number.now result.0.now result.1 }
{
    let [body @ .., last] = number else {
        return (number, false);
    };
    if *last == b'u' || *last == b'U' {
        return (body, true);
    }
    (number, false)
}

// The base of a constant without its suffix, and its digits.
fn based(body: &[u8]) -> (u32, &[u8])
    ensures { IsBased body.now result.0 result.1.now }
{
    let [b'0', rest @ ..] = body else {
        return (10, body);
    };
    let [b'x' | b'X', digits @ ..] = rest else {
        return (8, body);
    };
    (16, digits)
}

// Whether the bytes are one digit or more in the base.
fn is_numeral(digits: &[u8], base: u32) -> bool
    requires low { 2 ≤ base }
    requires high { base ≤ 36 }
    ensures { IsTrue result ↔ IsNumeral base digits.now }
{
    if digits.is_empty() {
        return false;
    }
    for digit in digits {
        if !char::from(*digit).is_digit(base) {
            return false;
        }
    }
    true
}

// The number that the digits write, or None where it is 2^32 or more.
fn number_of(digits: &[u8], base: u32) -> Option<u32>
    requires low { 2 ≤ base }
    requires high { base ≤ 36 }
    requires numeral { IsNumeral base digits.now }
    ensures { SomeIff result (digits_value base digits.now < 2 ^ 32) (digits_value base digits.now) }
{
    let mut number = 0u32;
    for digit in digits {
        let Some(longer) = with_digit(number, *digit, base) else {
            return None;
        };
        number = longer;
    }
    Some(number)
}

// The number with one more digit, or None where that is 2^32 or more.
fn with_digit(number: u32, digit: u8, base: u32) -> Option<u32>
    requires low { 2 ≤ base }
    requires high { base ≤ 36 }
    requires digit { digit_value digit < base }
    ensures { SomeIff result (number * base + digit_value digit < 2 ^ 32) (number * base + digit_value digit) }
{
    let value = char::from(digit).to_digit(base)?;
    number.checked_mul(base)?.checked_add(value)
}

// Whether the type of a constant is unsigned int, or None where no type holds its number.
fn type_of(decimal: bool, suffixed: bool, number: u32) -> Option<bool>
    ensures { result ≡ type_of decimal suffixed number }
{
    if suffixed {
        return Some(true);
    }
    if number < 0x8000_0000 {
        return Some(false);
    }
    if decimal { None } else { Some(true) }
}
