ghost use Rattle.std.specs.Prelude.{◌≡◌, ◌+◌, ◌<◌, length};
ghost use Rattle.c_syntax.specs.Text.{byte_of as byte_of_char, element_text, elements_text};
ghost use Rattle.c_syntax.specs.Writes.{separator};
ghost use Rattle.c_syntax_printing.specs.Counted.{Counts, CountsToken, Rises};

use c_lexer::punctuator::COMMA;
use c_lexer::{TokenKind, keyword_text, punctuator_text};
use itoa::Buffer;

// Counts the keyword with the number.
pub fn count_keyword(total: usize, number: u8) -> usize
    requires { number < 22 }
    ensures { CountsToken total (TokenKind.Keyword number) result }
{
    add(total, keyword_text(number).len() + 1)
}

// Counts the punctuator with the number; nothing but a space where the number is no punctuator's.
pub fn count_punctuator(total: usize, number: u8) -> usize
    ensures { CountsToken total (TokenKind.Punct number) result }
{
    if number < 45 {
        return add(total, punctuator_text(number).len() + 1);
    }
    add(total, 1)
}

// Counts a comma, but before the first of several.
pub fn count_separator(total: usize, first: bool) -> usize
    ensures { Counts total (separator first) result }
{
    if first {
        return total;
    }
    count_punctuator(total, COMMA)
}

// Counts the name.
pub fn count_name(total: usize, name: &[u8]) -> usize
    ensures { CountsToken total (TokenKind.Name name.now) result }
{
    add(total, name.len() + 1)
}

// Counts the integer constant.
pub fn count_int(total: usize, value: u32, unsigned: bool) -> usize
    ensures { CountsToken total (TokenKind.Int value unsigned) result }
{
    let mut buffer = Buffer::new();
    let digits = buffer.format(value).len();
    if unsigned {
        return add(total, digits + 2);
    }
    add(total, digits + 1)
}

// Counts the character constant.
pub fn count_char(total: usize, c: i32) -> usize
    ensures { CountsToken total (TokenKind.Char c) result }
{
    add(total, element_length(b'\'', byte_of(c)) + 3)
}

// Counts the string literal.
pub fn count_str(total: usize, bytes: &[u8]) -> usize
    ensures { CountsToken total (TokenKind.Str bytes.now) result }
{
    let total = count_elements(total, b'"', bytes);
    add(total, 3)
}

// The byte that a character is.
fn byte_of(c: i32) -> u8
    ensures { result ≡ byte_of_char c }
{
    c.rem_euclid(256) as u8
}

// Counts the elements of a literal.
fn count_elements(mut total: usize, quote: u8, bytes: &[u8]) -> usize
    ensures { Rises total (length (elements_text quote bytes.now)) result }
{
    for byte in bytes {
        total = add(total, element_length(quote, *byte));
    }
    total
}

// The length of an element of a literal between two quotes.
fn element_length(quote: u8, byte: u8) -> usize
    ensures value { result ≡ length (element_text quote byte) }
    ensures small { result < 5 }
{
    if byte == quote {
        return 2;
    }
    if byte == b'\\' {
        return 2;
    }
    if byte < 32 {
        return 4;
    }
    if byte > 126 {
        return 4;
    }
    1
}

// The total and so many bytes; where the sum does not fit, the greatest number.
fn add(total: usize, bytes: usize) -> usize
    ensures { Rises total bytes result }
{
    total.saturating_add(bytes)
}
