ghost use Rattle.std.specs.Prelude.{◌≡◌, ◌++◌, ◌∷◌, [], ◌<◌, OnOk};
ghost use Rattle.c_syntax.specs.Text.{byte_of as byte_of_char, element_text, elements_text};
ghost use Rattle.c_syntax.specs.Writes.{Writes, WritesToken, octal_text, separator};

use c_lexer::punctuator::{COMMA, LEFT_BRACE, RIGHT_BRACE, SEMICOLON};
use c_lexer::{OutOfMemory, TokenKind, keyword_text, punctuator_text};
use itoa::Buffer;

// Writes the keyword with the number.
pub fn push_keyword(out: &mut Vec<u8>, number: u8) -> Result<(), OutOfMemory>
    requires { number < 22 }
    ensures { OnOk result (WritesToken out.old.items out.new.items (TokenKind.Keyword number)) }
{
    push_word(out, keyword_text(number), b' ')
}

// Writes the punctuator with the number; nothing but a space where the number is no punctuator's.
pub fn push_punctuator(out: &mut Vec<u8>, number: u8) -> Result<(), OutOfMemory>
    ensures { OnOk result (WritesToken out.old.items out.new.items (TokenKind.Punct number)) }
{
    if number == SEMICOLON || number == LEFT_BRACE || number == RIGHT_BRACE {
        return push_word(out, punctuator_text(number), b'\n');
    }
    if number < 45 {
        return push_word(out, punctuator_text(number), b' ');
    }
    push_word(out, b"", b' ')
}

// Writes a comma, but before the first of several.
pub fn push_separator(out: &mut Vec<u8>, first: bool) -> Result<(), OutOfMemory>
    ensures { OnOk result (Writes out.old.items out.new.items (separator first)) }
{
    if first {
        return Ok(());
    }
    push_punctuator(out, COMMA)
}

// Writes the name.
pub fn push_name(out: &mut Vec<u8>, name: &[u8]) -> Result<(), OutOfMemory>
    ensures { OnOk result (WritesToken out.old.items out.new.items (TokenKind.Name name.now)) }
{
    push_word(out, name, b' ')
}

// Writes the integer constant.
pub fn push_int(out: &mut Vec<u8>, value: u32, unsigned: bool) -> Result<(), OutOfMemory>
    ensures { OnOk result (WritesToken out.old.items out.new.items (TokenKind.Int value unsigned)) }
{
    let mut buffer = Buffer::new();
    push_bytes(out, buffer.format(value).as_bytes())?;
    if unsigned {
        return push_word(out, b"u", b' ');
    }
    push_word(out, b"", b' ')
}

// Writes the character constant. Its value is from -128 to 127 in every unit; where it is no byte's,
// nothing can be written, and the answer is the error.
pub fn push_char(out: &mut Vec<u8>, c: i32) -> Result<(), OutOfMemory>
    ensures { OnOk result (WritesToken out.old.items out.new.items (TokenKind.Char c)) }
{
    let byte = byte_of(c);
    push_bytes(out, b"'")?;
    push_element(out, b'\'', byte)?;
    push_word(out, b"'", b' ')
}

// Writes the string literal.
pub fn push_str(out: &mut Vec<u8>, bytes: &[u8]) -> Result<(), OutOfMemory>
    ensures { OnOk result (WritesToken out.old.items out.new.items (TokenKind.Str bytes.now)) }
{
    push_bytes(out, b"\"")?;
    push_elements(out, b'"', bytes)?;
    push_word(out, b"\"", b' ')
}

// The byte that a character is, or None where it is none.
fn byte_of(c: i32) -> u8
    ensures { result ≡ byte_of_char c }
{
    c.rem_euclid(256) as u8
}

// Writes the elements of a literal.
fn push_elements(out: &mut Vec<u8>, quote: u8, bytes: &[u8]) -> Result<(), OutOfMemory>
    ensures { OnOk result (out.new.items ≡ out.old.items ++ elements_text quote bytes.now) }
{
    for byte in bytes {
        push_element(out, quote, *byte)?;
    }
    Ok(())
}

// Writes an element of a literal between two quotes.
fn push_element(out: &mut Vec<u8>, quote: u8, byte: u8) -> Result<(), OutOfMemory>
    ensures { OnOk result (out.new.items ≡ out.old.items ++ element_text quote byte) }
{
    if byte == quote {
        return push_bytes(out, &[b'\\', byte]);
    }
    if byte == b'\\' {
        return push_bytes(out, &[b'\\', byte]);
    }
    if byte < 32 {
        return push_octal(out, byte);
    }
    if byte > 126 {
        return push_octal(out, byte);
    }
    push_bytes(out, &[byte])
}

// Writes a byte as a backslash and three octal digits.
fn push_octal(out: &mut Vec<u8>, byte: u8) -> Result<(), OutOfMemory>
    ensures { OnOk result (out.new.items ≡ out.old.items ++ octal_text byte) }
{
    let digits = [
        b'\\',
        byte / 64 + b'0',
        byte / 8 % 8 + b'0',
        byte % 8 + b'0',
    ];
    push_bytes(out, &digits)
}

// Writes the text and the byte after it.
fn push_word(out: &mut Vec<u8>, text: &[u8], after: u8) -> Result<(), OutOfMemory>
    ensures { OnOk result (out.new.items ≡ out.old.items ++ text.now ++ after ∷ []) }
{
    push_bytes(out, text)?;
    out.push(after)?;
    Ok(())
}

// Writes the bytes.
fn push_bytes(out: &mut Vec<u8>, bytes: &[u8]) -> Result<(), OutOfMemory>
    ensures { OnOk result (out.new.items ≡ out.old.items ++ bytes.now) }
{
    out.extend_from_slice(bytes)?;
    Ok(())
}
