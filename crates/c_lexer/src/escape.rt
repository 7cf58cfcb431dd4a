ghost use Rattle.std.specs.Prelude.{◌≡◌, ◌≢◌, ◌≤◌, ◌<◌, ◌+◌, ◌*◌, ◌⊎◌, ◌↔◌, ◌∷◌, ℕ, IsTrue, slice_index};
ghost use Rattle.c_lexer.specs.Literals.{IsSimple};
ghost use Rattle.c_lexer.specs.Elements.{IsQuote, KeepsByte, ReadsDigits, ReadsSimple, ReadsElement};

// The digits that stand first in a text: how many, and the number that they write, or None where it is
// above 255.
#[derive(Clone, Copy)]
pub struct Digits {
    pub count: usize,
    pub value: Option<u8>,
}

// One element of a literal: its value, or None where it is above 255, and how many bytes it has.
#[derive(Clone, Copy)]
pub struct Element {
    pub value: Option<u8>,
    pub length: usize,
}

// The element that stands first in the text of a literal that the quote ends.
pub fn read_element(text: &[u8], quote: u8) -> Option<Element>
    requires { IsQuote quote }
    ensures { ReadsElement quote text.now result }
{
    let (&first, rest) = text.split_first()?;
    if first == b'\\' {
        return read_escape(rest);
    }
    if !is_plain(first, quote) {
        return None;
    }
    Some(Element {
        value: Some(first),
        length: 1,
    })
}

// Whether the byte, which is no backslash, stands for itself.
fn is_plain(byte: u8, quote: u8) -> bool
    ensures { IsTrue result ↔ ((32 ≤ byte) × (byte ≢ 127) × (byte ≢ quote)) }
{
    byte >= b' ' && byte != 127 && byte != quote
}

// The element that stands first where a backslash precedes the rest.
fn read_escape(rest: &[u8]) -> Option<Element>
    ensures { (quote : ℕ) → ReadsElement quote (92 ∷ rest.now) result }
{
    let (&first, later) = rest.split_first()?;
    if first == b'x' {
        return read_hexadecimal(later);
    }
    let simple = simple_value(first);
    if simple.is_some() {
        return Some(Element {
            value: simple,
            length: 2,
        });
    }
    read_octal(rest)
}

// What a backslash and the byte stand for (C99 6.4.4.4, 5.2.2).
fn simple_value(byte: u8) -> Option<u8>
    ensures { ReadsSimple byte result }
{
    match byte {
        b'\'' => Some(39),
        b'"' => Some(34),
        b'?' => Some(63),
        b'\\' => Some(92),
        b'a' => Some(7),
        b'b' => Some(8),
        b'f' => Some(12),
        b'n' => Some(10),
        b'r' => Some(13),
        b't' => Some(9),
        b'v' => Some(11),
        _ => None,
    }
}

// The octal escape whose backslash precedes the text, which begins neither a simple escape nor a
// hexadecimal one.
fn read_octal(text: &[u8]) -> Option<Element>
    requires no_x { slice_index text.now 0 ≢ 120 }
    requires no_simple { (v : ℕ) → IsSimple (slice_index text.now 0) v → ⊥ }
    ensures { (quote : ℕ) → ReadsElement quote (92 ∷ text.now) result }
{
    let digits = leading_digits(&text[..text.len().min(3)], 8);
    if digits.count == 0 {
        return None;
    }
    Some(Element {
        value: digits.value,
        length: digits.count + 1,
    })
}

// The hexadecimal escape whose backslash and x precede the text.
fn read_hexadecimal(text: &[u8]) -> Option<Element>
    ensures { (quote : ℕ) → ReadsElement quote (92 ∷ 120 ∷ text.now) result }
{
    let digits = leading_digits(text, 16);
    if digits.count == 0 {
        return None;
    }
    Some(Element {
        value: digits.value,
        length: digits.count + 2,
    })
}

// The digits in the radix, which is 8 or 16, that stand first in the text.
fn leading_digits(text: &[u8], radix: u32) -> Digits
    requires { (radix ≡ 8) ⊎ (radix ≡ 16) }
    ensures { ReadsDigits radix text.now result }
{
    let mut value = Some(0);
    for (count, byte) in text.iter().enumerate() {
        let Some(digit) = char::from(*byte).to_digit(radix) else {
            return Digits { count, value };
        };
        value = with_digit(value, radix, digit);
    }
    Digits {
        count: text.len(),
        value,
    }
}

// The number with one more digit, or None where that is above 255.
fn with_digit(number: Option<u8>, radix: u32, digit: u32) -> Option<u8>
    requires some { 1 ≤ radix }
    requires radix { radix ≤ 16 }
    requires digit { digit < radix }
    ensures { (v : ℕ) → KeepsByte v number → KeepsByte (v * radix + digit) result }
{
    u8::try_from(u32::from(number?) * radix + digit).ok()
}
