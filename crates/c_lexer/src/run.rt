ghost use Rattle.std.specs.Prelude.{◌↔◌, IsTrue};
ghost use Rattle.c_lexer.specs.Runs.{IsOf, IsRunLength};

// A class of bytes whose runs are measured.
#[derive(Clone, Copy)]
pub enum ByteClass {
    // Letters, digits and `_`.
    Word,
    // Letters, digits, `_` and `.`.
    Number,
    // Digits.
    Digit,
    // All but the line feed.
    Line,
}

impl ByteClass {
    // Whether the byte is of the class.
    fn has(self, byte: u8) -> bool
        ensures { IsTrue result ↔ IsOf self byte }
    {
        match self {
            ByteClass::Word => byte.is_ascii_alphanumeric() || byte == b'_',
            ByteClass::Number => byte.is_ascii_alphanumeric() || byte == b'_' || byte == b'.',
            ByteClass::Digit => byte.is_ascii_digit(),
            ByteClass::Line => byte != b'\n',
        }
    }
}

// How many bytes at the front of the text are of the class.
pub fn run_length(text: &[u8], class: ByteClass) -> usize
    ensures { IsRunLength (IsOf class) text.now result }
{
    for (place, byte) in text.iter().enumerate() {
        if !class.has(*byte) {
            return place;
        }
    }
    text.len()
}
