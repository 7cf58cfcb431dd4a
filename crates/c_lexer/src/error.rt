ghost use Rattle.std.specs.Prelude.{◌≡◌};
ghost use Rattle.c_lexer.specs.Codes.{code_of};

/// Why a text has no tokens.
#[derive(Clone, Copy, Debug, PartialEq, Eq)]
pub enum LexError {
    /// Memory was refused.
    OutOfMemory,
    /// A code and the place that it names, counted from 0:
    /// 1, a byte other than `#` that begins no token stands there, outside literals, comments and line
    /// markers; 2, a comment begins there that has no end; 3, a literal that is malformed or a name of
    /// more than 63 bytes; 4, an integer constant that exceeds its types, or a literal with an escape
    /// above 255; 5, a `#` that begins no line marker; 6, a keyword of C99 that the profile leaves out;
    /// 7, the text is longer than the mode allows, and the place is the limit.
    At(u8, u32),
}

// Why no token goes on at a place.
#[derive(Clone, Copy, Debug, PartialEq, Eq)]
pub enum Cause {
    // A byte that begins no token, other than `#`.
    ForeignByte,
    // A comment without an end.
    OpenComment,
    // A literal that is malformed, or a name of more than 63 bytes.
    Malformed,
    // An integer constant that exceeds its types, or a literal with an escape above 255.
    TooLarge,
    // A `#` that begins no line marker.
    NoLineMarker,
    // A keyword of C99 that the profile leaves out.
    ExcludedKeyword,
}

impl Cause {
    // The number of its code.
    pub fn code(self) -> u8
        ensures { result ≡ code_of self }
    {
        match self {
            Cause::ForeignByte => 1,
            Cause::OpenComment => 2,
            Cause::Malformed => 3,
            Cause::TooLarge => 4,
            Cause::NoLineMarker => 5,
            Cause::ExcludedKeyword => 6,
        }
    }
}
