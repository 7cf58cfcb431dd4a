ghost use Rattle.std.specs.Prelude.{◌↔◌, ◌⊎◌, IsTrue, All, Contains, map};
ghost use Rattle.dm_base.specs.Name.{IsName, IsLetter, IsDigit, keywords};

// The greatest number of bytes of a name.
const LONGEST: usize = 63;

// The keywords of C99 6.4.1, in its order.
const KEYWORDS: [&[u8]; 37] = [
    b"auto",
    b"break",
    b"case",
    b"char",
    b"const",
    b"continue",
    b"default",
    b"do",
    b"double",
    b"else",
    b"enum",
    b"extern",
    b"float",
    b"for",
    b"goto",
    b"if",
    b"inline",
    b"int",
    b"long",
    b"register",
    b"restrict",
    b"return",
    b"short",
    b"signed",
    b"sizeof",
    b"static",
    b"struct",
    b"switch",
    b"typedef",
    b"union",
    b"unsigned",
    b"void",
    b"volatile",
    b"while",
    b"_Bool",
    b"_Complex",
    b"_Imaginary",
];

/// Whether the text is a name of the C profile (C99 6.4.2.1): 1 to 63 letters, digits and `_`, no
/// digit first, and no keyword of C99 6.4.1. It takes no memory.
pub fn is_name(text: &[u8]) -> bool
    ensures { IsTrue result ↔ IsName text.now }
{
    let [first, ..] = text else {
        return false;
    };
    if first.is_ascii_digit() || text.len() > LONGEST {
        return false;
    }
    are_name_bytes(text) && !is_keyword(text)
}

// Whether each byte is a letter, a digit or an underscore.
fn are_name_bytes(text: &[u8]) -> bool
    ensures { IsTrue result ↔ All (λ b. IsLetter b ⊎ IsDigit b) text.now }
{
    text.iter().all(|b| is_name_byte(*b))
}

// Whether the byte is a letter, a digit or an underscore.
fn is_name_byte(b: u8) -> bool
    ensures { IsTrue result ↔ (IsLetter b ⊎ IsDigit b) }
{
    b.is_ascii_alphanumeric() || b == b'_'
}

// Whether the text is a keyword of C99.
fn is_keyword(text: &[u8]) -> bool
    ensures { IsTrue result ↔ Contains keywords text.now }
{
    is_among(&KEYWORDS, text)
}

// Whether the text is one of the words.
fn is_among(words: &[&[u8]], text: &[u8]) -> bool
    ensures { IsTrue result ↔ Contains (map (λ word. word.now) words.now) text.now }
{
    for word in words {
        if *word == text {
            return true;
        }
    }
    false
}
