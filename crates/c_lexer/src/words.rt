ghost use Rattle.std.specs.Prelude.{◌≡◌, ◌↔◌, ◌≤◌, ◌<◌, ℕ, List, Contains, IsTrue, MatchOption, Some, length, map, slice_get};
ghost use Rattle.c_lexer.specs.Words.{keywords, excluded_keywords, punctuators};
ghost use Rattle.c_lexer.specs.Parts.{FindsFront, HasNoFront, IsLongestFront};

// The keywords of the profile, by their numbers.
pub const KEYWORDS: [&[u8]; 22] = [
    b"break",
    b"case",
    b"char",
    b"const",
    b"continue",
    b"default",
    b"do",
    b"else",
    b"enum",
    b"extern",
    b"for",
    b"if",
    b"int",
    b"return",
    b"signed",
    b"sizeof",
    b"static",
    b"struct",
    b"switch",
    b"unsigned",
    b"void",
    b"while",
];

// The keywords of C99 6.4.1 that the profile leaves out.
pub const EXCLUDED_KEYWORDS: [&[u8]; 15] = [
    b"auto",
    b"double",
    b"float",
    b"goto",
    b"inline",
    b"long",
    b"register",
    b"restrict",
    b"short",
    b"typedef",
    b"union",
    b"volatile",
    b"_Bool",
    b"_Complex",
    b"_Imaginary",
];

// The punctuators of the profile, by their numbers.
pub const PUNCTUATORS: [&[u8]; 45] = [
    b"[", b"]", b"(", b")", b"{", b"}", b".", b"->", b"++", b"--", b"&", b"*", b"+", b"-", b"~",
    b"!", b"/", b"%", b"<<", b">>", b"<", b">", b"<=", b">=", b"==", b"!=", b"^", b"|", b"&&",
    b"||", b"?", b":", b";", b"=", b"*=", b"/=", b"%=", b"+=", b"-=", b"<<=", b">>=", b"&=", b"^=",
    b"|=", b",",
];

/// The text of the keyword with the number, which is below 22. It takes no memory.
pub fn keyword_text(number: u8) -> &'static [u8]
    requires { number < 22 }
    ensures { slice_get keywords number ≡ Some result.now }
{
    word_at(&KEYWORDS, number)
}

/// The text of the punctuator with the number, which is below 45. It takes no memory.
pub fn punctuator_text(number: u8) -> &'static [u8]
    requires { number < 45 }
    ensures { slice_get punctuators number ≡ Some result.now }
{
    word_at(&PUNCTUATORS, number)
}

// The number of the keyword that the text is, or None where it is none of the profile.
pub fn keyword_number(text: &[u8]) -> Option<u8>
    ensures { MatchOption result (Contains keywords text.now → ⊥) (λ k. slice_get keywords k ≡ Some text.now) }
{
    number_among(&KEYWORDS, text)
}

// Whether the text is a keyword that the profile leaves out.
pub fn is_excluded_keyword(text: &[u8]) -> bool
    ensures { IsTrue result ↔ Contains excluded_keywords text.now }
{
    number_among(&EXCLUDED_KEYWORDS, text).is_some()
}

// The number of the longest punctuator at the front of the text, or None where none stands there.
pub fn longest_punctuator(text: &[u8]) -> Option<u8>
    ensures { MatchOption result (HasNoFront punctuators text.now) (λ p. (w : List ℕ) × (slice_get punctuators p ≡ Some w) × IsLongestFront punctuators w text.now) }
{
    longest_front(&PUNCTUATORS, text)
}

// The word with the number.
fn word_at(words: &'static [&'static [u8]], number: u8) -> &'static [u8]
    requires { number < length words.now }
    ensures { slice_get (map (λ word. word.now) words.now) number ≡ Some result.now }
{
    words[number as usize]
}

// The number of the word that the text is, or None where it is none of them.
fn number_among(words: &[&[u8]], text: &[u8]) -> Option<u8>
    requires { length words.now ≤ 255 }
    ensures { MatchOption result (Contains (map (λ word. word.now) words.now) text.now → ⊥) (λ k. slice_get (map (λ word. word.now) words.now) k ≡ Some text.now) }
{
    for (number, word) in words.iter().enumerate() {
        if *word == text {
            return Some(number as u8);
        }
    }
    None
}

// The number of the longest word that is not empty and stands at the front of the text, or None
// where none does.
fn longest_front(words: &[&[u8]], text: &[u8]) -> Option<u8>
    requires { length words.now ≤ 255 }
    ensures { FindsFront (map (λ word. word.now) words.now) text.now result }
{
    let mut longest = None;
    let mut length = 0;
    for (number, word) in words.iter().enumerate() {
        if word.len() > length && text.starts_with(word) {
            longest = Some(number as u8);
            length = word.len();
        }
    }
    longest
}
