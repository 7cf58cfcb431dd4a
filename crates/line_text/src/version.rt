ghost use Rattle.std.specs.Prelude.{◌≡◌, ◌⊎◌, ◌^◌, ◌<◌, ℕ, List, [], ◌∷◌, ◌++◌, IfSome, IfNone, decimal};
ghost use Rattle.line_text.specs.Files.{IsVersionLine};

use dm_base::read_u32;

/// The number of the version that a first line has: the canonical decimal of a number from 0 to
/// 4,294,967,295 that follows the word and ends the line, with its line feed or without it. None for
/// every other line.
pub fn version_of(line: &[u8], word: &[u8]) -> Option<u32>
    ensures some { IfSome result (λ n. IsVersionLine word.now n line.now) }
    ensures small { IfSome result (λ n. n < 2 ^ 32) }
    ensures none { IfNone result ((n : ℕ) → n < 2 ^ 32 → IsVersionLine word.now n line.now → ⊥) }
{
    let number = after(line, word)?;
    read_u32(before_line_feed(number))
}

// What follows the word, or None where the text does not begin with it.
fn after<'a>(text: &'a [u8], word: &[u8]) -> Option<&'a [u8]>
    ensures some { IfSome result (λ rest. text.now ≡ word.now ++ rest.now) }
    ensures none { IfNone result ((rest : List ℕ) → text.now ≡ word.now ++ rest → ⊥) }
{
    match text.strip_prefix(word) {
        Some(rest) => Some(rest),
        None => None,
    }
}

// The text without the line feed at its end, where it has one there.
fn before_line_feed(text: &[u8]) -> &[u8]
    ensures { (text.now ≡ result.now ++ 10 ∷ []) ⊎ ((text.now ≡ result.now) × ((front : List ℕ) → text.now ≡ front ++ 10 ∷ [] → ⊥)) }
{
    match text.strip_suffix(b"\n") {
        Some(front) => front,
        None => text,
    }
}
