ghost use Rattle.std.specs.Prelude.{◌≡◌, Contains, IfSome, IfNone, Some, take, slice_get};
ghost use Rattle.line_text.specs.Files.{IsFirstLine};

/// The first line of a text with its line feed, and what follows it. Where the text has no line feed,
/// the line is the whole of it.
pub fn first_line(text: &[u8]) -> (&[u8], &[u8])
    ensures { IsFirstLine text.now result.0.now result.1.now }
{
    match first_place(text, b'\n') {
        Some(i) => text.split_at(i + 1),
        None => (text, &[]),
    }
}

// The first place at which the byte stands.
fn first_place(text: &[u8], byte: u8) -> Option<usize>
    ensures there { IfSome result (λ i. slice_get text.now i ≡ Some byte) }
    ensures first { IfSome result (λ i. Contains (take i text.now) byte → ⊥) }
    ensures none { IfNone result (Contains text.now byte → ⊥) }
{
    text.iter().position(|b| *b == byte)
}
