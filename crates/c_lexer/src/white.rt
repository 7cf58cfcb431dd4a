ghost use Rattle.std.specs.Prelude.{◌≡◌, ◌≤◌, ◌<◌, ◌^◌, ◌↔◌, ℕ, List, ◌∷◌, IsTrue, MatchOption, length, take, drop};
ghost use Rattle.c_lexer.specs.TokenSpelling.{IsBlank, EndsInMargin, HasEndAfter};
ghost use Rattle.c_lexer.specs.Reading.{ReadsWhite};
ghost use Rattle.c_lexer.specs.WhiteParts.{IsCommentEnd, IsMarkerHead, BeginsMarker, IsInk};

use crate::error::Cause;
use crate::run::{ByteClass, run_length};

// The length of the piece of white space at the place, or None where there is none.
pub fn white_length(text: &[u8], at: usize) -> Result<Option<usize>, Cause>
    requires { at ≤ length text.now }
    ensures { ReadsWhite (take at text.now) (drop at text.now) result }
{
    let rest = &text[at..];
    if rest.is_empty() {
        return Ok(None);
    }
    if is_blank(rest[0]) {
        return Ok(Some(1));
    }
    if rest[0] == b'#' {
        return marker_length(&text[..at], rest);
    }
    comment_length(rest)
}

// Whether the byte is white space by itself.
fn is_blank(byte: u8) -> bool
    ensures { IsTrue result ↔ IsBlank byte }
{
    matches!(byte, 9..=13 | b' ')
}

// The length of the comment that begins the text. The text begins with no blank and no `#`.
fn comment_length(text: &[u8]) -> Result<Option<usize>, Cause>
    requires { IsInk text.now }
    ensures { (front : List ℕ) → ReadsWhite front text.now result }
{
    if text.len() < 2 || text[0] != b'/' {
        return Ok(None);
    }
    let inner = &text[2..];
    if text[1] == b'/' {
        return Ok(Some(2 + run_length(inner, ByteClass::Line)));
    }
    if text[1] != b'*' {
        return Ok(None);
    }
    match end_of_comment(inner) {
        Some(length) => Ok(Some(length + 4)),
        None => Err(Cause::OpenComment),
    }
}

// The number of bytes before the first `*/`.
fn end_of_comment(text: &[u8]) -> Option<usize>
    ensures { MatchOption result ((front : List ℕ) → HasEndAfter front text.now → ⊥) (λ n. IsCommentEnd text.now n) }
{
    for i in 1..text.len() {
        if text[i - 1] == b'*' && text[i] == b'/' {
            return Some(i - 1);
        }
    }
    None
}

// The length of the line marker that begins the text, which begins with a `#` and stands after the front.
fn marker_length(front: &[u8], text: &[u8]) -> Result<Option<usize>, Cause>
    requires { (rest : List ℕ) × (text.now ≡ 35 ∷ rest) }
    ensures { ReadsWhite front.now text.now result }
{
    if !ends_in_margin(front) {
        return Err(Cause::NoLineMarker);
    }
    match marker_head(text) {
        Some(head) => Ok(Some(head + run_length(&text[head..], ByteClass::Line))),
        None => Err(Cause::NoLineMarker),
    }
}

// The length of a line marker up to its double quote.
fn marker_head(text: &[u8]) -> Option<usize>
    ensures { MatchOption result (BeginsMarker text.now → ⊥) (λ n. (n ≤ length text.now) × IsMarkerHead (take n text.now)) }
{
    if text.len() < 2 || text[0] != b'#' || text[1] != b' ' {
        return None;
    }
    let after = &text[2..];
    let digits = run_length(after, ByteClass::Digit);
    if digits == 0 || after.len() < digits + 2 {
        return None;
    }
    if after[digits] != b' ' || after[digits + 1] != b'"' {
        return None;
    }
    Some(digits + 4)
}

// Whether only spaces and tabs stand on the line that the text ends in.
fn ends_in_margin(front: &[u8]) -> bool
    ensures { IsTrue result ↔ EndsInMargin front.now }
{
    for i in (0..front.len()).rev() {
        if front[i] == b'\n' {
            return true;
        }
        if front[i] != b' ' && front[i] != b'\t' {
            return false;
        }
    }
    true
}
