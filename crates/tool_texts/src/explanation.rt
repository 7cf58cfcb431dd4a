ghost use Rattle.std.specs.Prelude.{◌≡◌, ◌++◌, codes, decimal, length, replicate, IfOk, OnOk};
ghost use Rattle.code_reasons.specs.Reasons.{reason_of};
ghost use Rattle.text_places.specs.Lines.{shown};
ghost use Rattle.text_places.specs.Locations.{location_text};
ghost use Rattle.text_places.specs.Views.{location_of};
ghost use Rattle.tool_texts.specs.Explained.{code_text, place_of, explanation};

use crate::SourceError;
use code_reasons::reason_of;
use dm_base::OutOfMemory;
use line_text::{push_bytes, push_decimal};
use std::alloc::Global;
use text_places::{Excerpt, Location, excerpt_at, locate, push_location, push_shown};
use tool_frame::fixed_line;

// A letter and a number.
fn numbered_code(alloc: Global, letter: &[u8], number: u8) -> Result<Vec<u8>, OutOfMemory>
    ensures { IfOk result (λ text. text.items ≡ letter.now ++ decimal number) }
{
    let mut text = letter.to_vec(alloc)?;
    push_decimal(alloc, &mut text, u64::from(number))?;
    Ok(text)
}

// The code of the error, as `C7`.
fn code_text(alloc: Global, error: SourceError) -> Result<Vec<u8>, OutOfMemory>
    ensures { IfOk result (λ text. text.items ≡ code_text error) }
{
    match error {
        SourceError::OutOfMemory => fixed_line(alloc, b""),
        SourceError::Lexical(code, _) => numbered_code(alloc, b"L", code),
        SourceError::Syntax(_) => fixed_line(alloc, b"P1"),
        SourceError::Nesting(_) => fixed_line(alloc, b"P2"),
        SourceError::Rule(code, _) => numbered_code(alloc, b"C", code),
    }
}

// The place of the error.
fn place_of(error: SourceError) -> usize
    ensures { result ≡ place_of error }
{
    match error {
        SourceError::OutOfMemory => 0,
        SourceError::Lexical(_, place) => place as usize,
        SourceError::Syntax(place) => place as usize,
        SourceError::Nesting(place) => place as usize,
        SourceError::Rule(_, place) => place as usize,
    }
}

// Adds the location, the code and its reason as a line.
fn push_reason(
    alloc: Global,
    text: &mut Vec<u8>,
    location: &Location<'_>,
    code: &[u8],
) -> Result<(), OutOfMemory>
    ensures { OnOk result (text.new.items ≡ text.old.items ++ location_text (location_of location.now) ++ codes ": " ++ code.now ++ codes ": " ++ reason_of code.now ++ codes "\n") }
{
    push_location(alloc, text, location)?;
    push_bytes(text, b": ")?;
    push_bytes(text, code)?;
    push_bytes(text, b": ")?;
    push_bytes(text, reason_of(code))?;
    push_bytes(text, b"\n")
}

// Adds so many blanks.
fn push_blanks(text: &mut Vec<u8>, count: usize) -> Result<(), OutOfMemory>
    ensures { OnOk result (text.new.items ≡ text.old.items ++ replicate count 32) }
{
    for _ in 0..count {
        text.push(b' ')?;
    }
    Ok(())
}

// Adds the part of the line as a line, and a line with a `^` below its place.
fn push_excerpt(text: &mut Vec<u8>, part: &Excerpt<'_>) -> Result<(), OutOfMemory>
    ensures { OnOk result (text.new.items ≡ text.old.items ++ shown part.now.before.now ++ shown part.now.from.now ++ codes "\n" ++ replicate (length part.now.before.now) 32 ++ codes "^\n") }
{
    push_shown(text, part.before)?;
    push_shown(text, part.from)?;
    push_bytes(text, b"\n")?;
    push_blanks(text, part.before.len())?;
    push_bytes(text, b"^\n")
}

/// The explanation of a refusal: the place of the error with its code and its reason, the part of its line, and a `^` below the place.
pub fn explanation(
    alloc: Global,
    name: &[u8],
    text: &[u8],
    error: SourceError,
) -> Result<Vec<u8>, OutOfMemory>
    ensures { IfOk result (λ lines. lines.items ≡ explanation name.now text.now error) }
{
    let place = place_of(error);
    let code = code_text(alloc, error)?;
    let mut lines = Vec::new(alloc);
    push_reason(alloc, &mut lines, &locate(name, text, place), &code)?;
    push_excerpt(&mut lines, &excerpt_at(text, place))?;
    Ok(lines)
}
