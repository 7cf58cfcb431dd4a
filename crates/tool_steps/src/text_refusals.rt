ghost use Rattle.std.specs.Prelude.{◌≡◌, ◌++◌, codes, decimal, IfOk};
ghost use Rattle.tool_steps.specs.Sources.{source_refusal};
ghost use Rattle.tool_steps.specs.Stopping.{IsStopOfSource};

use crate::error::SourceError;
use dm_base::OutOfMemory;
use line_text::{push_bytes, push_decimal};
use std::alloc::Global;
use tool_frame::{Stop, fixed_line, numbered_line};

// A line that ends with a code and its place.
fn placed_line(alloc: Global, front: &[u8], code: u8, place: u32) -> Result<Vec<u8>, OutOfMemory>
    ensures { IfOk result (λ line. line.items ≡ front.now ++ decimal code ++ codes " at " ++ decimal place ++ codes "\n") }
{
    let mut line = front.to_vec(alloc)?;
    push_decimal(alloc, &mut line, u64::from(code))?;
    push_bytes(&mut line, b" at ")?;
    push_decimal(alloc, &mut line, u64::from(place))?;
    push_bytes(&mut line, b"\n")?;
    Ok(line)
}

// The line of a refused text.
fn source_line(alloc: Global, error: SourceError) -> Result<Vec<u8>, OutOfMemory>
    ensures { IfOk result (λ line. line.items ≡ source_refusal error) }
{
    match error {
        SourceError::OutOfMemory => fixed_line(alloc, b"out of memory\n"),
        SourceError::Lexical(code, place) => placed_line(alloc, b"source refused L", code, place),
        SourceError::Syntax(place) => {
            numbered_line(alloc, b"source refused P1 at ", u64::from(place))
        }
        SourceError::Nesting(place) => {
            numbered_line(alloc, b"source refused P2 at ", u64::from(place))
        }
        SourceError::Rule(code, place) => placed_line(alloc, b"source refused C", code, place),
    }
}

/// The stop of a refused text.
pub fn refused_with(alloc: Global, error: SourceError) -> Stop
    ensures { IsStopOfSource result error }
{
    if error == SourceError::OutOfMemory {
        return Stop::OutOfMemory;
    }
    match source_line(alloc, error) {
        Ok(line) => Stop::Source(line),
        Err(_) => Stop::OutOfMemory,
    }
}
