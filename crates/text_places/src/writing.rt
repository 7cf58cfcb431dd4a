ghost use Rattle.std.specs.Prelude.{◌≡◌, ◌++◌, OnOk};
ghost use Rattle.text_places.specs.Lines.{shown, shown_byte};
ghost use Rattle.text_places.specs.Locations.{location_text};
ghost use Rattle.text_places.specs.Views.{location_of};

use crate::location::Location;
use dm_base::OutOfMemory;
use line_text::{push_bytes, push_decimal};
use std::alloc::Global;

// The byte, or a blank where it is outside 32 to 126.
fn shown_byte(b: u8) -> u8
    ensures { result ≡ shown_byte b }
{
    if 32 <= b && b <= 126 { b } else { b' ' }
}

/// Adds the bytes at the end of the text, each outside 32 to 126 as a blank. The error is that memory was refused.
pub fn push_shown(text: &mut Vec<u8>, bytes: &[u8]) -> Result<(), OutOfMemory>
    ensures { OnOk result (text.new.items ≡ text.old.items ++ shown bytes.now) }
{
    for b in bytes {
        text.push(shown_byte(*b))?;
    }
    Ok(())
}

/// Adds a location, as `echo.c:5:12`, at the end of the text: the file with each byte outside 32 to 126 as a blank, the line and the
/// column. The error is that memory was refused.
pub fn push_location(
    alloc: Global,
    text: &mut Vec<u8>,
    location: &Location<'_>,
) -> Result<(), OutOfMemory>
    ensures { OnOk result (text.new.items ≡ text.old.items ++ location_text (location_of location.now)) }
{
    push_shown(text, location.file)?;
    push_bytes(text, b":")?;
    push_decimal(alloc, text, location.line)?;
    push_bytes(text, b":")?;
    push_decimal(alloc, text, location.column)
}
