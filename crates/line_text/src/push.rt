ghost use Rattle.std.specs.Prelude.{◌≡◌, ◌++◌, decimal, OnOk};
ghost use Rattle.std.specs.Fmt.{signed_decimal};
ghost use Rattle.line_text.specs.Words.{bytes_text};

use dm_base::OutOfMemory;
use std::alloc::Global;

/// Adds the bytes at the end of the text. The error is that memory was refused.
pub fn push_bytes(text: &mut Vec<u8>, bytes: &[u8]) -> Result<(), OutOfMemory>
    ensures { OnOk result (text.new.items ≡ text.old.items ++ bytes.now) }
{
    text.extend_from_slice(bytes)?;
    Ok(())
}

/// Adds the number in decimal at the end of the text. The error is that memory was refused.
pub fn push_decimal(alloc: Global, text: &mut Vec<u8>, number: u64) -> Result<(), OutOfMemory>
    ensures { OnOk result (text.new.items ≡ text.old.items ++ decimal number) }
{
    let digits = format!(in alloc; "{number}")?;
    push_bytes(text, digits.as_bytes())
}

/// Adds the number in decimal at the end of the text, with a minus sign where it is below 0. The
/// error is that memory was refused.
pub fn push_signed(alloc: Global, text: &mut Vec<u8>, number: i64) -> Result<(), OutOfMemory>
    ensures { OnOk result (text.new.items ≡ text.old.items ++ signed_decimal number) }
{
    let digits = format!(in alloc; "{number}")?;
    push_bytes(text, digits.as_bytes())
}

/// Adds the bytes in lower-case hexadecimal, or `-` for none, at the end of the text. The error is
/// that memory was refused.
pub fn push_hexadecimal(alloc: Global, text: &mut Vec<u8>, bytes: &[u8]) -> Result<(), OutOfMemory>
    ensures { OnOk result (text.new.items ≡ text.old.items ++ bytes_text bytes.now) }
{
    if bytes.is_empty() {
        return push_bytes(text, b"-");
    }
    let digits = hex::encode(alloc, bytes)?;
    push_bytes(text, digits.as_bytes())
}
