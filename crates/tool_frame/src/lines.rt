ghost use Rattle.std.specs.Prelude.{◌≡◌, ◌++◌, codes, decimal, IfOk};

use dm_base::OutOfMemory;
use std::alloc::Global;

/// A line that is always the same.
pub fn fixed_line(alloc: Global, text: &[u8]) -> Result<Vec<u8>, OutOfMemory>
    ensures { IfOk result (λ line. line.items ≡ text.now) }
{
    Ok(text.to_vec(alloc)?)
}

/// A line that ends with a number.
pub fn numbered_line(alloc: Global, text: &[u8], number: u64) -> Result<Vec<u8>, OutOfMemory>
    ensures { IfOk result (λ line. line.items ≡ text.now ++ decimal number ++ codes "\n") }
{
    let mut line = text.to_vec(alloc)?;
    let digits = format!(in alloc; "{number}")?;
    line.extend_from_slice(digits.as_bytes())?;
    line.extend_from_slice(b"\n")?;
    Ok(line)
}
