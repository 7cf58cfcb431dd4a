ghost use Rattle.std.specs.Prelude.{◌≡◌, ◌++◌, All, IfOk, OnOk};
ghost use Rattle.hex.specs.Hex.{IsBytes};
ghost use Rattle.sys_table.specs.ResultsText.{AreResults, IsValueInRange, data_text, result_line};

use crate::SysResult;
use line_text::{OutOfMemory, push_signed};
use std::alloc::Global;

/// The text of a file with these records.
pub fn write_results(alloc: Global, results: &[SysResult]) -> Result<Vec<u8>, OutOfMemory>
    requires { All IsValueInRange results.now }
    ensures { IfOk result (λ text. AreResults text.items results.now) }
{
    let mut text = Vec::new(alloc);
    text.extend_from_slice(b"dyckmon-results 1\n")?;
    for record in results {
        write_record(alloc, &mut text, record)?;
    }
    text.extend_from_slice(b"end\n")?;
    Ok(text)
}

// Adds the line of a record at the end.
fn write_record(alloc: Global, text: &mut Vec<u8>, entry: &SysResult) -> Result<(), OutOfMemory>
    ensures line { OnOk result (text.new.items ≡ text.old.items ++ result_line entry.now) }
    ensures are_bytes { IsBytes entry.now.bytes }
{
    let bytes = entry.bytes.as_slice();
    text.extend_from_slice(b"R ")?;
    push_signed(alloc, text, entry.value)?;
    write_data(alloc, text, bytes)?;
    text.push(b'\n')?;
    Ok(())
}

// Adds a space and the data in hexadecimal at the end, or nothing where there are none.
fn write_data(alloc: Global, text: &mut Vec<u8>, bytes: &[u8]) -> Result<(), OutOfMemory>
    ensures { OnOk result (text.new.items ≡ text.old.items ++ data_text bytes.now) }
{
    if bytes.is_empty() {
        return Ok(());
    }
    let digits = hex::encode(alloc, bytes)?;
    text.push(b' ')?;
    text.extend_from_slice(digits.as_bytes())?;
    Ok(())
}
