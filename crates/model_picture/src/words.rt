ghost use Rattle.std.specs.Prelude.{◌≡◌, ◌++◌, ◌∷◌, OnOk};
ghost use Rattle.sys_table.specs.Table.{name_of};
ghost use Rattle.model_file.specs.ModelText.{entry_text, entries_text};
ghost use Rattle.model_picture.specs.Picture.{arrow};

use dm_base::{OutOfMemory, Pattern, SysName};
use line_text::{push_bytes, push_decimal, push_signed};
use std::alloc::Global;
use sys_table::name_text;

// Each function here adds to the end of the text. The error is that memory was refused.

/// An arrow from a node to a node.
pub fn push_arrow(alloc: Global, text: &mut Vec<u8>, from: u32, to: u32) -> Result<(), OutOfMemory>
    ensures { OnOk result (text.new.items ≡ text.old.items ++ arrow from to) }
{
    push_decimal(alloc, text, u64::from(from))?;
    push_bytes(text, b" -> ")?;
    push_decimal(alloc, text, u64::from(to))
}

/// The name of a system call.
pub fn push_name(text: &mut Vec<u8>, name: SysName) -> Result<(), OutOfMemory>
    ensures { OnOk result (text.new.items ≡ text.old.items ++ name_of name) }
{
    push_bytes(text, name_text(name))
}

/// A space and each entry of a pattern, as in version 2 of model files.
pub fn push_entries(alloc: Global, text: &mut Vec<u8>, pattern: &Pattern) -> Result<(), OutOfMemory>
    ensures { OnOk result (text.new.items ≡ text.old.items ++ entries_text pattern.now) }
{
    for i in 0..pattern.count() {
        push_entry(alloc, text, pattern.get(i))?;
    }
    Ok(())
}

// A space and the entry: `*` for any value.
fn push_entry(alloc: Global, text: &mut Vec<u8>, entry: Option<i64>) -> Result<(), OutOfMemory>
    ensures { OnOk result (text.new.items ≡ text.old.items ++ 32 ∷ entry_text entry) }
{
    match entry {
        None => push_bytes(text, b" *"),
        Some(number) => {
            push_bytes(text, b" ")?;
            push_signed(alloc, text, number)
        }
    }
}
