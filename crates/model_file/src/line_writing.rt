ghost use Rattle.std.specs.Prelude.{◌≡◌, ◌<◌, ◌++◌, ◌∷◌, All, codes, decimal, flat_map, OnOk};
ghost use Rattle.sys_table.specs.Table.{name_of};
ghost use Rattle.model_file.specs.ModelText.{function_line, silent_line, sys_line, call_line, entry_text, entries_text, IsSmall, IsSpelledSilent};
ghost use Rattle.model_file.specs.Writing.{HasSmallNodes, IsSmallSys, IsSmallCall};
ghost use Rattle.model_file.specs.declared.version.ModelVersion.TheVariants.{Two};

use dm_base::{OutOfMemory, Pattern, SysName};
use flow_model::{CallEdge, ModelFunction, SilentEdge, SysEdge};
use line_text::{push_bytes, push_decimal, push_signed};
use std::alloc::Global;
use sys_table::name_text;

// Each function here adds to the end of the text. The error is that memory was refused.

/// The line of a function.
pub fn push_function(
    alloc: Global,
    text: &mut Vec<u8>,
    one: &ModelFunction,
) -> Result<(), OutOfMemory>
    ensures text { OnOk result (text.new.items ≡ text.old.items ++ function_line one.now) }
    ensures small { OnOk result (HasSmallNodes one.now) }
{
    push_bytes(text, b"f ")?;
    push_bytes(text, one.name.as_slice())?;
    push_number(alloc, text, one.entry)?;
    push_number(alloc, text, one.exit)?;
    push_bytes(text, b"\n")
}

/// The line of a silent edge.
pub fn push_silent(alloc: Global, text: &mut Vec<u8>, edge: &SilentEdge) -> Result<(), OutOfMemory>
    ensures text { OnOk result (text.new.items ≡ text.old.items ++ silent_line edge.now) }
    ensures small { OnOk result (IsSpelledSilent edge.now) }
{
    push_bytes(text, b"e ")?;
    push_decimal(alloc, text, u64::from(edge.from))?;
    push_number(alloc, text, edge.to)?;
    push_bytes(text, b"\n")
}

/// The line of a system-call edge, with its pattern.
pub fn push_sys(alloc: Global, text: &mut Vec<u8>, edge: &SysEdge) -> Result<(), OutOfMemory>
    ensures text { OnOk result (text.new.items ≡ text.old.items ++ sys_line Two edge.now) }
    ensures small { OnOk result (IsSmallSys edge.now) }
{
    push_bytes(text, b"s ")?;
    push_decimal(alloc, text, u64::from(edge.from))?;
    push_bytes(text, b" ")?;
    push_name(text, edge.name)?;
    push_number(alloc, text, edge.to)?;
    push_entries(alloc, text, &edge.args)?;
    push_bytes(text, b"\n")
}

/// The line of a call edge.
pub fn push_call(alloc: Global, text: &mut Vec<u8>, call: &CallEdge) -> Result<(), OutOfMemory>
    ensures text { OnOk result (text.new.items ≡ text.old.items ++ call_line call.now) }
    ensures small { OnOk result (IsSmallCall call.now) }
{
    push_bytes(text, b"c ")?;
    push_decimal(alloc, text, u64::from(call.from()))?;
    push_number(alloc, text, call.site())?;
    push_number(alloc, text, call.to())?;
    push_numbers(alloc, text, call.candidates())?;
    push_bytes(text, b"\n")
}

// The name of a system call.
fn push_name(text: &mut Vec<u8>, name: SysName) -> Result<(), OutOfMemory>
    ensures text { OnOk result (text.new.items ≡ text.old.items ++ name_of name) }
    ensures known { name < 24 }
{
    push_bytes(text, name_text(name))
}

// A space and each number.
fn push_numbers(alloc: Global, text: &mut Vec<u8>, numbers: &[u32]) -> Result<(), OutOfMemory>
    ensures text { OnOk result (text.new.items ≡ text.old.items ++ flat_map (λ n. 32 ∷ decimal n) numbers.now) }
    ensures small { OnOk result (All IsSmall numbers.now) }
{
    for number in numbers {
        push_number(alloc, text, *number)?;
    }
    Ok(())
}

// A space and the number.
fn push_number(alloc: Global, text: &mut Vec<u8>, number: u32) -> Result<(), OutOfMemory>
    ensures { OnOk result (text.new.items ≡ text.old.items ++ 32 ∷ decimal number) }
{
    push_bytes(text, b" ")?;
    push_decimal(alloc, text, u64::from(number))
}

// A space and each entry of a pattern.
fn push_entries(alloc: Global, text: &mut Vec<u8>, pattern: &Pattern) -> Result<(), OutOfMemory>
    ensures { OnOk result (text.new.items ≡ text.old.items ++ entries_text pattern.now) }
{
    for i in 0..pattern.count() {
        push_entry(alloc, text, pattern.get(i))?;
    }
    Ok(())
}

// A space and the entry: `*` for any value.
fn push_entry(alloc: Global, text: &mut Vec<u8>, entry: Option<i64>) -> Result<(), OutOfMemory>
    ensures { OnOk result (text.new.items ≡ text.old.items ++ 32 ∷ entry_text entry) }
{
    match entry {
        None => push_bytes(text, b" *"),
        Some(number) => {
            push_bytes(text, b" ")?;
            push_signed(alloc, text, number)
        }
    }
}
