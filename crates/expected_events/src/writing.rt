ghost use Rattle.std.specs.Prelude.{◌≡◌, ◌++◌, ◌∷◌, flat_map, slice_get, OnOk};
ghost use Rattle.std.specs.Option.{option_copied};
ghost use Rattle.model_file.specs.ModelText.{entry_text, entries_text};
ghost use Rattle.expected_events.specs.Marked.{seen};
ghost use Rattle.expected_events.specs.Text.{in_line, call_line, open_line, close_line, next_text};

use crate::called::Called;
use crate::finding::Found;
use dm_base::{OutOfMemory, Pattern};
use flow_model::{Model, ModelFunction};
use line_text::{push_bytes, push_decimal, push_signed};
use std::alloc::Global;
use sys_table::name_text;

// Each function here adds to the end of the text. The error is that memory was refused.

/// The lines of what may come next.
pub fn push_next(
    alloc: Global,
    text: &mut Vec<u8>,
    model: &Model,
    found: &Found,
) -> Result<(), OutOfMemory>
    ensures { OnOk result (text.new.items ≡ text.old.items ++ next_text model.now (seen found.now)) }
{
    push_functions(text, model, &found.functions)?;
    push_calls(alloc, text, &found.calls)?;
    push_opened(alloc, text, &found.opened)?;
    push_closed(alloc, text, found.closed)
}

// The line of each function.
fn push_functions(text: &mut Vec<u8>, model: &Model, functions: &[usize]) -> Result<(), OutOfMemory>
    ensures { OnOk result (text.new.items ≡ text.old.items ++ flat_map (λ f. in_line (slice_get model.now.functions f)) functions.now) }
{
    for function in functions {
        push_function(text, function_at(model.functions(), *function))?;
    }
    Ok(())
}

// The function at the place, counted from 0.
fn function_at(functions: &[ModelFunction], place: usize) -> Option<&ModelFunction>
    ensures { option_copied result ≡ slice_get functions.now place }
{
    functions.get(place)
}

// The line of the function, none where there is no function.
fn push_function(text: &mut Vec<u8>, function: Option<&ModelFunction>) -> Result<(), OutOfMemory>
    ensures { OnOk result (text.new.items ≡ text.old.items ++ in_line (option_copied function.entry)) }
{
    match function {
        None => Ok(()),
        Some(one) => {
            push_bytes(text, b"in ")?;
            push_bytes(text, one.name.as_slice())?;
            push_bytes(text, b"\n")
        }
    }
}

// The line of each system call with its pattern.
fn push_calls(alloc: Global, text: &mut Vec<u8>, calls: &[Called]) -> Result<(), OutOfMemory>
    ensures { OnOk result (text.new.items ≡ text.old.items ++ flat_map call_line calls.now) }
{
    for called in calls {
        push_call(alloc, text, called)?;
    }
    Ok(())
}

// The line of a system call with its pattern.
fn push_call(alloc: Global, text: &mut Vec<u8>, called: &Called) -> Result<(), OutOfMemory>
    ensures { OnOk result (text.new.items ≡ text.old.items ++ call_line called.now) }
{
    push_bytes(text, b"may S ")?;
    push_bytes(text, name_text(called.name))?;
    push_entries(alloc, text, &called.args)?;
    push_bytes(text, b"\n")
}

// A space and each entry of a pattern, as in version 2 of model files.
fn push_entries(alloc: Global, text: &mut Vec<u8>, pattern: &Pattern) -> Result<(), OutOfMemory>
    ensures { OnOk result (text.new.items ≡ text.old.items ++ entries_text pattern.now) }
{
    for i in 0..pattern.count() {
        push_entry(alloc, text, pattern.get(i))?;
    }
    Ok(())
}

// A space and the entry: `*` for any value.
fn push_entry(alloc: Global, text: &mut Vec<u8>, entry: Option<i64>) -> Result<(), OutOfMemory>
    ensures { OnOk result (text.new.items ≡ text.old.items ++ 32 ∷ entry_text entry) }
{
    match entry {
        None => push_bytes(text, b" *"),
        Some(number) => {
            push_bytes(text, b" ")?;
            push_signed(alloc, text, number)
        }
    }
}

// The line of each site that may be opened.
fn push_opened(alloc: Global, text: &mut Vec<u8>, sites: &[u32]) -> Result<(), OutOfMemory>
    ensures { OnOk result (text.new.items ≡ text.old.items ++ flat_map open_line sites.now) }
{
    for site in sites {
        push_open(alloc, text, *site)?;
    }
    Ok(())
}

// The line of a site that may be opened.
fn push_open(alloc: Global, text: &mut Vec<u8>, site: u32) -> Result<(), OutOfMemory>
    ensures { OnOk result (text.new.items ≡ text.old.items ++ open_line site) }
{
    push_bytes(text, b"may B ")?;
    push_decimal(alloc, text, u64::from(site))?;
    push_bytes(text, b"\n")
}

// The line of the site that may be closed, none where there is none.
fn push_closed(alloc: Global, text: &mut Vec<u8>, site: Option<u32>) -> Result<(), OutOfMemory>
    ensures { OnOk result (text.new.items ≡ text.old.items ++ close_line site) }
{
    match site {
        None => Ok(()),
        Some(site) => {
            push_bytes(text, b"may E ")?;
            push_decimal(alloc, text, u64::from(site))?;
            push_bytes(text, b"\n")
        }
    }
}
