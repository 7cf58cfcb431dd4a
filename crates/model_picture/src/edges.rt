ghost use Rattle.std.specs.Prelude.{◌≡◌, ◌++◌, ◌∷◌, flat_map, OnOk};
ghost use Rattle.model_picture.specs.Picture.{silent_arrow, sys_arrow, name_at, call_arrow};

use crate::words::{push_arrow, push_entries, push_name};
use dm_base::OutOfMemory;
use flow_model::{CallEdge, ModelFunction, SilentEdge, SysEdge};
use line_text::{push_bytes, push_decimal};
use std::alloc::Global;

// Each function here adds to the end of the text. The error is that memory was refused.

/// The line of each silent edge.
pub fn push_all_silent(
    alloc: Global,
    text: &mut Vec<u8>,
    edges: &[SilentEdge],
) -> Result<(), OutOfMemory>
    ensures { OnOk result (text.new.items ≡ text.old.items ++ flat_map silent_arrow edges.now) }
{
    for edge in edges {
        push_silent(alloc, text, edge)?;
    }
    Ok(())
}

// The line of a silent edge.
fn push_silent(alloc: Global, text: &mut Vec<u8>, edge: &SilentEdge) -> Result<(), OutOfMemory>
    ensures { OnOk result (text.new.items ≡ text.old.items ++ silent_arrow edge.now) }
{
    push_arrow(alloc, text, edge.from, edge.to)?;
    push_bytes(text, b" [style=dotted]\n")
}

/// The line of each system-call edge.
pub fn push_all_sys(alloc: Global, text: &mut Vec<u8>, edges: &[SysEdge]) -> Result<(), OutOfMemory>
    ensures { OnOk result (text.new.items ≡ text.old.items ++ flat_map sys_arrow edges.now) }
{
    for edge in edges {
        push_sys(alloc, text, edge)?;
    }
    Ok(())
}

// The line of a system-call edge, with its name and its pattern.
fn push_sys(alloc: Global, text: &mut Vec<u8>, edge: &SysEdge) -> Result<(), OutOfMemory>
    ensures { OnOk result (text.new.items ≡ text.old.items ++ sys_arrow edge.now) }
{
    push_arrow(alloc, text, edge.from, edge.to)?;
    push_bytes(text, b" [label=\"")?;
    push_name(text, edge.name)?;
    push_entries(alloc, text, &edge.args)?;
    push_bytes(text, b"\"]\n")
}

/// The line of each call edge of a model with these functions.
pub fn push_calls(
    alloc: Global,
    text: &mut Vec<u8>,
    functions: &[ModelFunction],
    calls: &[CallEdge],
) -> Result<(), OutOfMemory>
    ensures { OnOk result (text.new.items ≡ text.old.items ++ flat_map (call_arrow functions.now) calls.now) }
{
    for call in calls {
        push_call(alloc, text, functions, call)?;
    }
    Ok(())
}

// The line of a call edge, with its site and the names of its candidates.
fn push_call(
    alloc: Global,
    text: &mut Vec<u8>,
    functions: &[ModelFunction],
    call: &CallEdge,
) -> Result<(), OutOfMemory>
    ensures { OnOk result (text.new.items ≡ text.old.items ++ call_arrow functions.now call.now) }
{
    push_arrow(alloc, text, call.from(), call.to())?;
    push_bytes(text, b" [style=dashed,label=\"")?;
    push_decimal(alloc, text, u64::from(call.site()))?;
    push_bytes(text, b":")?;
    push_candidates(text, functions, call.candidates())?;
    push_bytes(text, b"\"]\n")
}

// A space and the name of each candidate.
fn push_candidates(
    text: &mut Vec<u8>,
    functions: &[ModelFunction],
    candidates: &[u32],
) -> Result<(), OutOfMemory>
    ensures { OnOk result (text.new.items ≡ text.old.items ++ flat_map (λ f. 32 ∷ name_at functions.now f) candidates.now) }
{
    for candidate in candidates {
        push_candidate(text, functions, *candidate)?;
    }
    Ok(())
}

// A space and the name of the function with this number.
fn push_candidate(
    text: &mut Vec<u8>,
    functions: &[ModelFunction],
    candidate: u32,
) -> Result<(), OutOfMemory>
    ensures { OnOk result (text.new.items ≡ text.old.items ++ 32 ∷ name_at functions.now candidate) }
{
    push_bytes(text, b" ")?;
    push_bytes(text, name_at(functions, candidate))
}

// The name of the function with this number.
fn name_at(functions: &[ModelFunction], number: u32) -> &[u8]
    ensures { result.now ≡ name_at functions.now number }
{
    match functions.get(number as usize) {
        Some(one) => one.name.as_slice(),
        None => &[],
    }
}
