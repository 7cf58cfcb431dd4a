ghost use Rattle.std.specs.Prelude.{◌≡◌, ◌≤◌, ◌<◌, ◌++◌, All, length, flat_map, codes, IfOk, IfErr, OnOk};
ghost use Rattle.flow_model.specs.Rules.{IsValid};
ghost use Rattle.model_file.specs.ModelText.{model_text, head_line, functions_line, function_line, nodes_line, silent_line, sys_line, call_line, ending, IsSmall, IsSpelledSilent};
ghost use Rattle.model_file.specs.Refusal.{longest, IsModel};
ghost use Rattle.model_file.specs.Writing.{HasSmallNodes, IsSmallSys, IsSmallCall, HasSmallParts, first_lines, edge_lines};
ghost use Rattle.model_file.specs.declared.version.ModelVersion.TheVariants.{Two};

use crate::WriteModelError;
use crate::line_writing::{push_call, push_function, push_silent, push_sys};
use dm_base::OutOfMemory;
use flow_model::{CallEdge, Model, ModelFunction, SilentEdge, SysEdge};
use line_text::{push_bytes, push_decimal};
use std::alloc::Global;

// The greatest length of a model's text, in bytes.
const LONGEST: usize = 16_777_216;

/// The text of the model in version 2, which `read_model` reads back. It is refused exactly where it
/// is longer than 16 MiB.
pub fn write_model(alloc: Global, model: &Model) -> Result<Vec<u8>, WriteModelError>
    ensures text { IfOk result (λ text. text.items ≡ model_text Two model.now) }
    ensures formed { IfOk result (λ text. IsModel text.items model.now) }
    ensures short { IfOk result (λ text. length text.items ≤ longest) }
    ensures long { IfErr result (λ error. error ≡ WriteModelError.TooLarge → longest < length (model_text Two model.now)) }
{
    let text = whole_text(alloc, model)?;
    if text.len() > LONGEST {
        return Err(WriteModelError::TooLarge);
    }
    Ok(text)
}

// The text of the model in version 2, however long.
fn whole_text(alloc: Global, model: &Model) -> Result<Vec<u8>, OutOfMemory>
    ensures text { IfOk result (λ text. text.items ≡ model_text Two model.now) }
    ensures valid { OnOk result (IsValid model.now) }
    ensures small { OnOk result (HasSmallParts model.now) }
{
    let mut text = first_lines(alloc, model)?;
    push_edges(alloc, &mut text, model)?;
    push_ending(alloc, &mut text, model.start())?;
    Ok(text)
}

// The lines before those of the edges.
fn first_lines(alloc: Global, model: &Model) -> Result<Vec<u8>, OutOfMemory>
    ensures text { IfOk result (λ text. text.items ≡ first_lines model.now) }
    ensures valid { OnOk result (IsValid model.now) }
    ensures nodes { OnOk result (IsSmall model.now.nodes) }
    ensures functions { OnOk result (All HasSmallNodes model.now.functions) }
{
    let mut text = Vec::new(alloc);
    push_bytes(&mut text, b"dyckmon-model 2\nfunctions ")?;
    push_decimal(alloc, &mut text, model.functions().len() as u64)?;
    push_bytes(&mut text, b"\n")?;
    push_functions(alloc, &mut text, model.functions())?;
    push_bytes(&mut text, b"nodes ")?;
    push_decimal(alloc, &mut text, u64::from(model.nodes()))?;
    push_bytes(&mut text, b"\n")?;
    Ok(text)
}

// Adds the lines of the edges.
fn push_edges(alloc: Global, text: &mut Vec<u8>, model: &Model) -> Result<(), OutOfMemory>
    ensures text { OnOk result (text.new.items ≡ text.old.items ++ edge_lines model.now) }
    ensures silent { OnOk result (All IsSpelledSilent model.now.silent) }
    ensures sys { OnOk result (All IsSmallSys model.now.sys) }
    ensures calls { OnOk result (All IsSmallCall model.now.calls) }
{
    push_all_silent(alloc, text, model.silent())?;
    push_all_sys(alloc, text, model.sys())?;
    push_calls(alloc, text, model.calls())
}

// Adds the lines after those of the edges.
fn push_ending(alloc: Global, text: &mut Vec<u8>, start: u32) -> Result<(), OutOfMemory>
    ensures text { OnOk result (text.new.items ≡ text.old.items ++ ending start) }
    ensures small { IsSmall start }
{
    push_bytes(text, b"start ")?;
    push_decimal(alloc, text, u64::from(start))?;
    push_bytes(text, b"\nend\n")
}

// Adds the line of each function.
fn push_functions(
    alloc: Global,
    text: &mut Vec<u8>,
    functions: &[ModelFunction],
) -> Result<(), OutOfMemory>
    ensures text { OnOk result (text.new.items ≡ text.old.items ++ flat_map function_line functions.now) }
    ensures small { OnOk result (All HasSmallNodes functions.now) }
{
    for one in functions {
        push_function(alloc, text, one)?;
    }
    Ok(())
}

// Adds the line of each silent edge.
fn push_all_silent(
    alloc: Global,
    text: &mut Vec<u8>,
    edges: &[SilentEdge],
) -> Result<(), OutOfMemory>
    ensures text { OnOk result (text.new.items ≡ text.old.items ++ flat_map silent_line edges.now) }
    ensures small { OnOk result (All IsSpelledSilent edges.now) }
{
    for edge in edges {
        push_silent(alloc, text, edge)?;
    }
    Ok(())
}

// Adds the line of each system-call edge.
fn push_all_sys(alloc: Global, text: &mut Vec<u8>, edges: &[SysEdge]) -> Result<(), OutOfMemory>
    ensures text { OnOk result (text.new.items ≡ text.old.items ++ flat_map (sys_line Two) edges.now) }
    ensures small { OnOk result (All IsSmallSys edges.now) }
{
    for edge in edges {
        push_sys(alloc, text, edge)?;
    }
    Ok(())
}

// Adds the line of each call edge.
fn push_calls(alloc: Global, text: &mut Vec<u8>, calls: &[CallEdge]) -> Result<(), OutOfMemory>
    ensures text { OnOk result (text.new.items ≡ text.old.items ++ flat_map call_line calls.now) }
    ensures small { OnOk result (All IsSmallCall calls.now) }
{
    for call in calls {
        push_call(alloc, text, call)?;
    }
    Ok(())
}
