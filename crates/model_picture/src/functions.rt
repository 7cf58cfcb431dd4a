ghost use Rattle.std.specs.Prelude.{◌≡◌, ◌-◌, ◌++◌, ◌<◌, ◌≤◌, ◌^◌, flat_map, length, OnOk};
ghost use Rattle.std.specs.List.{range_with_len};
ghost use Rattle.flow_model.specs.Graph.{end_of};
ghost use Rattle.model_picture.specs.Picture.{node_style, node_line, start_style, function_head, function_lines, subgraph};

use dm_base::OutOfMemory;
use flow_model::{Model, ModelFunction};
use line_text::{push_bytes, push_decimal};
use std::alloc::Global;

// Each function here adds to the end of the text. The error is that memory was refused.

/// The lines of each function, in order.
pub fn push_subgraphs(alloc: Global, text: &mut Vec<u8>, model: &Model) -> Result<(), OutOfMemory>
    ensures { OnOk result (text.new.items ≡ text.old.items ++ flat_map (subgraph model.now) (range_with_len 0 (length model.now.functions))) }
{
    for number in 0..model.functions().len() {
        push_subgraph(alloc, text, model, number)?;
    }
    Ok(())
}

// The lines of the function with this number.
fn push_subgraph(
    alloc: Global,
    text: &mut Vec<u8>,
    model: &Model,
    number: usize,
) -> Result<(), OutOfMemory>
    requires { number < length model.now.functions }
    ensures { OnOk result (text.new.items ≡ text.old.items ++ subgraph model.now number) }
{
    let past = past_of(model.functions(), model.nodes(), number);
    let starts = number == model.start() as usize;
    match model.functions().get(number) {
        Some(one) => push_function(alloc, text, one, number, starts, past),
        None => Ok(()),
    }
}

// The first node past those of the function with this number.
fn past_of(functions: &[ModelFunction], nodes: u32, number: usize) -> u32
    requires { number < length functions.now }
    ensures { result ≡ end_of functions.now nodes number }
{
    match functions.get(number + 1) {
        Some(next) => next.entry,
        None => nodes,
    }
}

// The lines of a function, by its number, by whether a run enters it, and by the first node past its own.
fn push_function(
    alloc: Global,
    text: &mut Vec<u8>,
    one: &ModelFunction,
    number: usize,
    starts: bool,
    past: u32,
) -> Result<(), OutOfMemory>
    ensures { OnOk result (text.new.items ≡ text.old.items ++ function_lines number starts past one.now) }
{
    push_head(alloc, text, number, starts, one.name.as_slice())?;
    push_nodes(alloc, text, one, past)?;
    push_bytes(text, b"}\n")
}

// The first lines of a function, by its number, by whether a run enters it and by its name.
fn push_head(
    alloc: Global,
    text: &mut Vec<u8>,
    number: usize,
    starts: bool,
    name: &[u8],
) -> Result<(), OutOfMemory>
    ensures { OnOk result (text.new.items ≡ text.old.items ++ function_head number starts name.now) }
{
    push_bytes(text, b"subgraph cluster_")?;
    push_decimal(alloc, text, number as u64)?;
    push_bytes(text, b" {\nlabel=\"")?;
    push_bytes(text, name)?;
    push_bytes(text, b"\"\n")?;
    push_bytes(text, start_style(starts))?;
    Ok(())
}

// How the subgraph of a function is drawn, by whether a run enters that function.
fn start_style(starts: bool) -> &'static [u8]
    ensures { result.now ≡ start_style starts }
{
    if starts { b"penwidth=3\n" } else { b"" }
}

// The line of each node of a function, in order, by the first node past them.
fn push_nodes(
    alloc: Global,
    text: &mut Vec<u8>,
    one: &ModelFunction,
    past: u32,
) -> Result<(), OutOfMemory>
    ensures { OnOk result (text.new.items ≡ text.old.items ++ flat_map (node_line one.now) (range_with_len one.now.entry (past - one.now.entry))) }
{
    for k in 0..past.saturating_sub(one.entry) {
        push_node(alloc, text, one, one.entry + k)?;
    }
    Ok(())
}

// The line of a node of a function.
fn push_node(
    alloc: Global,
    text: &mut Vec<u8>,
    one: &ModelFunction,
    node: u32,
) -> Result<(), OutOfMemory>
    ensures { OnOk result (text.new.items ≡ text.old.items ++ node_line one.now node) }
{
    push_decimal(alloc, text, u64::from(node))?;
    push_bytes(text, node_style(node == one.entry, node == one.exit))?;
    push_bytes(text, b"\n")
}

// How a node is drawn, by whether it is the entry of its function and whether it is the exit.
fn node_style(begins: bool, ends: bool) -> &'static [u8]
    ensures { result.now ≡ node_style begins ends }
{
    match (begins, ends) {
        (true, true) => b" [shape=doublecircle,style=filled]",
        (true, false) => b" [style=filled]",
        (false, true) => b" [shape=doublecircle]",
        (false, false) => b"",
    }
}
