ghost use Rattle.std.specs.Prelude.{◌≡◌, ◌≤◌, ◌++◌, ◌∷◌, [], ℕ, Some, IfOk, OnOk, slice_get};
ghost use Rattle.flow_model.specs.Built.{graph_of_records};
ghost use Rattle.inline_model.specs.Named.{AreAllCopies};
ghost use Rattle.inline_model.specs.Inlined.{IsInlined};
ghost use Rattle.inline_model.specs.Parts.{IsOnly};

use crate::{Copied, count_nodes, draw_silent, draw_sys};
use dm_base::{Bytes, OutOfMemory};
use flow_model::{FinishError, Model, ModelBuilder, ModelFunction, SilentEdge, SysEdge};
use std::alloc::Global;

// The start function.
fn start_of(model: &Model) -> &ModelFunction
    ensures { slice_get model.now.functions model.now.start ≡ Some result.now }
{
    &model.functions()[model.start() as usize]
}

// The function of the inlined model.
fn only_function(alloc: Global, model: &Model) -> Result<ModelFunction, OutOfMemory>
    ensures { IfOk result (IsOnly model.now) }
{
    let one = start_of(model);
    let name = Bytes::of(alloc, one.name.as_slice())?;
    Ok(ModelFunction {
        name,
        entry: 0,
        exit: one.exit.saturating_sub(one.entry),
    })
}

// Adds the silent edges.
fn add_silent(builder: &mut ModelBuilder, edges: &[SilentEdge]) -> Result<(), OutOfMemory>
    ensures { OnOk result (builder.new ≡ record builder.old { silent = builder.old.silent ++ edges.now }) }
{
    for i in 0..edges.len() {
        builder.silent(edges[i])?;
    }
    Ok(())
}

// Adds the system-call edges.
fn add_sys(builder: &mut ModelBuilder, edges: &[SysEdge]) -> Result<(), OutOfMemory>
    ensures { OnOk result (builder.new ≡ record builder.old { sys = builder.old.sys ++ edges.now }) }
{
    for i in 0..edges.len() {
        builder.sys(edges[i])?;
    }
    Ok(())
}

// A builder with the function and the edges.
fn records_of(
    alloc: Global,
    one: ModelFunction,
    silent: &[SilentEdge],
    sys: &[SysEdge],
) -> Result<ModelBuilder, OutOfMemory>
    ensures { IfOk result (λ b. b ≡ record { functions = one ∷ []; silent = silent.now; sys = sys.now; calls = [] }) }
{
    let mut builder = ModelBuilder::new(alloc)?;
    builder.function(one)?;
    add_silent(&mut builder, silent)?;
    add_sys(&mut builder, sys)?;
    Ok(builder)
}

// The want of memory, where no rule is broken.
fn memory_of(error: FinishError) -> OutOfMemory
    requires { (k : ℕ) → error ≡ FinishError.Invalid k → ⊥ }
{
    match error {
        FinishError::OutOfMemory => OutOfMemory,
        FinishError::Invalid(_) => unreachable!(),
    }
}

// The model of the records, which are those of the inlined model.
fn finished(model: &Model, builder: ModelBuilder, nodes: u32) -> Result<Model, OutOfMemory>
    requires inlined { IsInlined model.now (graph_of_records builder nodes 0) }
    requires few { nodes ≤ 200000 }
    ensures { IfOk result (IsInlined model.now) }
{
    // It tells that the model is valid, so the inlined one is.
    let _nodes = model.nodes();
    match builder.finish(nodes, 0) {
        Ok(inlined) => Ok(inlined),
        Err(error) => Err(memory_of(error)),
    }
}

/// The inlined model, whose copies are those of the list.
pub fn build(alloc: Global, model: &Model, items: &[Copied]) -> Result<Model, OutOfMemory>
    requires { AreAllCopies model.now items.now }
    ensures { IfOk result (IsInlined model.now) }
{
    let _nodes = model.nodes();
    let nodes = count_nodes(model, items);
    let silent = draw_silent(alloc, model, items)?;
    let sys = draw_sys(alloc, model, items)?;
    let one = only_function(alloc, model)?;
    let builder = records_of(alloc, one, &silent, &sys)?;
    finished(model, builder, nodes)
}
