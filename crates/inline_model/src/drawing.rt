ghost use Rattle.std.specs.Prelude.{◌≡◌, ◌<◌, ◌≤◌, ◌⊎◌, ◌↔◌, length, IfOk, OnOk, Contains};
ghost use Rattle.flow_model.specs.declared.records.SilentEdge.{SilentEdge};
ghost use Rattle.flow_model.specs.Graph.{Owns};
ghost use Rattle.flow_model.specs.Order.{silent_order, StrictlyRise};
ghost use Rattle.inline_model.specs.Named.{AreAllCopies};
ghost use Rattle.inline_model.specs.Drawn.{IsCopiedSilent, IsLink, IsDrawnSilent};
ghost use Rattle.inline_model.specs.Growing.{Adds, IsNumbered, LeavesSilent};

use crate::growing::{call_of, first_of, function_of, item_at, number_of, past_of};
use crate::{Copied, in_order};
use dm_base::OutOfMemory;
use flow_model::{Model, SilentEdge};
use std::alloc::Global;

// Adds the silent edges of the copy that leave the node.
fn copy_from(
    edges: &mut Vec<SilentEdge>,
    model: &Model,
    item: &Copied,
    node: u32,
) -> Result<(), OutOfMemory>
    requires node { node < model.now.nodes }
    requires item { IsNumbered model.now item.now }
    requires owns { Owns model.now.functions model.now.nodes item.now.function node }
    ensures { OnOk result (Adds edges.old.items edges.new.items (LeavesSilent model.now item.now node)) }
{
    let _nodes = model.nodes();
    for edge in model.silent_from(node) {
        let from = number_of(model, item, edge.from);
        let to = number_of(model, item, edge.to);
        edges.push(SilentEdge { from, to })?;
    }
    Ok(())
}

// Adds the silent edges of the copy.
fn copy_all(edges: &mut Vec<SilentEdge>, model: &Model, item: &Copied) -> Result<(), OutOfMemory>
    requires { IsNumbered model.now item.now }
    ensures { OnOk result (Adds edges.old.items edges.new.items (λ e. IsCopiedSilent model.now item.now e.from e.to)) }
{
    let _nodes = model.nodes();
    let from = first_of(model, item.function);
    let to = past_of(model, item.function);
    for node in from..to {
        copy_from(edges, model, item, node)?;
    }
    Ok(())
}

// Adds the edges between the copy and the one from which it goes on.
fn link(
    edges: &mut Vec<SilentEdge>,
    model: &Model,
    items: &[Copied],
    item: &Copied,
) -> Result<(), OutOfMemory>
    requires all { AreAllCopies model.now items.now }
    requires has { Contains items.now item.now }
    ensures { OnOk result (Adds edges.old.items edges.new.items (λ e. IsLink model.now items.now item.now e.from e.to)) }
{
    if item.root {
        return Ok(());
    }
    let _nodes = model.nodes();
    let before = item_at(items, item.parent);
    let call = call_of(model, item.place);
    let one = function_of(model, item.function);
    let from = number_of(model, &before, call.from());
    let entry = number_of(model, item, one.entry);
    edges.push(SilentEdge { from, to: entry })?;
    let exit = number_of(model, item, one.exit);
    let to = number_of(model, &before, call.to());
    edges.push(SilentEdge { from: exit, to })?;
    Ok(())
}

// Adds the silent edges of the copy, and those between it and the one from which it goes on.
fn draw(
    edges: &mut Vec<SilentEdge>,
    model: &Model,
    items: &[Copied],
    item: &Copied,
) -> Result<(), OutOfMemory>
    requires all { AreAllCopies model.now items.now }
    requires has { Contains items.now item.now }
    ensures { OnOk result (Adds edges.old.items edges.new.items (λ e. IsCopiedSilent model.now item.now e.from e.to ⊎ IsLink model.now items.now item.now e.from e.to)) }
{
    let _nodes = model.nodes();
    copy_all(edges, model, item)?;
    link(edges, model, items, item)?;
    Ok(())
}

// The silent edges of all copies.
fn drawn(alloc: Global, model: &Model, items: &[Copied]) -> Result<Vec<SilentEdge>, OutOfMemory>
    requires { AreAllCopies model.now items.now }
    ensures { IfOk result (λ v. (e : SilentEdge) → Contains v.items e ↔ IsDrawnSilent model.now items.now e.from e.to) }
{
    let mut edges = Vec::new(alloc);
    for item in items {
        draw(&mut edges, model, items, item)?;
    }
    Ok(edges)
}

/// The silent edges of the inlined model with these copies, which are all of the model, in increasing order.
pub fn draw_silent(
    alloc: Global,
    model: &Model,
    items: &[Copied],
) -> Result<Vec<SilentEdge>, OutOfMemory>
    requires { AreAllCopies model.now items.now }
    ensures edges { IfOk result (λ v. (e : SilentEdge) → Contains v.items e ↔ IsDrawnSilent model.now items.now e.from e.to) }
    ensures rise { IfOk result (λ v. StrictlyRise silent_order v.items) }
{
    let mut edges = drawn(alloc, model, items)?;
    in_order(&mut edges);
    Ok(edges)
}
