ghost use Rattle.std.specs.Prelude.{◌≡◌, ◌<◌, ◌≤◌, ◌↔◌, length, IfOk, OnOk, Contains};
ghost use Rattle.flow_model.specs.declared.records.SysEdge.{SysEdge};
ghost use Rattle.flow_model.specs.Graph.{Owns};
ghost use Rattle.flow_model.specs.Order.{sys_order, StrictlyRise};
ghost use Rattle.inline_model.specs.Named.{AreAllCopies};
ghost use Rattle.inline_model.specs.Drawn.{IsCopiedSys, IsDrawnSys};
ghost use Rattle.inline_model.specs.Growing.{Adds, IsNumbered, LeavesSys};

use crate::growing::{first_of, number_of, past_of};
use crate::{Copied, in_order};
use dm_base::OutOfMemory;
use flow_model::{Model, SysEdge};
use std::alloc::Global;

// Adds the system-call edges of the copy that leave the node.
fn copy_from(
    edges: &mut Vec<SysEdge>,
    model: &Model,
    item: &Copied,
    node: u32,
) -> Result<(), OutOfMemory>
    requires node { node < model.now.nodes }
    requires item { IsNumbered model.now item.now }
    requires owns { Owns model.now.functions model.now.nodes item.now.function node }
    ensures { OnOk result (Adds edges.old.items edges.new.items (LeavesSys model.now item.now node)) }
{
    let _nodes = model.nodes();
    for edge in model.sys_from(node) {
        let from = number_of(model, item, edge.from);
        let to = number_of(model, item, edge.to);
        edges.push(SysEdge {
            from,
            name: edge.name,
            to,
            args: edge.args,
        })?;
    }
    Ok(())
}

// Adds the system-call edges of the copy.
fn copy_all(edges: &mut Vec<SysEdge>, model: &Model, item: &Copied) -> Result<(), OutOfMemory>
    requires { IsNumbered model.now item.now }
    ensures { OnOk result (Adds edges.old.items edges.new.items (λ e. IsCopiedSys model.now item.now e.from e.name e.args e.to)) }
{
    let _nodes = model.nodes();
    let from = first_of(model, item.function);
    let to = past_of(model, item.function);
    for node in from..to {
        copy_from(edges, model, item, node)?;
    }
    Ok(())
}

// The system-call edges of all copies.
fn drawn(alloc: Global, model: &Model, items: &[Copied]) -> Result<Vec<SysEdge>, OutOfMemory>
    requires { AreAllCopies model.now items.now }
    ensures { IfOk result (λ v. (e : SysEdge) → Contains v.items e ↔ IsDrawnSys model.now items.now e.from e.name e.args e.to) }
{
    let _nodes = model.nodes();
    let mut edges = Vec::new(alloc);
    for item in items {
        copy_all(&mut edges, model, item)?;
    }
    Ok(edges)
}

/// The system-call edges of the inlined model with these copies, which are all of the model, in increasing order.
pub fn draw_sys(alloc: Global, model: &Model, items: &[Copied]) -> Result<Vec<SysEdge>, OutOfMemory>
    requires { AreAllCopies model.now items.now }
    ensures edges { IfOk result (λ v. (e : SysEdge) → Contains v.items e ↔ IsDrawnSys model.now items.now e.from e.name e.args e.to) }
    ensures rise { IfOk result (λ v. StrictlyRise sys_order v.items) }
{
    let mut edges = drawn(alloc, model, items)?;
    in_order(&mut edges);
    Ok(edges)
}
