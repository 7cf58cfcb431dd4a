ghost use Rattle.std.specs.Prelude.{◌≡◌, ◌↔◌, ◌<◌, ℕ, Contains, IsTrue, IfSome, IfNone, Some};
ghost use Rattle.flow_model.specs.declared.records.SilentEdge.{SilentEdge as Silent};
ghost use Rattle.flow_model.specs.declared.records.SysEdge.{SysEdge as Sys};
ghost use Rattle.flow_model.specs.Call.{Call};
ghost use Rattle.dm_base.specs.Adding.{Has};
ghost use Rattle.certify_steps.specs.Reading.{BeginsAt, EndsAt, IsCallAt};

use flow_model::{CallEdge, Model, ModelFunction, SilentEdge, SysEdge};

// The silent edges that leave the node, none where the model has no such node.
pub fn silent_from(model: &Model, node: u32) -> &[SilentEdge]
    ensures { (e : Silent) → Contains result.now e ↔ (Contains model.now.silent e × (e.from ≡ node)) }
{
    if node < model.nodes() {
        model.silent_from(node)
    } else {
        &[]
    }
}

// The system-call edges that leave the node, none where the model has no such node.
pub fn sys_from(model: &Model, node: u32) -> &[SysEdge]
    ensures { (e : Sys) → Contains result.now e ↔ (Contains model.now.sys e × (e.from ≡ node)) }
{
    if node < model.nodes() {
        model.sys_from(node)
    } else {
        &[]
    }
}

// The sites of the call edges that leave the node, none where the model has no such node.
pub fn sites_from(model: &Model, node: u32) -> &[u32]
    ensures { (s : ℕ) → Contains result.now s ↔ Has (λ c. (c.from ≡ node) × (c.site ≡ s)) model.now.calls }
{
    if node < model.nodes() {
        model.calls_from(node)
    } else {
        &[]
    }
}

// The one call edge with the site.
pub fn call_at(model: &Model, site: u32) -> Option<&CallEdge>
    ensures some { IfSome result (λ c. IsCallAt model.now site c.now) }
    ensures none { IfNone result ((c : Call) → Contains model.now.calls c → (c.site ≡ site) → ⊥) }
{
    // It tells that the sites differ.
    let _nodes = model.nodes();
    match model.call(site) {
        Some(call) => Some(call),
        None => None,
    }
}

// The function that ends at the node.
pub fn ending_at(model: &Model, node: u32) -> Option<u32>
    ensures some { IfSome result (λ f. EndsAt model.now.functions f node) }
    ensures only { (f : ℕ) → EndsAt model.now.functions f node → result ≡ Some f }
{
    model.function_that_ends_at(node)
}

// The sites of the calls that may enter the function, none where the model has no such function.
pub fn sites_into(model: &Model, function: u32) -> &[u32]
    ensures { (s : ℕ) → Contains result.now s ↔ Has (λ c. Contains c.candidates function × (c.site ≡ s)) model.now.calls }
{
    // It tells that the candidates are functions.
    let _nodes = model.nodes();
    if (function as usize) < model.functions().len() {
        model.returns_of(function)
    } else {
        &[]
    }
}

// Whether the function begins at the node.
pub fn begins_at(functions: &[ModelFunction], function: u32, node: u32) -> bool
    ensures { IsTrue result ↔ BeginsAt functions.now function node }
{
    match functions.get(function as usize) {
        Some(one) => one.entry == node,
        None => false,
    }
}

// Whether the function ends at the node.
pub fn ends_at(functions: &[ModelFunction], function: u32, node: u32) -> bool
    ensures { IsTrue result ↔ EndsAt functions.now function node }
{
    match functions.get(function as usize) {
        Some(one) => one.exit == node,
        None => false,
    }
}
