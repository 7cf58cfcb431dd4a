ghost use Rattle.std.specs.Prelude.{◌≡◌, ◌↔◌, ◌<◌, ℕ, AllPairs, Contains, IfSome, IfNone};
ghost use Rattle.flow_model.specs.declared.records.SilentEdge.{SilentEdge as Silent};
ghost use Rattle.flow_model.specs.declared.records.SysEdge.{SysEdge as Sys};
ghost use Rattle.flow_model.specs.Call.{Call};
ghost use Rattle.dm_base.specs.Adding.{Has};
ghost use Rattle.stack_automaton.specs.Following.{AreBegun, EndsAt, IsCallAt};

use flow_model::{CallEdge, Model, ModelFunction, SilentEdge, SysEdge};

// The silent edges that leave the node, none where the model has no such node.
pub fn silent_from(model: &Model, node: u32) -> &[SilentEdge]
    ensures { (e : Silent) → Contains result.now e ↔ (Contains model.now.silent e × (e.from ≡ node)) }
{
    if node < model.nodes() {
        model.silent_from(node)
    } else {
        &[]
    }
}

// The system-call edges that leave the node, none where the model has no such node.
pub fn sys_from(model: &Model, node: u32) -> &[SysEdge]
    ensures { (e : Sys) → Contains result.now e ↔ (Contains model.now.sys e × (e.from ≡ node)) }
{
    if node < model.nodes() {
        model.sys_from(node)
    } else {
        &[]
    }
}

// The sites of the call edges that leave the node, none where the model has no such node.
pub fn sites_from(model: &Model, node: u32) -> &[u32]
    ensures { (s : ℕ) → Contains result.now s ↔ Has (λ c. (c.from ≡ node) × (c.site ≡ s)) model.now.calls }
{
    if node < model.nodes() {
        model.calls_from(node)
    } else {
        &[]
    }
}

// The one call edge with the site.
pub fn call_at(model: &Model, site: u32) -> Option<&CallEdge>
    ensures some { IfSome result (λ c. IsCallAt model.now site c.now) }
    ensures none { IfNone result ((c : Call) → Contains model.now.calls c → (c.site ≡ site) → ⊥) }
{
    // It tells that the sites differ.
    let _nodes = model.nodes();
    match model.call(site) {
        Some(call) => Some(call),
        None => None,
    }
}

// How many functions begin at the node or before it, in log n steps.
fn begun(functions: &[ModelFunction], node: u32) -> usize
    requires { AllPairs (λ d e. d.entry < e.entry) functions.now }
    ensures { AreBegun functions.now node result }
{
    functions.partition_point(|one| one.entry <= node)
}

// The function that ends at the node.
pub fn ending_at(model: &Model, node: u32) -> Option<u32>
    ensures some { IfSome result (λ f. EndsAt model.now.functions node f) }
    ensures none { IfNone result ((f : ℕ) → EndsAt model.now.functions node f → ⊥) }
{
    // It tells that the entries rise.
    let _nodes = model.nodes();
    let functions = model.functions();
    let count = begun(functions, node);
    if count == 0 {
        return None;
    }
    let last = count - 1;
    if functions[last].exit != node {
        return None;
    }
    Some(last as u32)
}
