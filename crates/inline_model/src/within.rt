ghost use Rattle.std.specs.Prelude.{◌≡◌, ◌≤◌, ◌<◌, ◌↔◌, ℕ, [], length, Contains, IsTrue, IfOk};
ghost use Rattle.std.specs.FinSet.{empty};
ghost use Rattle.dm_sets.specs.Nodes.{Nodes, Has};
ghost use Rattle.flow_model.specs.Call.{Call};
ghost use Rattle.flow_model.specs.Graph.{HasSilent};
ghost use Rattle.flow_model.specs.Growth.{Adds};
ghost use Rattle.inline_model.specs.Saturating.{IsWithin, HasExit, MayPass, CallsTo, PassesTo, ReturnsTo, LeavesTo, LeadsTo, IsSaturating};

use dm_base::OutOfMemory;
use dm_sets::NodeSet;
use flow_model::{CallEdge, Model, Scratch};
use std::alloc::Global;

// Adds the node where the condition holds.
fn add_where(pool: &mut Scratch, node: u32, condition: bool)
    requires { node < pool.old.size }
    ensures { Adds pool.old pool.new (λ b. IsTrue condition × (node ≡ b)) }
{
    if condition {
        pool.add(node);
    }
}

// Adds the ends of the silent edges that leave the node.
fn follow_silent(pool: &mut Scratch, model: &Model, node: u32)
    requires pool { pool.old.size ≡ model.now.nodes }
    requires node { node < model.now.nodes }
    ensures { Adds pool.old pool.new (HasSilent model.now node) }
{
    let _nodes = model.nodes();
    for edge in model.silent_from(node) {
        pool.add(edge.to);
    }
}

// Adds the ends of the system-call edges that leave the node.
fn follow_sys(pool: &mut Scratch, model: &Model, node: u32)
    requires pool { pool.old.size ≡ model.now.nodes }
    requires node { node < model.now.nodes }
    ensures { Adds pool.old pool.new (CallsTo model.now node) }
{
    let _nodes = model.nodes();
    for edge in model.sys_from(node) {
        pool.add(edge.to);
    }
}

// Whether the exit of the function is in the set.
fn has_exit(model: &Model, done: &NodeSet, function: u32) -> bool
    ensures { IsTrue result ↔ HasExit model.now done.now function }
{
    match model.functions().get(function as usize) {
        Some(one) => done.contains(one.exit),
        None => false,
    }
}

// Whether the exit of a candidate of the call is in the set.
fn may_pass(model: &Model, done: &NodeSet, call: &CallEdge) -> bool
    ensures { IsTrue result ↔ MayPass model.now done.now call.now }
{
    for function in call.candidates() {
        if has_exit(model, done, *function) {
            return true;
        }
    }
    false
}

// The call edge with this site.
fn call_at(model: &Model, site: u32) -> &CallEdge
    requires { (c : Call) × Contains model.now.calls c × (c.site ≡ site) }
    ensures { (c : Call) → Contains model.now.calls c → c.site ≡ site → result.now ≡ c }
{
    let _nodes = model.nodes();
    match model.call(site) {
        Some(call) => call,
        None => unreachable!(),
    }
}

// Adds the ends of the calls that leave the node and have a candidate whose exit is in the set.
fn follow_calls(pool: &mut Scratch, done: &NodeSet, model: &Model, node: u32)
    requires pool { pool.old.size ≡ model.now.nodes }
    requires node { node < model.now.nodes }
    ensures { Adds pool.old pool.new (PassesTo model.now done.now node) }
{
    let _nodes = model.nodes();
    for site in model.calls_from(node) {
        let call = call_at(model, *site);
        let passes = may_pass(model, done, call);
        add_where(pool, call.to(), passes);
    }
}

// Adds the ends of the calls that may enter the function and leave a node of the set.
fn return_from(pool: &mut Scratch, done: &NodeSet, model: &Model, function: u32)
    requires pool { pool.old.size ≡ model.now.nodes }
    requires function { function < length model.now.functions }
    ensures { Adds pool.old pool.new (ReturnsTo model.now done.now function) }
{
    let _nodes = model.nodes();
    for site in model.returns_of(function) {
        let call = call_at(model, *site);
        let passes = done.contains(call.from());
        add_where(pool, call.to(), passes);
    }
}

// Where the node is the exit of a function, adds the ends of the calls that may enter it and leave a node of the set.
fn follow_returns(pool: &mut Scratch, done: &NodeSet, model: &Model, node: u32)
    requires { pool.old.size ≡ model.now.nodes }
    ensures { Adds pool.old pool.new (LeavesTo model.now done.now node) }
{
    if let Some(function) = model.function_that_ends_at(node) {
        return_from(pool, done, model, function);
    }
}

// Adds the nodes to which the node leads, with those of the set.
fn visit(pool: &mut Scratch, done: &NodeSet, model: &Model, node: u32)
    requires pool { pool.old.size ≡ model.now.nodes }
    requires node { node < model.now.nodes }
    ensures { Adds pool.old pool.new (LeadsTo model.now done.now node) }
{
    follow_silent(pool, model, node);
    follow_sys(pool, model, node);
    follow_calls(pool, done, model, node);
    follow_returns(pool, done, model, node);
}

// Adds the entries of all functions.
fn add_entries(pool: &mut Scratch, model: &Model)
    requires fresh { pool.old.nodes ≡ [] }
    requires pool { pool.old.size ≡ model.now.nodes }
    ensures { (set : Nodes) → set.size ≡ model.now.nodes → set.members ≡ empty → IsSaturating model.now pool.new set 0 }
{
    let _nodes = model.nodes();
    for one in model.functions() {
        pool.add(one.entry);
    }
}

/// The nodes that are within their functions.
pub fn nodes_within(alloc: Global, model: &Model) -> Result<NodeSet, OutOfMemory>
    ensures { IfOk result (λ set. (a : ℕ) → Has set a ↔ IsWithin model.now a) }
{
    let mut pool = Scratch::new(alloc, model)?;
    let mut done = NodeSet::new(alloc, model.nodes())?;
    add_entries(&mut pool, model);
    let mut i = 0;
    while let Some(node) = pool.get(i) {
        done.insert(node);
        visit(&mut pool, &done, model, node);
        i += 1;
    }
    Ok(done)
}
