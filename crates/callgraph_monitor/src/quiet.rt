ghost use Rattle.std.specs.Prelude.{◌≡◌, ◌+◌, ◌<◌, ◌≤◌, [], length, Contains, IfOk, OnOk, slice_index_or};
ghost use Rattle.flow_model.specs.Call.{Call};
ghost use Rattle.flow_model.specs.Graph.{HasSilent};
ghost use Rattle.flow_model.specs.Groups.{sites_of};
ghost use Rattle.flow_model.specs.Language.{Quiet};
ghost use Rattle.callgraph_monitor.specs.Ahead.{Enters, EntersFrom, ReturnsTo, LeavesTo};
ghost use Rattle.flow_model.specs.Growth.{Pushes};
ghost use Rattle.callgraph_monitor.specs.Space.{AreQuiet};
ghost use Rattle.callgraph_monitor.specs.Visits.{silent_cost, enter_cost, leave_cost, visit_cost};

use dm_base::OutOfMemory;
use flow_model::{CallEdge, Model};
use std::alloc::{AllocError, Global};

/// For each node of a model the nodes to which one step that reads nothing leads from it: along a
/// silent edge, into a candidate of a call that leaves it, or, where it is the exit of a function,
/// behind each call that may enter this function. Seen as the list of these lists.
pub struct QuietEdges {
    starts: Vec<usize>,
    ends: Vec<u32>,
}

impl Drop for QuietEdges {
    fn drop(self) {
        let Self {
            starts: _starts,
            ends: _ends,
        } = self;
    }
}

impl std::marker::Model for QuietEdges {
    ghost use Rattle.std.specs.Prelude.{ℕ, List};
    ghost use Rattle.callgraph_monitor.specs.Laid.{lists_of, AreLaid};

    ghost Value = { List (List ℕ) };

    ghost view = { λ q. lists_of q.starts.items q.ends.items };

    ghost invariant = { λ q. AreLaid q.starts.items q.ends.items };
}

impl QuietEdges {
    /// The lists of the model's nodes, made in one pass over the nodes.
    pub fn new(alloc: Global, model: &Model) -> Result<QuietEdges, OutOfMemory>
        ensures { IfOk result (λ q. AreQuiet model.now q) }
    {
        let mut starts = Vec::with_capacity(alloc, model.nodes() as usize + 1)?;
        let mut ends = Vec::new(alloc);
        starts.push(0)?;
        for node in 0..model.nodes() {
            push_quiet(&mut ends, model, node)?;
            starts.push(ends.len())?;
        }
        Ok(QuietEdges { starts, ends })
    }

    /// The nodes to which one step that reads nothing leads from the node, without a search. One may
    /// stand there more than once.
    pub fn from(&self, node: u32) -> &[u32]
        requires { node < length self.now }
        ensures { result.now ≡ slice_index_or self.now node [] }
    {
        let from = self.starts[node as usize];
        let to = self.starts[node as usize + 1];
        &self.ends[from..to]
    }
}

// Appends the nodes to which a step that reads nothing leads from the node.
fn push_quiet(ends: &mut Vec<u32>, model: &Model, node: u32) -> Result<(), AllocError>
    requires { node < model.now.nodes }
    ensures added { OnOk result (Pushes ends.old.items ends.new.items (Quiet model.now node)) }
    ensures few { OnOk result (length ends.new.items ≤ length ends.old.items + visit_cost model.now node) }
{
    push_silent(ends, model, node)?;
    push_calls(ends, model, node)?;
    push_returns(ends, model, node)
}

// Appends the ends of the silent edges that leave the node.
fn push_silent(ends: &mut Vec<u32>, model: &Model, node: u32) -> Result<(), AllocError>
    requires { node < model.now.nodes }
    ensures added { OnOk result (Pushes ends.old.items ends.new.items (HasSilent model.now node)) }
    ensures few { OnOk result (length ends.new.items ≡ length ends.old.items + silent_cost model.now node) }
{
    for edge in model.silent_from(node) {
        ends.push(edge.to)?;
    }
    Ok(())
}

// Appends the entries of the functions that the calls which leave the node may enter.
fn push_calls(ends: &mut Vec<u32>, model: &Model, node: u32) -> Result<(), AllocError>
    requires { node < model.now.nodes }
    ensures added { OnOk result (Pushes ends.old.items ends.new.items (EntersFrom model.now node)) }
    ensures few { OnOk result (length ends.new.items ≤ length ends.old.items + enter_cost model.now node) }
{
    for site in model.calls_from(node) {
        push_entries(ends, model, call_at(model, *site))?;
    }
    Ok(())
}

// Appends the entries of the functions that the call may enter.
fn push_entries(ends: &mut Vec<u32>, model: &Model, call: &CallEdge) -> Result<(), AllocError>
    requires { Contains model.now.calls call.now }
    ensures added { OnOk result (Pushes ends.old.items ends.new.items (Enters model.now call.now)) }
    ensures few { OnOk result (length ends.new.items ≡ length ends.old.items + length call.now.candidates) }
{
    let _nodes = model.nodes();
    let functions = model.functions();
    for function in call.candidates() {
        ends.push(functions[*function as usize].entry)?;
    }
    Ok(())
}

// Where the node is the exit of a function, appends the nodes after all calls that may enter it.
fn push_returns(ends: &mut Vec<u32>, model: &Model, node: u32) -> Result<(), AllocError>
    ensures added { OnOk result (Pushes ends.old.items ends.new.items (LeavesTo model.now node)) }
    ensures few { OnOk result (length ends.new.items ≤ length ends.old.items + leave_cost model.now node) }
{
    match model.function_that_ends_at(node) {
        Some(function) => push_callers(ends, model, function),
        None => Ok(()),
    }
}

// Appends the nodes after the calls that may enter the function.
fn push_callers(ends: &mut Vec<u32>, model: &Model, function: u32) -> Result<(), AllocError>
    requires { function < length model.now.functions }
    ensures added { OnOk result (Pushes ends.old.items ends.new.items (ReturnsTo model.now function)) }
    ensures few { OnOk result (length ends.new.items ≡ length ends.old.items + length (sites_of model.now function)) }
{
    for site in model.returns_of(function) {
        ends.push(call_at(model, *site).to())?;
    }
    Ok(())
}

// The call edge with this site.
fn call_at(model: &Model, site: u32) -> &CallEdge
    requires { (c : Call) × Contains model.now.calls c × (c.site ≡ site) }
    ensures { (c : Call) → Contains model.now.calls c → c.site ≡ site → result.now ≡ c }
{
    let _nodes = model.nodes();
    match model.call(site) {
        Some(call) => call,
        None => unreachable!(),
    }
}
