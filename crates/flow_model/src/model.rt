ghost use Rattle.std.specs.Prelude.{◌≡◌, ◌<◌, ℕ, nat_eq, filter, find, length, IfOk, IfSome, Some};
ghost use Rattle.std.specs.Option.{option_copied};
ghost use Rattle.flow_model.specs.Graph.{HasFunction};
ghost use Rattle.flow_model.specs.Groups.{sites_from, sites_of};
ghost use Rattle.flow_model.specs.Rules.{IsValid};

use crate::groups::{silent_starts, sites_by_function, sites_by_node, sys_starts};
use crate::rules::function_ending_at;
use crate::{CallEdge, ModelFunction, SilentEdge, SysEdge};
use dm_base::OutOfMemory;
use std::alloc::Global;

/// A valid model, seen as the number of its nodes, its start function and its four lists: the
/// functions, and in increasing order the silent edges, the system-call edges and the call edges.
/// What the accessors give is found in a time that does not grow with the model, but for `call` and
/// `function_that_ends_at`, which take a binary search. None takes memory.
pub struct Model {
    node_count: u32,
    start_function: u32,
    functions: Vec<ModelFunction>,
    silent: Vec<SilentEdge>,
    silent_starts: Vec<usize>,
    sys: Vec<SysEdge>,
    sys_starts: Vec<usize>,
    calls: Vec<CallEdge>,
    call_sites: Vec<u32>,
    call_starts: Vec<usize>,
    return_sites: Vec<u32>,
    return_starts: Vec<usize>,
}

impl Drop for Model {
    fn drop(self) {
        let Self {
            node_count: _node_count,
            start_function: _start_function,
            functions: _functions,
            silent: _silent,
            silent_starts: _silent_starts,
            sys: _sys,
            sys_starts: _sys_starts,
            calls: _calls,
            call_sites: _call_sites,
            call_starts: _call_starts,
            return_sites: _return_sites,
            return_starts: _return_starts,
        } = self;
    }
}

impl std::marker::Model for Model {
    ghost use Rattle.flow_model.specs.Graph.{Graph};

    ghost Value = { Graph };

    ghost use Rattle.flow_model.specs.Inside.{graph_of, IsIndexed};

    ghost view = { graph_of };

    ghost invariant = { IsIndexed };
}

impl Model {
    // The model of valid records.
    pub(crate) fn indexed(
        alloc: Global,
        nodes: u32,
        start: u32,
        functions: Vec<ModelFunction>,
        silent: Vec<SilentEdge>,
        sys: Vec<SysEdge>,
        calls: Vec<CallEdge>,
    ) -> Result<Model, OutOfMemory>
        requires { IsValid (record { nodes = nodes; start = start; functions = functions.items; silent = silent.items; sys = sys.items; calls = calls.items }) }
        ensures { IfOk result (λ m. m ≡ record { nodes = nodes; start = start; functions = functions.items; silent = silent.items; sys = sys.items; calls = calls.items }) }
    {
        let silent_places = silent_starts(alloc, &silent, nodes)?;
        let sys_places = sys_starts(alloc, &sys, nodes)?;
        let leaving = sites_by_node(alloc, &calls, nodes)?;
        let returning = sites_by_function(alloc, &calls, functions.len() as u32)?;
        Ok(Model {
            node_count: nodes,
            start_function: start,
            functions,
            silent,
            silent_starts: silent_places,
            sys,
            sys_starts: sys_places,
            calls,
            call_sites: leaving.sites,
            call_starts: leaving.starts,
            return_sites: returning.sites,
            return_starts: returning.starts,
        })
    }

    /// How many nodes there are, 1 to 200,000. Nodes are the numbers below.
    pub fn nodes(&self) -> u32
        ensures nodes { result ≡ self.now.nodes }
        ensures valid { IsValid self.now }
    {
        self.node_count
    }

    /// The function that a run enters, by its place among the functions.
    pub fn start(&self) -> u32
        ensures start { result ≡ self.now.start }
        ensures known { result < length self.now.functions }
    {
        self.start_function
    }

    /// The functions, each with the nodes from its entry up to the next one's.
    pub fn functions(&self) -> &[ModelFunction]
        ensures { result.now ≡ self.now.functions }
    {
        &self.functions
    }

    /// The silent edges in increasing order.
    pub fn silent(&self) -> &[SilentEdge]
        ensures { result.now ≡ self.now.silent }
    {
        &self.silent
    }

    /// The system-call edges in increasing order.
    pub fn sys(&self) -> &[SysEdge]
        ensures { result.now ≡ self.now.sys }
    {
        &self.sys
    }

    /// The call edges in the order of their sites.
    pub fn calls(&self) -> &[CallEdge]
        ensures { result.now ≡ self.now.calls }
    {
        &self.calls
    }

    /// The silent edges that leave the node, in increasing order.
    pub fn silent_from(&self, node: u32) -> &[SilentEdge]
        requires { node < self.now.nodes }
        ensures { result.now ≡ filter (λ e. nat_eq e.from node) self.now.silent }
    {
        let from = self.silent_starts[node as usize];
        let to = self.silent_starts[node as usize + 1];
        &self.silent[from..to]
    }

    /// The system-call edges that leave the node, in increasing order.
    pub fn sys_from(&self, node: u32) -> &[SysEdge]
        requires { node < self.now.nodes }
        ensures { result.now ≡ filter (λ e. nat_eq e.from node) self.now.sys }
    {
        let from = self.sys_starts[node as usize];
        let to = self.sys_starts[node as usize + 1];
        &self.sys[from..to]
    }

    /// The increasing sites of the call edges that leave the node.
    pub fn calls_from(&self, node: u32) -> &[u32]
        requires { node < self.now.nodes }
        ensures { result.now ≡ sites_from self.now node }
    {
        let from = self.call_starts[node as usize];
        let to = self.call_starts[node as usize + 1];
        &self.call_sites[from..to]
    }

    /// The increasing sites of the call edges that may enter the function.
    pub fn returns_of(&self, function: u32) -> &[u32]
        requires { function < length self.now.functions }
        ensures { result.now ≡ sites_of self.now function }
    {
        let from = self.return_starts[function as usize];
        let to = self.return_starts[function as usize + 1];
        &self.return_sites[from..to]
    }

    /// The call edge with this site, or None exactly where there is none.
    pub fn call(&self, site: u32) -> Option<&CallEdge>
        ensures { option_copied result ≡ find (λ c. nat_eq c.site site) self.now.calls }
    {
        let place = self.calls.binary_search_by_key(&site, |c| c.site()).ok()?;
        Some(&self.calls[place])
    }

    /// The function whose exit the node is, by its place among the functions, or None exactly where
    /// there is none. No two functions of a valid model have one exit.
    pub fn function_that_ends_at(&self, node: u32) -> Option<u32>
        ensures some { IfSome result (λ f. (entry : ℕ) × HasFunction self.now f entry node) }
        ensures known { IfSome result (λ f. f < length self.now.functions) }
        ensures only { (f entry : ℕ) → HasFunction self.now f entry node → result ≡ Some f }
    {
        function_ending_at(&self.functions, self.node_count, node)
    }

    /// An equal model, in memory of the allocator that this one keeps.
    pub fn copy(&self) -> Result<Model, OutOfMemory>
        ensures { IfOk result (λ copied. copied ≡ self.now) }
    {
        let alloc = *self.functions.allocator();
        let functions = copy_functions(alloc, &self.functions)?;
        let calls = copy_calls(alloc, &self.calls)?;
        Ok(Model {
            node_count: self.node_count,
            start_function: self.start_function,
            functions,
            silent: self.silent.as_slice().to_vec(alloc)?,
            silent_starts: self.silent_starts.as_slice().to_vec(alloc)?,
            sys: self.sys.as_slice().to_vec(alloc)?,
            sys_starts: self.sys_starts.as_slice().to_vec(alloc)?,
            calls,
            call_sites: self.call_sites.as_slice().to_vec(alloc)?,
            call_starts: self.call_starts.as_slice().to_vec(alloc)?,
            return_sites: self.return_sites.as_slice().to_vec(alloc)?,
            return_starts: self.return_starts.as_slice().to_vec(alloc)?,
        })
    }
}

// Equal functions.
fn copy_functions(
    alloc: Global,
    functions: &[ModelFunction],
) -> Result<Vec<ModelFunction>, OutOfMemory>
    ensures { IfOk result (λ copied. copied.items ≡ functions.now) }
{
    let mut copied = Vec::new(alloc);
    for one in functions {
        copied.push(one.copy(alloc)?)?;
    }
    Ok(copied)
}

// Equal call edges.
fn copy_calls(alloc: Global, calls: &[CallEdge]) -> Result<Vec<CallEdge>, OutOfMemory>
    ensures { IfOk result (λ copied. copied.items ≡ calls.now) }
{
    let mut copied = Vec::new(alloc);
    for call in calls {
        copied.push(call.copy()?)?;
    }
    Ok(copied)
}
