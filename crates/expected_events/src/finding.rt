ghost use Rattle.std.specs.Prelude.{◌≡◌, ◌<◌, ◌↔◌, ℕ, All, Contains, Some, length, IsTrue, IfOk, OnOk};
ghost use Rattle.std.specs.Ordering.{nat_cmp};
ghost use Rattle.flow_model.specs.Graph.{end_of};
ghost use Rattle.flow_model.specs.Order.{StrictlyRise, site_order};
ghost use Rattle.dm_base.specs.Adding.{Adds, Has as HasOne};
ghost use Rattle.expected_events.specs.declared.called.Called.{Called as Called'};
ghost use Rattle.expected_events.specs.Marked.{OwnsOne, IsCalledBy, IsOpenedBy, EndsAtOne, IsClosedAt};
ghost use Rattle.expected_events.specs.Next.{called_order};

use crate::called::{Called, calls_at};
use dm_base::OutOfMemory;
use dm_sets::NodeSet;
use flow_model::{CallEdge, Model, ModelFunction};
use std::alloc::Global;

/// What may come next: functions by their places in the model, system calls with patterns, sites that
/// may be opened, and the site that may be closed.
#[derive(Drop)]
pub struct Found {
    pub functions: Vec<usize>,
    pub calls: Vec<Called>,
    pub opened: Vec<u32>,
    pub closed: Option<u32>,
}

// The first node past those of the function.
fn past_of(functions: &[ModelFunction], nodes: u32, function: usize) -> u32
    requires { function < length functions.now }
    ensures { result ≡ end_of functions.now nodes function }
{
    match functions.get(function + 1) {
        Some(next) => next.entry,
        None => nodes,
    }
}

// Whether the function owns a node of the set.
fn owns_one(model: &Model, at: &NodeSet, function: usize) -> bool
    requires { function < length model.now.functions }
    ensures { IsTrue result ↔ OwnsOne model.now at.now function }
{
    let functions = model.functions();
    let past = past_of(functions, model.nodes(), function);
    match at.next(functions[function].entry) {
        Some(node) => node < past,
        None => false,
    }
}

// Adds the function where it owns a node of the set.
fn push_function(
    functions: &mut Vec<usize>,
    model: &Model,
    at: &NodeSet,
    function: usize,
) -> Result<(), OutOfMemory>
    requires { function < length model.now.functions }
    ensures added { OnOk result (Adds functions.old.items functions.new.items (λ f. (f ≡ function) × OwnsOne model.now at.now f)) }
    ensures rise { OnOk result (All (λ f. f < function) functions.old.items → StrictlyRise nat_cmp functions.old.items → StrictlyRise nat_cmp functions.new.items) }
{
    if !owns_one(model, at, function) {
        return Ok(());
    }
    functions.push(function)?;
    Ok(())
}

// The functions that own a node of the set, in their order.
fn functions_at(alloc: Global, model: &Model, at: &NodeSet) -> Result<Vec<usize>, OutOfMemory>
    ensures exact { IfOk result (λ functions. (f : ℕ) → Contains functions.items f ↔ OwnsOne model.now at.now f) }
    ensures rise { IfOk result (λ functions. StrictlyRise nat_cmp functions.items) }
{
    let count = model.functions().len();
    let mut functions = Vec::new(alloc);
    for function in 0..count {
        push_function(&mut functions, model, at, function)?;
    }
    Ok(functions)
}

// Whether the call may enter a function.
fn has_candidate(call: &CallEdge) -> bool
    ensures { IsTrue result ↔ ((f : ℕ) × Contains call.now.candidates f) }
{
    !call.candidates().is_empty()
}

// Adds the site of the call where it leaves a node of the set and has a candidate.
fn push_opened(sites: &mut Vec<u32>, at: &NodeSet, call: &CallEdge) -> Result<(), OutOfMemory>
    ensures added { OnOk result (Adds sites.old.items sites.new.items (λ s. IsOpenedBy at.now s call.now)) }
    ensures rise { OnOk result (All (λ s. s < call.now.site) sites.old.items → StrictlyRise nat_cmp sites.old.items → StrictlyRise nat_cmp sites.new.items) }
{
    if !has_candidate(call) {
        return Ok(());
    }
    if !at.contains(call.from()) {
        return Ok(());
    }
    sites.push(call.site())?;
    Ok(())
}

// The sites of the call edges that leave a node of the set and have a candidate, in their order.
fn opened_at(alloc: Global, calls: &[CallEdge], at: &NodeSet) -> Result<Vec<u32>, OutOfMemory>
    requires { StrictlyRise site_order calls.now }
    ensures exact { IfOk result (λ sites. (s : ℕ) → Contains sites.items s ↔ HasOne (IsOpenedBy at.now s) calls.now) }
    ensures rise { IfOk result (λ sites. StrictlyRise nat_cmp sites.items) }
{
    let mut sites = Vec::new(alloc);
    for call in calls {
        push_opened(&mut sites, at, call)?;
    }
    Ok(sites)
}

// Whether one of the functions ends at a node of the set.
fn ends_at_one(model: &Model, at: &NodeSet, functions: &[u32]) -> bool
    requires { All (λ f. f < length model.now.functions) functions.now }
    ensures { IsTrue result ↔ EndsAtOne model.now at.now functions.now }
{
    for function in functions {
        let one = &model.functions()[*function as usize];
        if at.contains(one.exit) {
            return true;
        }
    }
    false
}

// The open site, where a candidate of it ends at a node of the set.
fn closed_by(model: &Model, at: &NodeSet, site: u32) -> Option<u32>
    ensures { (s : ℕ) → (result ≡ Some s) ↔ IsClosedAt model.now at.now (Some site) s }
{
    // It tells that candidates are functions.
    let _nodes = model.nodes();
    let Some(call) = model.call(site) else {
        return None;
    };
    if ends_at_one(model, at, call.candidates()) {
        return Some(site);
    }
    None
}

// The site on top, where a candidate of it ends at a node of the set.
fn closed_at(model: &Model, at: &NodeSet, top: Option<u32>) -> Option<u32>
    ensures { (s : ℕ) → (result ≡ Some s) ↔ IsClosedAt model.now at.now top s }
{
    match top {
        Some(site) => closed_by(model, at, site),
        None => None,
    }
}

/// What may come next where a monitor stands at these nodes; `sites` says whether it reads sites, and
/// `top` is the newest open one.
pub fn find(
    alloc: Global,
    model: &Model,
    at: &NodeSet,
    sites: bool,
    top: Option<u32>,
) -> Result<Found, OutOfMemory>
    ensures functions { IfOk result (λ found. (f : ℕ) → Contains found.functions.items f ↔ OwnsOne model.now at.now f) }
    ensures functions_rise { IfOk result (λ found. StrictlyRise nat_cmp found.functions.items) }
    ensures calls { IfOk result (λ found. (c : Called') → Contains found.calls.items c ↔ HasOne (IsCalledBy at.now c) model.now.sys) }
    ensures calls_rise { IfOk result (λ found. StrictlyRise called_order found.calls.items) }
    ensures opened { IfOk result (λ found. (s : ℕ) → Contains found.opened.items s ↔ (IsTrue sites × HasOne (IsOpenedBy at.now s) model.now.calls)) }
    ensures opened_rise { IfOk result (λ found. StrictlyRise nat_cmp found.opened.items) }
    ensures closed { IfOk result (λ found. (s : ℕ) → (found.closed ≡ Some s) ↔ IsClosedAt model.now at.now top s) }
{
    let functions = functions_at(alloc, model, at)?;
    let calls = calls_at(alloc, model, at)?;
    let opened = opened_where(alloc, model, at, sites)?;
    let closed = closed_at(model, at, top);
    Ok(Found {
        functions,
        calls,
        opened,
        closed,
    })
}

// The same sites, none where the monitor does not read them.
fn opened_where(
    alloc: Global,
    model: &Model,
    at: &NodeSet,
    sites: bool,
) -> Result<Vec<u32>, OutOfMemory>
    ensures exact { IfOk result (λ found. (s : ℕ) → Contains found.items s ↔ (IsTrue sites × HasOne (IsOpenedBy at.now s) model.now.calls)) }
    ensures rise { IfOk result (λ found. StrictlyRise nat_cmp found.items) }
{
    // It tells that the sites rise.
    let _nodes = model.nodes();
    if !sites {
        return Ok(Vec::new(alloc));
    }
    let found = opened_at(alloc, model.calls(), at)?;
    Ok(found)
}
