ghost use Rattle.std.specs.Prelude.{◌≡◌, ◌+◌, ◌↔◌, ℕ, Contains, IsTrue, IfSome, Some};
ghost use Rattle.dm_base.specs.Fits.{Fits};
ghost use Rattle.flow_model.specs.Graph.{HasSilent};
ghost use Rattle.certify_facts.specs.declared.fact.Fact.{Fact as Fact'};
ghost use Rattle.certify_facts.specs.Reasons.{IsCall, IsEntry, IsExit, IsReturn, IsStart, IsSilent, IsEntered, IsReturned, IsReturnedAlong, IsRead, IsLinked, Leads, LeadsAt};
ghost use Rattle.dm_base.specs.Adding.{Has};
ghost use Rattle.certify_steps.specs.Reading.{BeginsAt};
ghost use Rattle.certify_steps.specs.Ending.{IsAtExit};

use crate::reading::{begins_at, call_at, ending_at, ends_at, silent_from, sys_from};
use certify_facts::Fact;
use dm_base::{Event, fits};
use flow_model::{CallEdge, Model, ModelFunction, SilentEdge, SysEdge};

// Whether one of the edges ends at the node.
fn does_one_end_at(edges: &[SilentEdge], node: u32) -> bool
    ensures { IsTrue result ↔ Has (λ e. e.to ≡ node) edges.now }
{
    for edge in edges {
        if edge.to == node {
            return true;
        }
    }
    false
}

// Whether the event is read along the edge to the node.
fn is_read_to(edge: &SysEdge, event: &Event, node: u32) -> bool
    ensures { IsTrue result ↔ ((edge.now.to ≡ node) × Fits edge.now.name edge.now.args event.now) }
{
    edge.to == node && fits(edge.name, &edge.args, event)
}

// Whether the event is read along one of the edges to the node.
fn is_one_read_to(edges: &[SysEdge], event: &Event, node: u32) -> bool
    ensures { IsTrue result ↔ Has (λ e. (e.to ≡ node) × Fits e.name e.args event.now) edges.now }
{
    for edge in edges {
        if is_read_to(edge, event, node) {
            return true;
        }
    }
    false
}

// Whether a silent edge leads from the one node to the other.
fn has_silent(model: &Model, from: u32, to: u32) -> bool
    ensures { IsTrue result ↔ HasSilent model.now from to }
{
    does_one_end_at(silent_from(model, from), to)
}

// Whether the event leads from the one node to the other.
fn leads(model: &Model, event: &Event, from: u32, to: u32) -> bool
    ensures { IsTrue result ↔ Leads model.now event.now from to }
{
    match event {
        Event::Sys { .. } => is_one_read_to(sys_from(model, from), event, to),
        Event::Pre(_) => from == to,
        Event::Post(_) => from == to,
    }
}

// Whether the event after the first k ones leads from the one node to the other.
fn leads_at(model: &Model, trace: &[Event], k: u32, from: u32, to: u32) -> bool
    ensures { IsTrue result ↔ LeadsAt model.now trace.now k from to }
{
    match trace.get(k as usize) {
        Some(event) => leads(model, event, from, to),
        None => false,
    }
}

// Whether the call leaves the node and may enter the function.
fn calls_from(call: &CallEdge, node: u32, function: u32) -> bool
    ensures { IsTrue result ↔ ((call.now.from ≡ node) × Contains call.now.candidates function) }
{
    call.from() == node && call.candidates().contains(&function)
}

// Whether the call ends at the node and may enter the function.
fn calls_to(call: &CallEdge, node: u32, function: u32) -> bool
    ensures { IsTrue result ↔ ((call.now.to ≡ node) × Contains call.now.candidates function) }
{
    call.to() == node && call.candidates().contains(&function)
}

// Whether the call edge with the site leaves the node and may enter the function.
fn is_call(model: &Model, node: u32, site: u32, function: u32) -> bool
    ensures { IsTrue result ↔ IsCall model.now node site function }
{
    match call_at(model, site) {
        Some(call) => calls_from(call, node, function),
        None => false,
    }
}

// Whether the call edge with the site ends at the node and may enter the function.
fn is_return(model: &Model, function: u32, site: u32, node: u32) -> bool
    ensures { IsTrue result ↔ IsReturn model.now function site node }
{
    match call_at(model, site) {
        Some(call) => calls_to(call, node, function),
        None => false,
    }
}

// Whether the function begins at the node.
fn is_entry(model: &Model, function: u32, node: u32) -> bool
    ensures { IsTrue result ↔ IsEntry model.now function node }
{
    begins_at(model.functions(), function, node)
}

// Whether the function ends at the node.
fn is_exit(model: &Model, function: u32, node: u32) -> bool
    ensures { IsTrue result ↔ IsExit model.now function node }
{
    ends_at(model.functions(), function, node)
}

/// Whether a run begins with the fact.
pub fn is_start(model: &Model, fact: Fact) -> bool
    ensures { IsTrue result ↔ IsStart model.now fact }
{
    match fact {
        Fact::Callgraph { k, v } => k == 0 && is_entry(model, model.start(), v),
        Fact::At { k, i, f, v } => k == 0 && i == 0 && f == model.start() && is_entry(model, f, v),
        Fact::Link { .. } => false,
    }
}

/// Whether from the fact x follows the fact y along a silent edge.
pub fn is_silent(model: &Model, x: Fact, y: Fact) -> bool
    ensures { IsTrue result ↔ IsSilent model.now x y }
{
    match (x, y) {
        (Fact::Callgraph { k, v: from }, Fact::Callgraph { k: events, v: to }) => {
            events == k && has_silent(model, from, to)
        }
        (
            Fact::At { k, i, f, v: from },
            Fact::At {
                k: events,
                i: entered,
                f: function,
                v: to,
            },
        ) => events == k && entered == i && function == f && has_silent(model, from, to),
        _ => false,
    }
}

/// Whether from the fact x follows the fact y by a call at the site of a function that is entered.
pub fn is_entered(model: &Model, site: u32, x: Fact, y: Fact) -> bool
    ensures { IsTrue result ↔ IsEntered model.now site x y }
{
    match (x, y) {
        (Fact::Callgraph { k, v: from }, Fact::Callgraph { k: events, v: to }) => {
            events == k && does_call_lead(model, from, site, to)
        }
        (
            Fact::At { k, v: from, .. },
            Fact::At {
                k: events,
                i: entered,
                f: function,
                v: to,
            },
        ) => {
            events == k
                && entered == k
                && is_call(model, from, site, function)
                && is_entry(model, function, to)
        }
        _ => false,
    }
}

/// Whether from the fact x follows the fact y by the return of a function that the call at the site
/// may have entered.
pub fn is_returned(model: &Model, site: u32, x: Fact, y: Fact) -> bool
    ensures { IsTrue result ↔ IsReturned model.now site x y }
{
    match (x, y) {
        (Fact::Callgraph { k, v: from }, Fact::Callgraph { k: events, v: to }) => {
            events == k && does_return_lead(model, from, site, to)
        }
        _ => false,
    }
}

/// Whether from the fact x follows the fact y by the next event.
pub fn is_read(model: &Model, trace: &[Event], x: Fact, y: Fact) -> bool
    ensures { IsTrue result ↔ IsRead model.now trace.now x y }
{
    match (x, y) {
        (Fact::Callgraph { k, v: from }, Fact::Callgraph { k: events, v: to }) => {
            is_next(k, events) && leads_at(model, trace, k, from, to)
        }
        (
            Fact::At { k, i, f, v: from },
            Fact::At {
                k: events,
                i: entered,
                f: function,
                v: to,
            },
        ) => {
            is_next(k, events)
                && entered == i
                && function == f
                && leads_at(model, trace, k, from, to)
        }
        _ => false,
    }
}

/// Whether from the fact x follows the link y by a call.
pub fn is_linked(model: &Model, x: Fact, y: Fact) -> bool
    ensures { IsTrue result ↔ IsLinked model.now x y }
{
    match (x, y) {
        (
            Fact::At { k, i, f, v: from },
            Fact::Link {
                i: entered,
                f: function,
                j,
                g,
                s,
            },
        ) => entered == k && j == i && g == f && is_call(model, from, s, function),
        _ => false,
    }
}

/// The fact that follows from the fact x and the link z, where x is at the exit of the activation that
/// the link tells of, or None where none follows.
pub fn returned_along(model: &Model, x: Fact, z: Fact) -> Option<Fact>
    ensures some { IfSome result (λ y. IsReturnedAlong model.now x z y) }
    ensures only { (y : Fact') → IsReturnedAlong model.now x z y → result ≡ Some y }
{
    match (x, z) {
        (
            Fact::At { k, i, f, v },
            Fact::Link {
                i: entered,
                f: function,
                j,
                g,
                s,
            },
        ) => {
            if entered != i || function != f || !is_exit(model, f, v) {
                return None;
            }
            match end_of_call(model, s, f) {
                Some(to) => Some(Fact::At {
                    k,
                    i: j,
                    f: g,
                    v: to,
                }),
                None => None,
            }
        }
        _ => None,
    }
}

// Whether the second number is one more than the first.
fn is_next(k: u32, events: u32) -> bool
    ensures { IsTrue result ↔ (events ≡ k + 1) }
{
    k < events && events - k == 1
}

// Whether the call at the site leaves the one node and may enter a function that begins at the other.
fn does_call_lead(model: &Model, from: u32, site: u32, to: u32) -> bool
    ensures { IsTrue result ↔ ((f : ℕ) × IsCall model.now from site f × IsEntry model.now f to) }
{
    match call_at(model, site) {
        Some(call) => enters_at(model.functions(), call, from, to),
        None => false,
    }
}

// Whether the call leaves the one node and may enter a function that begins at the other.
fn enters_at(functions: &[ModelFunction], call: &CallEdge, from: u32, to: u32) -> bool
    ensures { IsTrue result ↔ ((call.now.from ≡ from) × Has (λ f. BeginsAt functions.now f to) call.now.candidates) }
{
    call.from() == from && does_one_begin_at(functions, call.candidates(), to)
}

// Whether one of the functions begins at the node.
fn does_one_begin_at(functions: &[ModelFunction], candidates: &[u32], node: u32) -> bool
    ensures { IsTrue result ↔ Has (λ f. BeginsAt functions.now f node) candidates.now }
{
    for function in candidates {
        if begins_at(functions, *function, node) {
            return true;
        }
    }
    false
}

// Whether the one node is the exit of a function that the call at the site may enter, and the call ends
// at the other.
fn does_return_lead(model: &Model, from: u32, site: u32, to: u32) -> bool
    ensures { IsTrue result ↔ ((f : ℕ) × IsExit model.now f from × IsReturn model.now f site to) }
{
    match ending_at(model, from) {
        Some(function) => is_return(model, function, site, to),
        None => false,
    }
}

// Where the call at the site ends, if it may enter the function.
fn end_of_call(model: &Model, site: u32, function: u32) -> Option<u32>
    ensures some { IfSome result (λ v. IsReturn model.now function site v) }
    ensures only { (v : ℕ) → IsReturn model.now function site v → result ≡ Some v }
{
    match call_at(model, site) {
        Some(call) => {
            if has_candidate(call, function) {
                Some(call.to())
            } else {
                None
            }
        }
        None => None,
    }
}

// Whether the call may enter the function.
fn has_candidate(call: &CallEdge, function: u32) -> bool
    ensures { IsTrue result ↔ Contains call.now.candidates function }
{
    call.candidates().contains(&function)
}

// Whether the event is read along one of the edges.
fn is_one_read(edges: &[SysEdge], event: &Event) -> bool
    ensures { IsTrue result ↔ Has (λ e. Fits e.name e.args event.now) edges.now }
{
    for edge in edges {
        if fits(edge.name, &edge.args, event) {
            return true;
        }
    }
    false
}

// Whether the event leads on from the node.
fn leads_on(model: &Model, event: &Event, node: u32) -> bool
    ensures { IsTrue result ↔ ((v : ℕ) × Leads model.now event.now node v) }
{
    match event {
        Event::Sys { .. } => is_one_read(sys_from(model, node), event),
        Event::Pre(_) => true,
        Event::Post(_) => true,
    }
}

// Whether the event after the first k ones leads on from the node.
fn leads_on_at(model: &Model, trace: &[Event], k: u32, node: u32) -> bool
    ensures { IsTrue result ↔ ((v : ℕ) × LeadsAt model.now trace.now k node v) }
{
    match trace.get(k as usize) {
        Some(event) => leads_on(model, event, node),
        None => false,
    }
}

/// Whether a fact follows from the fact by the next event.
pub fn goes_on(model: &Model, trace: &[Event], fact: Fact) -> bool
    ensures { IsTrue result ↔ ((y : Fact') × IsRead model.now trace.now fact y) }
{
    match fact {
        Fact::Callgraph { k, v } => leads_on_at(model, trace, k, v),
        Fact::At { k, v, .. } => leads_on_at(model, trace, k, v),
        Fact::Link { .. } => false,
    }
}

/// Whether the fact is at the exit of the function of its activation.
pub fn ends_activation(model: &Model, fact: Fact) -> bool
    ensures { IsTrue result ↔ IsAtExit model.now fact }
{
    match fact {
        Fact::Callgraph { .. } => false,
        Fact::At { f, v, .. } => is_exit(model, f, v),
        Fact::Link { .. } => false,
    }
}
