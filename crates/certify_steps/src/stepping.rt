ghost use Rattle.std.specs.Prelude.{◌≡◌, ◌↔◌, ℕ, IsTrue, OnOk, Some};
ghost use Rattle.dm_base.specs.Fits.{Fits};
ghost use Rattle.certify_facts.specs.declared.fact.Fact.{Fact as Fact'};
ghost use Rattle.certify_facts.specs.declared.fact.Reason.TheVariants.{Silent as Silent', Enter as Enter', Return as Return', Event as Event', Link as Link'};
ghost use Rattle.certify_facts.specs.Confirms.{IsWithin};
ghost use Rattle.certify_facts.specs.Reasons.{IsSilent, IsReturned, IsRead, LeadsAt, Leads};
ghost use Rattle.dm_base.specs.Adding.{Has};
ghost use Rattle.certify_steps.specs.Adding.{Adds};
ghost use Rattle.certify_steps.specs.Reading.{BeginsAt};
ghost use Rattle.certify_steps.specs.Stepping.{Gives, moved, node_of, entered_at, link_to, line_of, IsCalledBy, IsCallLine, IsOfCall, IsOfReturn};

use crate::reading::{call_at, ending_at, silent_from, sites_from, sites_into, sys_from};
use certify_facts::{Fact, FactLine, Reason};
use dm_base::{Event, OutOfMemory, fits};
use flow_model::{Model, ModelFunction, SilentEdge, SysEdge};

// Adds the fact with its reason.
fn add(found: &mut Vec<FactLine>, fact: Fact, reason: Reason) -> Result<(), OutOfMemory>
    ensures { OnOk result (Adds found.old.items found.new.items (λ l. l ≡ line_of fact reason)) }
{
    found.push(FactLine { fact, reason })?;
    Ok(())
}

// The fact at another node.
fn moved(fact: Fact, node: u32) -> Fact
    ensures { result ≡ moved fact node }
{
    match fact {
        Fact::Callgraph { k, .. } => Fact::Callgraph { k, v: node },
        Fact::At { k, i, f, .. } => Fact::At { k, i, f, v: node },
        Fact::Link { i, f, j, g, s } => Fact::Link { i, f, j, g, s },
    }
}

// The fact that the function was entered at the node, from the fact.
fn entered_at(fact: Fact, function: u32, node: u32) -> Fact
    ensures { result ≡ entered_at fact function node }
{
    match fact {
        Fact::Callgraph { k, .. } => Fact::Callgraph { k, v: node },
        Fact::At { k, .. } => Fact::At {
            k,
            i: k,
            f: function,
            v: node,
        },
        Fact::Link { i, f, j, g, s } => Fact::Link { i, f, j, g, s },
    }
}

// The link of the call of the function at the site from the fact, where it is of an activation.
fn link_to(fact: Fact, site: u32, function: u32) -> Option<Fact>
    ensures { result ≡ link_to fact site function }
{
    match fact {
        Fact::Callgraph { .. } => None,
        Fact::At { k, i, f, .. } => Some(Fact::Link {
            i: k,
            f: function,
            j: i,
            g: f,
            s: site,
        }),
        Fact::Link { .. } => None,
    }
}

// Adds what each silent edge leads to.
fn follow_each_silent(
    found: &mut Vec<FactLine>,
    edges: &[SilentEdge],
    fact: Fact,
    number: u32,
) -> Result<(), OutOfMemory>
    ensures { OnOk result (Adds found.old.items found.new.items (λ l. Has (λ e. l ≡ line_of (moved fact e.to) (Silent' number)) edges.now)) }
{
    for edge in edges {
        add(found, moved(fact, edge.to), Reason::Silent(number))?;
    }
    Ok(())
}

// Adds the entry of the function that is entered.
fn enter(
    found: &mut Vec<FactLine>,
    functions: &[ModelFunction],
    fact: Fact,
    number: u32,
    site: u32,
    function: u32,
) -> Result<(), OutOfMemory>
    ensures { OnOk result (Adds found.old.items found.new.items (λ l. (v : ℕ) × BeginsAt functions.now function v × (l ≡ line_of (entered_at fact function v) (Enter' number site)))) }
{
    if let Some(one) = functions.get(function as usize) {
        add(
            found,
            entered_at(fact, function, one.entry),
            Reason::Enter(number, site),
        )?;
    }
    Ok(())
}

// Adds the link of the call.
fn link(
    found: &mut Vec<FactLine>,
    fact: Fact,
    number: u32,
    site: u32,
    function: u32,
) -> Result<(), OutOfMemory>
    ensures { OnOk result (Adds found.old.items found.new.items (λ l. (z : Fact') × (link_to fact site function ≡ Some z) × (l ≡ line_of z (Link' number)))) }
{
    if let Some(made) = link_to(fact, site, function) {
        add(found, made, Reason::Link(number))?;
    }
    Ok(())
}

// Makes the call of one function.
fn call_one(
    found: &mut Vec<FactLine>,
    functions: &[ModelFunction],
    fact: Fact,
    number: u32,
    site: u32,
    function: u32,
) -> Result<(), OutOfMemory>
    ensures { OnOk result (Adds found.old.items found.new.items (IsCalledBy functions.now number fact site function)) }
{
    enter(found, functions, fact, number, site, function)?;
    link(found, fact, number, site, function)?;
    Ok(())
}

fn call_each(
    found: &mut Vec<FactLine>,
    functions: &[ModelFunction],
    fact: Fact,
    number: u32,
    site: u32,
    candidates: &[u32],
) -> Result<(), OutOfMemory>
    ensures { OnOk result (Adds found.old.items found.new.items (λ l. Has (λ f. IsCalledBy functions.now number fact site f l) candidates.now)) }
{
    for function in candidates {
        call_one(found, functions, fact, number, site, *function)?;
    }
    Ok(())
}

// Makes the call at the site.
fn call_site(
    found: &mut Vec<FactLine>,
    model: &Model,
    fact: Fact,
    number: u32,
    site: u32,
) -> Result<(), OutOfMemory>
    ensures { OnOk result (Adds found.old.items found.new.items (λ l. Has (λ c. (c.site ≡ site) × IsOfCall model.now.functions number fact c l) model.now.calls)) }
{
    if let Some(call) = call_at(model, site) {
        call_each(
            found,
            model.functions(),
            fact,
            number,
            call.site(),
            call.candidates(),
        )?;
    }
    Ok(())
}

fn call_each_site(
    found: &mut Vec<FactLine>,
    model: &Model,
    fact: Fact,
    number: u32,
    sites: &[u32],
) -> Result<(), OutOfMemory>
    ensures { OnOk result (Adds found.old.items found.new.items (λ l. Has (λ s. Has (λ c. (c.site ≡ s) × IsOfCall model.now.functions number fact c l) model.now.calls) sites.now)) }
{
    for site in sites {
        call_site(found, model, fact, number, *site)?;
    }
    Ok(())
}

// Returns to where the call at the site ends.
fn return_to(
    found: &mut Vec<FactLine>,
    model: &Model,
    fact: Fact,
    number: u32,
    site: u32,
) -> Result<(), OutOfMemory>
    ensures { OnOk result (Adds found.old.items found.new.items (λ l. Has (λ c. (c.site ≡ site) × IsOfReturn number fact c l) model.now.calls)) }
{
    if let Some(call) = call_at(model, site) {
        add(
            found,
            moved(fact, call.to()),
            Reason::Return(number, call.site()),
        )?;
    }
    Ok(())
}

fn return_to_each(
    found: &mut Vec<FactLine>,
    model: &Model,
    fact: Fact,
    number: u32,
    sites: &[u32],
) -> Result<(), OutOfMemory>
    ensures { OnOk result (Adds found.old.items found.new.items (λ l. Has (λ s. Has (λ c. (c.site ≡ s) × IsOfReturn number fact c l) model.now.calls) sites.now)) }
{
    for site in sites {
        return_to(found, model, fact, number, *site)?;
    }
    Ok(())
}

// The node of a fact that has one.
fn node_of(fact: Fact) -> Option<u32>
    ensures { result ≡ node_of fact }
{
    match fact {
        Fact::Callgraph { v, .. } => Some(v),
        Fact::At { v, .. } => Some(v),
        Fact::Link { .. } => None,
    }
}

// Adds what silent edges lead to.
fn follow_silent(
    found: &mut Vec<FactLine>,
    model: &Model,
    fact: Fact,
    number: u32,
) -> Result<(), OutOfMemory>
    ensures { OnOk result (Adds found.old.items found.new.items (λ l. (l.reason ≡ Silent' number) × IsSilent model.now fact l.fact)) }
{
    if let Some(node) = node_of(fact) {
        follow_each_silent(found, silent_from(model, node), fact, number)?;
    }
    Ok(())
}

// Makes the calls that leave the node of the fact.
fn follow_calls(
    found: &mut Vec<FactLine>,
    model: &Model,
    fact: Fact,
    number: u32,
) -> Result<(), OutOfMemory>
    ensures { OnOk result (Adds found.old.items found.new.items (IsCallLine model.now number fact)) }
{
    // It tells that the sites differ.
    let _nodes = model.nodes();
    if let Some(node) = node_of(fact) {
        call_each_site(found, model, fact, number, sites_from(model, node))?;
    }
    Ok(())
}

// Returns from the function that ends at the node, in the callgraph model.
fn follow_returns(
    found: &mut Vec<FactLine>,
    model: &Model,
    fact: Fact,
    number: u32,
) -> Result<(), OutOfMemory>
    ensures { OnOk result (Adds found.old.items found.new.items (λ l. (s : ℕ) × (l.reason ≡ Return' number s) × IsReturned model.now s fact l.fact)) }
{
    // It tells that the sites differ.
    let _nodes = model.nodes();
    if let Fact::Callgraph { v, .. } = fact {
        if let Some(function) = ending_at(model, v) {
            return_to_each(found, model, fact, number, sites_into(model, function))?;
        }
    }
    Ok(())
}

// Adds where the edge leads, if the event is read along it.
fn read_one(
    found: &mut Vec<FactLine>,
    edge: &SysEdge,
    event: &Event,
    next: Fact,
    number: u32,
) -> Result<(), OutOfMemory>
    ensures { OnOk result (Adds found.old.items found.new.items (λ l. Fits edge.now.name edge.now.args event.now × (l ≡ line_of (moved next edge.now.to) (Event' number)))) }
{
    if fits(edge.name, &edge.args, event) {
        add(found, moved(next, edge.to), Reason::Event(number))?;
    }
    Ok(())
}

fn read_each(
    found: &mut Vec<FactLine>,
    edges: &[SysEdge],
    event: &Event,
    next: Fact,
    number: u32,
) -> Result<(), OutOfMemory>
    ensures { OnOk result (Adds found.old.items found.new.items (λ l. Has (λ s. Fits s.name s.args event.now × (l ≡ line_of (moved next s.to) (Event' number))) edges.now)) }
{
    for edge in edges {
        read_one(found, edge, event, next, number)?;
    }
    Ok(())
}

// Adds where the event leads from the node.
fn read_from(
    found: &mut Vec<FactLine>,
    model: &Model,
    event: &Event,
    node: u32,
    next: Fact,
    number: u32,
) -> Result<(), OutOfMemory>
    ensures { OnOk result (Adds found.old.items found.new.items (λ l. (v : ℕ) × Leads model.now event.now node v × (l ≡ line_of (moved next v) (Event' number)))) }
{
    match event {
        Event::Sys { .. } => read_each(found, sys_from(model, node), event, next, number)?,
        Event::Pre(_) => add(found, moved(next, node), Reason::Event(number))?,
        Event::Post(_) => add(found, moved(next, node), Reason::Event(number))?,
    }
    Ok(())
}

// Adds where the event after the first k ones leads from the node.
fn read_at(
    found: &mut Vec<FactLine>,
    model: &Model,
    trace: &[Event],
    k: u32,
    node: u32,
    next: Fact,
    number: u32,
) -> Result<(), OutOfMemory>
    ensures { OnOk result (Adds found.old.items found.new.items (λ l. (v : ℕ) × LeadsAt model.now trace.now k node v × (l ≡ line_of (moved next v) (Event' number)))) }
{
    if let Some(event) = trace.get(k as usize) {
        read_from(found, model, event, node, next, number)?;
    }
    Ok(())
}

// Adds where the next event leads, if it is one of the first ones.
fn follow_event(
    found: &mut Vec<FactLine>,
    model: &Model,
    trace: &[Event],
    last: u32,
    fact: Fact,
    number: u32,
) -> Result<(), OutOfMemory>
    ensures { OnOk result (Adds found.old.items found.new.items (λ l. (l.reason ≡ Event' number) × IsRead model.now trace.now fact l.fact × IsWithin last l.fact)) }
{
    match fact {
        Fact::Callgraph { k, v } => {
            if k < last {
                read_at(
                    found,
                    model,
                    trace,
                    k,
                    v,
                    Fact::Callgraph { k: k + 1, v },
                    number,
                )?;
            }
            Ok(())
        }
        Fact::At { k, i, f, v } => {
            if k < last {
                read_at(
                    found,
                    model,
                    trace,
                    k,
                    v,
                    Fact::At { k: k + 1, i, f, v },
                    number,
                )?;
            }
            Ok(())
        }
        Fact::Link { .. } => Ok(()),
    }
}

/// Whether the fact is about the first events, as many as the number says.
pub fn is_within(last: u32, fact: Fact) -> bool
    ensures { IsTrue result ↔ IsWithin last fact }
{
    match fact {
        Fact::Callgraph { k, .. } => k <= last,
        Fact::At { k, .. } => k <= last,
        Fact::Link { i, .. } => i <= last,
    }
}

/// Adds the facts that follow from the fact alone and are about the first events, as many as `last`
/// says, each with its reason, in which the fact has the number.
pub fn follow(
    found: &mut Vec<FactLine>,
    model: &Model,
    trace: &[Event],
    last: u32,
    fact: Fact,
    number: u32,
) -> Result<(), OutOfMemory>
    ensures { OnOk result (Adds found.old.items found.new.items (Gives model.now trace.now last number fact)) }
{
    if !is_within(last, fact) {
        return Ok(());
    }
    follow_silent(found, model, fact, number)?;
    follow_calls(found, model, fact, number)?;
    follow_returns(found, model, fact, number)?;
    follow_event(found, model, trace, last, fact, number)?;
    Ok(())
}
