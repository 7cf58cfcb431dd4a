ghost use Rattle.std.specs.Prelude.{◌≡◌, ◌⊎◌, ◌↔◌, ℕ, Contains, IsTrue, OnOk, IfSome, IfNone};
ghost use Rattle.slab.specs.Slab.{get};
ghost use Rattle.dm_base.specs.Adding.{Has, Adds, Gains};
ghost use Rattle.stack_automaton.specs.Links.{AddsLinks};
ghost use Rattle.stack_automaton.specs.Following.{IsAlong, IsEntry, IsCalled, IsCallTo, IsLinkOf, EndsAt, IsReturn, IsBack, IsEnd, IsAfterEnd, IsStep};

use crate::fact_set::FactSet;
use crate::links::Links;
use crate::place::{Edge, Fact, Link, Place, State};
use crate::reading::{call_at, ending_at, silent_from, sites_from};
use dm_base::OutOfMemory;
use flow_model::{CallEdge, Model, ModelFunction, SilentEdge};
use slab::Slab;
use std::collections::HashSet;

// Adds the fact where it isn't there.
pub fn add(facts: &mut FactSet, fact: Fact) -> Result<(), OutOfMemory>
    ensures { OnOk result (Adds facts.old.keys facts.new.keys (λ x. x ≡ fact)) }
{
    facts.insert(fact)
}

// Adds the node with what stands below the fact.
fn add_at(facts: &mut FactSet, node: u32, place: Place) -> Result<(), OutOfMemory>
    ensures { OnOk result (Adds facts.old.keys facts.new.keys (λ x. x ≡ record { node = node; place = place })) }
{
    add(facts, Fact { node, place })
}

fn follow_each_silent(
    facts: &mut FactSet,
    edges: &[SilentEdge],
    place: Place,
) -> Result<(), OutOfMemory>
    ensures { OnOk result (Adds facts.old.keys facts.new.keys (λ y. Has (λ e. y ≡ record { node = e.to; place = place }) edges.now)) }
{
    for edge in edges {
        add_at(facts, edge.to, place)?;
    }
    Ok(())
}

// Adds what silent edges lead to.
fn follow_silent(facts: &mut FactSet, model: &Model, fact: Fact) -> Result<(), OutOfMemory>
    ensures { OnOk result (Adds facts.old.keys facts.new.keys (λ y. Has (λ e. IsAlong fact e y) model.now.silent)) }
{
    follow_each_silent(facts, silent_from(model, fact.node), fact.place)
}

// Adds the entry of a function that is entered.
fn enter_one(
    facts: &mut FactSet,
    functions: &[ModelFunction],
    function: u32,
) -> Result<(), OutOfMemory>
    ensures { OnOk result (Adds facts.old.keys facts.new.keys (λ y. IsEntry functions.now y function)) }
{
    match functions.get(function as usize) {
        Some(one) => add_at(facts, one.entry, Place::Entered(function)),
        None => Ok(()),
    }
}

// Whether the exit of the function is reached.
fn has_ended(ended: &HashSet<u32>, function: u32) -> bool
    ensures { IsTrue result ↔ Contains ended.now.keys function }
{
    ended.contains(&function)
}

// Adds what is returned to, where the exit of the function that the call enters is reached.
fn return_one(
    facts: &mut FactSet,
    ended: &HashSet<u32>,
    function: u32,
    to: u32,
    place: Place,
) -> Result<(), OutOfMemory>
    ensures { OnOk result (Adds facts.old.keys facts.new.keys (λ y. Contains ended.now.keys function × (y ≡ record { node = to; place = place }))) }
{
    if has_ended(ended, function) {
        return add_at(facts, to, place);
    }
    Ok(())
}

// Makes the call of one function.
fn call_one(
    facts: &mut FactSet,
    links: &mut Links,
    ended: &HashSet<u32>,
    functions: &[ModelFunction],
    link: Link,
    function: u32,
) -> Result<(), OutOfMemory>
    ensures facts { OnOk result (Adds facts.old.keys facts.new.keys (IsCalled functions.now ended.now.keys link function)) }
    ensures links { OnOk result (AddsLinks links.old links.new (λ f l. (f ≡ function) × (l ≡ link))) }
{
    links.add(function, link)?;
    enter_one(facts, functions, function)?;
    return_one(facts, ended, function, link.to, link.place)
}

fn call_each(
    facts: &mut FactSet,
    links: &mut Links,
    ended: &HashSet<u32>,
    functions: &[ModelFunction],
    link: Link,
    candidates: &[u32],
) -> Result<(), OutOfMemory>
    ensures facts { OnOk result (Adds facts.old.keys facts.new.keys (λ y. Has (λ f. IsCalled functions.now ended.now.keys link f y) candidates.now)) }
    ensures links { OnOk result (AddsLinks links.old links.new (λ f l. Has (λ h. (f ≡ h) × (l ≡ link)) candidates.now)) }
{
    for function in candidates {
        call_one(facts, links, ended, functions, link, *function)?;
    }
    Ok(())
}

// Makes the call at the site.
fn call_site(
    facts: &mut FactSet,
    links: &mut Links,
    ended: &HashSet<u32>,
    model: &Model,
    site: u32,
    place: Place,
) -> Result<(), OutOfMemory>
    ensures facts { OnOk result (Adds facts.old.keys facts.new.keys (λ y. Has (λ c. (c.site ≡ site) × IsCallTo model.now.functions ended.now.keys place c y) model.now.calls)) }
    ensures links { OnOk result (AddsLinks links.old links.new (λ f l. Has (λ c. (c.site ≡ site) × IsLinkOf place f l c) model.now.calls)) }
{
    if let Some(call) = call_at(model, site) {
        let link = Link {
            site: call.site(),
            to: call.to(),
            place,
        };
        call_each(
            facts,
            links,
            ended,
            model.functions(),
            link,
            call.candidates(),
        )?;
    }
    Ok(())
}

fn call_each_site(
    facts: &mut FactSet,
    links: &mut Links,
    ended: &HashSet<u32>,
    model: &Model,
    sites: &[u32],
    place: Place,
) -> Result<(), OutOfMemory>
    ensures facts { OnOk result (Adds facts.old.keys facts.new.keys (λ y. Has (λ s. Has (λ c. (c.site ≡ s) × IsCallTo model.now.functions ended.now.keys place c y) model.now.calls) sites.now)) }
    ensures links { OnOk result (AddsLinks links.old links.new (λ f l. Has (λ s. Has (λ c. (c.site ≡ s) × IsLinkOf place f l c) model.now.calls) sites.now)) }
{
    for site in sites {
        call_site(facts, links, ended, model, *site, place)?;
    }
    Ok(())
}

// Makes the calls that leave the node of the fact: their functions are entered, and where the exit of
// one is reached already, the call is returned to.
fn follow_calls(
    facts: &mut FactSet,
    links: &mut Links,
    ended: &HashSet<u32>,
    model: &Model,
    fact: Fact,
) -> Result<(), OutOfMemory>
    ensures facts { OnOk result (Adds facts.old.keys facts.new.keys (λ y. Has (λ c. (c.from ≡ fact.node) × IsCallTo model.now.functions ended.now.keys fact.place c y) model.now.calls)) }
    ensures links { OnOk result (AddsLinks links.old links.new (λ f l. Has (λ c. (c.from ≡ fact.node) × IsLinkOf fact.place f l c) model.now.calls)) }
{
    // It tells that the sites differ.
    let _nodes = model.nodes();
    call_each_site(
        facts,
        links,
        ended,
        model,
        sites_from(model, fact.node),
        fact.place,
    )
}

// Whether the function ends at the node.
fn is_exit(functions: &[ModelFunction], function: u32, node: u32) -> bool
    ensures { IsTrue result ↔ EndsAt functions.now node function }
{
    match functions.get(function as usize) {
        Some(one) => one.exit == node,
        None => false,
    }
}

// Whether some candidate ends at the node.
fn is_exit_of_one(functions: &[ModelFunction], candidates: &[u32], node: u32) -> bool
    ensures { IsTrue result ↔ Has (EndsAt functions.now node) candidates.now }
{
    for function in candidates {
        if is_exit(functions, *function, node) {
            return true;
        }
    }
    false
}

// Adds what is returned to at the end of a function, along an edge of a state that the pool holds.
fn return_along(
    facts: &mut FactSet,
    model: &Model,
    node: u32,
    edge: Edge,
) -> Result<(), OutOfMemory>
    ensures { OnOk result (Adds facts.old.keys facts.new.keys (λ y. Has (IsReturn model.now.functions node edge y) model.now.calls)) }
{
    if let Some(call) = call_at(model, edge.label) {
        if is_exit_of_one(model.functions(), call.candidates(), node) {
            return add_at(facts, call.to(), Place::Held(edge.to));
        }
    }
    Ok(())
}

fn return_along_each(
    facts: &mut FactSet,
    model: &Model,
    node: u32,
    edges: &[Edge],
) -> Result<(), OutOfMemory>
    ensures { OnOk result (Adds facts.old.keys facts.new.keys (λ y. Has (λ e. Has (IsReturn model.now.functions node e y) model.now.calls) edges.now)) }
{
    for edge in edges {
        return_along(facts, model, node, *edge)?;
    }
    Ok(())
}

// Adds what is returned to along the edges of a state that the pool holds, where a function ends.
fn follow_back(
    facts: &mut FactSet,
    model: &Model,
    states: &Slab<State>,
    fact: Fact,
) -> Result<(), OutOfMemory>
    ensures { OnOk result (Adds facts.old.keys facts.new.keys (IsBack model.now (get states.now) fact)) }
{
    let Some(_function) = ending_at(model, fact.node) else {
        return Ok(());
    };
    if let Place::Held(key) = fact.place {
        if let Some(state) = states.get(key) {
            return return_along_each(facts, model, fact.node, state.edges());
        }
    }
    Ok(())
}

// The function that was entered at this event and ends with this fact.
fn ending(functions: &[ModelFunction], fact: Fact) -> Option<u32>
    ensures some { IfSome result (λ f. IsEnd functions.now f fact) }
    ensures none { IfNone result ((f : ℕ) → IsEnd functions.now f fact → ⊥) }
{
    if let Place::Entered(function) = fact.place {
        if is_exit(functions, function, fact.node) {
            return Some(function);
        }
    }
    None
}

fn return_to_each(facts: &mut FactSet, links: &[Link]) -> Result<(), OutOfMemory>
    ensures { OnOk result (Adds facts.old.keys facts.new.keys (λ y. Has (λ l. y ≡ record { node = l.to; place = l.place }) links.now)) }
{
    for link in links {
        add_at(facts, link.to, link.place)?;
    }
    Ok(())
}

// Notes the function that ends with this fact.
fn note_end(
    ended: &mut HashSet<u32>,
    functions: &[ModelFunction],
    fact: Fact,
) -> Result<(), OutOfMemory>
    ensures { OnOk result (Gains (Contains ended.old.keys) (Contains ended.new.keys) (λ f. IsEnd functions.now f fact)) }
{
    if let Some(function) = ending(functions, fact) {
        ended.insert(function)?;
    }
    Ok(())
}

// Adds what is returned to by the calls that enter the function that ends with this fact.
fn follow_end(
    facts: &mut FactSet,
    links: &Links,
    functions: &[ModelFunction],
    fact: Fact,
) -> Result<(), OutOfMemory>
    ensures { OnOk result (Adds facts.old.keys facts.new.keys (IsAfterEnd functions.now links.now fact)) }
{
    match ending(functions, fact) {
        Some(function) => return_to_each(facts, links.of(function)),
        None => Ok(()),
    }
}

// Adds what is one step from the fact, given the calls and the ends that were found before.
pub fn follow_fact(
    facts: &mut FactSet,
    links: &mut Links,
    ended: &mut HashSet<u32>,
    model: &Model,
    states: &Slab<State>,
    fact: Fact,
) -> Result<(), OutOfMemory>
    ensures ended { OnOk result (Gains (Contains ended.old.keys) (Contains ended.new.keys) (λ f. IsEnd model.now.functions f fact)) }
    ensures links { OnOk result (AddsLinks links.old links.new (λ f l. Has (λ c. (c.from ≡ fact.node) × IsLinkOf fact.place f l c) model.now.calls)) }
    ensures facts { OnOk result (Adds facts.old.keys facts.new.keys (IsStep model.now (get states.now) links.new ended.new.keys fact)) }
{
    let functions = model.functions();
    note_end(ended, functions, fact)?;
    follow_calls(facts, links, ended, model, fact)?;
    follow_end(facts, links, functions, fact)?;
    follow_silent(facts, model, fact)?;
    follow_back(facts, model, states, fact)
}
