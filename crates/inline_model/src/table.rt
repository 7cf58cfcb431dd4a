ghost use Rattle.std.specs.Prelude.{◌≡◌, ◌<◌, ◌≤◌, ◌++◌, ◌↔◌, ℕ, length, map, slice_index_or, AllPairs, IfOk, OnOk, IfSome, IfNone, Contains};
ghost use Rattle.std.specs.List.Sorted.{IsNonDecreasingBy};
ghost use Rattle.dm_sets.specs.Nodes.{Has};
ghost use Rattle.flow_model.specs.Order.{StrictlyRise};
ghost use Rattle.flow_model.specs.declared.records.ModelFunction.{ModelFunction};
ghost use Rattle.inline_model.specs.declared.table.Entry.{Entry};
ghost use Rattle.inline_model.specs.Within.{Within};
ghost use Rattle.inline_model.specs.Saturating.{IsWithin};
ghost use Rattle.inline_model.specs.Entries.{entry_order, AreEntries, HasEntries, AddsCall};

use crate::sorting::in_order;
use crate::within::nodes_within;
use dm_base::OutOfMemory;
use dm_sets::NodeSet;
use flow_model::{CallEdge, Model, ModelFunction};
use std::alloc::Global;

/// That a function goes on by a call: the place of its edge among the model's call edges, and a candidate. Entries are
/// ordered by their fields from the first on.
#[derive(Clone, Copy, PartialEq, Eq, PartialOrd, Ord)]
pub struct Entry {
    pub function: u32,
    pub place: usize,
    pub candidate: u32,
}

// How many functions begin at the node or before it, in log n steps.
fn count_begun(functions: &[ModelFunction], node: u32) -> usize
    requires { AllPairs (λ d e. d.entry < e.entry) functions.now }
    ensures within { result ≤ length functions.now }
    ensures before { (k : ℕ) (d : ModelFunction) → k < result → (slice_index_or functions.now k d).entry ≤ node }
    ensures after { (k : ℕ) (d : ModelFunction) → result ≤ k → k < length functions.now → node < (slice_index_or functions.now k d).entry }
{
    functions.partition_point(|one| one.entry <= node)
}

// The function that the node is within, in log n steps.
fn owner_of(model: &Model, node: u32) -> u32
    requires { IsWithin model.now node }
    ensures { Within model.now result node }
{
    let _nodes = model.nodes();
    let begun = count_begun(model.functions(), node);
    (begun - 1) as u32
}

// Adds an entry for each candidate of the call.
fn add_candidates(
    entries: &mut Vec<Entry>,
    function: u32,
    place: usize,
    call: &CallEdge,
) -> Result<(), OutOfMemory>
    ensures { OnOk result (entries.new.items ≡ entries.old.items ++ map (λ h. record { function = function; place = place; candidate = h }) call.now.candidates) }
{
    for candidate in call.candidates() {
        entries.push(Entry {
            function,
            place,
            candidate: *candidate,
        })?;
    }
    Ok(())
}

// Adds the entries of the call where its edge leaves a node that is within its function.
fn add_call(
    entries: &mut Vec<Entry>,
    within: &NodeSet,
    model: &Model,
    place: usize,
    call: &CallEdge,
) -> Result<(), OutOfMemory>
    requires { (a : ℕ) → Has within.now a ↔ IsWithin model.now a }
    ensures { OnOk result (AddsCall model.now place call.now entries.old.items entries.new.items) }
{
    let _nodes = model.nodes();
    if !within.contains(call.from()) {
        return Ok(());
    }
    add_candidates(entries, owner_of(model, call.from()), place, call)?;
    Ok(())
}

// The entries of all calls.
fn all_entries(alloc: Global, model: &Model, within: &NodeSet) -> Result<Vec<Entry>, OutOfMemory>
    requires { (a : ℕ) → Has within.now a ↔ IsWithin model.now a }
    ensures { IfOk result (λ v. HasEntries model.now (length model.now.calls) v.items) }
{
    let mut entries = Vec::new(alloc);
    for (place, call) in model.calls().iter().enumerate() {
        add_call(&mut entries, within, model, place, call)?;
    }
    Ok(entries)
}

/// All openings of the model, by function, then by the place of the call edge, then by candidate. It takes a number of
/// steps that grows with n log n for a model of n nodes, edges and candidates.
pub fn openings(alloc: Global, model: &Model) -> Result<Vec<Entry>, OutOfMemory>
    ensures { IfOk result (λ v. AreEntries model.now v.items) }
{
    let within = nodes_within(alloc, model)?;
    let mut entries = all_entries(alloc, model, &within)?;
    in_order(&mut entries);
    Ok(entries)
}

// How many entries are of functions before this one, in log n steps.
fn count_below(entries: &[Entry], function: u32) -> usize
    requires { IsNonDecreasingBy (λ e. e.function) entries.now }
    ensures within { result ≤ length entries.now }
    ensures before { (k : ℕ) (d : Entry) → k < result → (slice_index_or entries.now k d).function < function }
    ensures after { (k : ℕ) (d : Entry) → result ≤ k → k < length entries.now → function ≤ (slice_index_or entries.now k d).function }
{
    entries.partition_point(|e| e.function < function)
}

// How many entries are of functions up to this one, in log n steps.
fn count_through(entries: &[Entry], function: u32) -> usize
    requires { IsNonDecreasingBy (λ e. e.function) entries.now }
    ensures within { result ≤ length entries.now }
    ensures before { (k : ℕ) (d : Entry) → k < result → (slice_index_or entries.now k d).function ≤ function }
    ensures after { (k : ℕ) (d : Entry) → result ≤ k → k < length entries.now → function < (slice_index_or entries.now k d).function }
{
    entries.partition_point(|e| e.function <= function)
}

/// The entries of the function, among entries in increasing order. It takes log n steps.
pub fn entries_of(entries: &[Entry], function: u32) -> &[Entry]
    requires { StrictlyRise entry_order entries.now }
    ensures has { (e : Entry) → Contains result.now e ↔ (Contains entries.now e × (e.function ≡ function)) }
    ensures rise { StrictlyRise entry_order result.now }
{
    let from = count_below(entries, function);
    let to = count_through(entries, function);
    &entries[from..to]
}

// How many of the entries stand before the place, in log n steps.
fn count_before(entries: &[Entry], place: usize) -> usize
    requires { IsNonDecreasingBy (λ e. e.place) entries.now }
    ensures within { result ≤ length entries.now }
    ensures before { (k : ℕ) (d : Entry) → k < result → (slice_index_or entries.now k d).place < place }
    ensures after { (k : ℕ) (d : Entry) → result ≤ k → k < length entries.now → place ≤ (slice_index_or entries.now k d).place }
{
    entries.partition_point(|e| e.place < place)
}

/// The least place, not before the one given, by which the function goes on, among entries in increasing order. It takes
/// log n steps.
pub fn next_place(entries: &[Entry], function: u32, from: usize) -> Option<usize>
    requires { StrictlyRise entry_order entries.now }
    ensures some { IfSome result (λ p. (from ≤ p) × ((h : ℕ) × Contains entries.now (record { function = function; place = p; candidate = h })) × ((e : Entry) → Contains entries.now e → e.function ≡ function → from ≤ e.place → p ≤ e.place)) }
    ensures none { IfNone result ((e : Entry) → Contains entries.now e → e.function ≡ function → from ≤ e.place → ⊥) }
{
    let own = entries_of(entries, function);
    let at = count_before(own, from);
    if at < own.len() {
        return Some(own[at].place);
    }
    None
}
