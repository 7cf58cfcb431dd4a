ghost use Rattle.std.specs.Prelude.{◌≡◌, ◌+◌, ◌<◌, ◌≤◌, ◌↔◌, ◌++◌, ◌∷◌, [], ℕ, List, length, map, drop, IfOk, IfErr, OnOk, Contains};
ghost use Rattle.flow_model.specs.Order.{StrictlyRise};
ghost use Rattle.inline_model.specs.Chains.{IsGreatest};
ghost use Rattle.inline_model.specs.Inlined.{HasTooManyNodes};
ghost use Rattle.inline_model.specs.declared.table.Entry.{Entry};
ghost use Rattle.inline_model.specs.Entries.{AreEntries, entry_order};
ghost use Rattle.inline_model.specs.declared.copied.Waiting.{Waiting};
ghost use Rattle.inline_model.specs.Copying.{nodes_of, waiting_of, item_of, IsCopying};
ghost use Rattle.inline_model.specs.Named.{AreAllCopies};

use crate::copied::{Copied, Waiting};
use crate::copy_failure::CopiesError;
use crate::stack::Stack;
use crate::{Entry, entries_of};
use dm_base::OutOfMemory;
use flow_model::Model;
use std::alloc::Global;

// The greatest number of nodes of a model.
const MOST_NODES: u32 = 200_000;

// How many nodes the function has.
fn size_of(model: &Model, function: u32) -> u32
    requires { function < length model.now.functions }
    ensures { result ≡ nodes_of model.now function }
{
    let functions = model.functions();
    let place = function as usize;
    let entry = functions[place].entry;
    match functions.get(place + 1) {
        Some(next) => next.entry.saturating_sub(entry),
        None => model.nodes().saturating_sub(entry),
    }
}

// Lets the copies wait that go on from the one at the place by these entries, the first next.
fn wait_for(stack: &mut Stack, own: &[Entry], parent: usize) -> Result<(), OutOfMemory>
    ensures { OnOk result (stack.new ≡ map (waiting_of parent) own.now ++ stack.old) }
{
    let mut i = own.len();
    while i > 0 {
        i -= 1;
        stack.push(Waiting {
            function: own[i].candidate,
            root: false,
            parent,
            place: own[i].place,
        })?;
    }
    Ok(())
}

// How many nodes there are with those of the copy, where these are no more than a model may have.
fn counted(model: &Model, next: Waiting, count: u32) -> Result<u32, CopiesError>
    requires known { next.function < length model.now.functions }
    requires few { count ≤ 200000 }
    ensures ok { IfOk result (λ n. (n ≡ count + nodes_of model.now next.function) × (n ≤ 200000)) }
    ensures err { IfErr result (λ e. (e ≡ CopiesError.TooManyNodes) × (200000 < count + nodes_of model.now next.function)) }
{
    let size = size_of(model, next.function);
    if size > MOST_NODES - count {
        return Err(CopiesError::TooManyNodes);
    }
    Ok(count + size)
}

// Puts the copy into the list, with its nodes after those before it.
fn put(copies: &mut Vec<Copied>, next: Waiting, count: u32) -> Result<(), OutOfMemory>
    ensures { OnOk result (copies.new.items ≡ copies.old.items ++ item_of next count ∷ []) }
{
    copies.push(Copied {
        function: next.function,
        root: next.root,
        parent: next.parent,
        place: next.place,
        first: count,
    })?;
    Ok(())
}

// Puts the next copy into the list, and lets those wait that go on from it; gives the number of nodes with its own.
fn take(
    copies: &mut Vec<Copied>,
    stack: &mut Stack,
    model: &Model,
    entries: &[Entry],
    next: Waiting,
    count: u32,
) -> Result<u32, CopiesError>
    requires entries { AreEntries model.now entries.now }
    requires copying { IsCopying model.now copies.old.items (next ∷ stack.old) count }
    requires few { count ≤ 200000 }
    ensures ok { IfOk result (λ n. IsCopying model.now copies.new.items stack.new n × (n ≤ 200000)) }
    ensures more { IfOk result (λ n. count < n) }
    ensures err { (n : ℕ) → IsGreatest model.now n → IfErr result (λ e. e ≡ CopiesError.TooManyNodes → HasTooManyNodes model.now) }
{
    let _nodes = model.nodes();
    let more = match counted(model, next, count) {
        Ok(more) => more,
        Err(error) => return Err(error),
    };
    let place = copies.len();
    put(copies, next, count)?;
    wait_for(stack, entries_of(entries, next.function), place)?;
    Ok(more)
}

/// All copies of a model whose openings these are, depth first. Where the longest chains have a length, TooManyNodes says
/// that the inlined model has more nodes than a model may have. Each copy has a node, so no list is longer than 200,000
/// copies. OutOfMemory says that memory was refused.
pub fn copies(alloc: Global, model: &Model, entries: &[Entry]) -> Result<Vec<Copied>, CopiesError>
    requires { AreEntries model.now entries.now }
    ensures ok { IfOk result (λ v. AreAllCopies model.now v.items) }
    ensures err { (n : ℕ) → IsGreatest model.now n → IfErr result (λ e. e ≡ CopiesError.TooManyNodes → HasTooManyNodes model.now) }
{
    let mut copies = Vec::new(alloc);
    let mut stack = Stack::new(alloc);
    stack.push(Waiting {
        function: model.start(),
        root: true,
        parent: 0,
        place: 0,
    })?;
    let mut count = 0;
    while let Some(next) = stack.pop() {
        count = match take(&mut copies, &mut stack, model, entries, next, count) {
            Ok(more) => more,
            Err(error) => return Err(error),
        };
    }
    Ok(copies)
}
