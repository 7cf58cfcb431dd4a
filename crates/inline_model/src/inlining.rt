ghost use Rattle.std.specs.Prelude.{◌↔◌, List, IfOk, IfErr, OnOk};
ghost use Rattle.dm_base.specs.declared.event.Event.{Event};
ghost use Rattle.flow_model.specs.declared.which.Which.TheVariants.{Callgraph, Stack};
ghost use Rattle.flow_model.specs.Graph.{Graph};
ghost use Rattle.flow_model.specs.Language.{Reads};
ghost use Rattle.inline_model.specs.Named.{AreAllCopies};
ghost use Rattle.inline_model.specs.Inlined.{IsInlined, HasTooManyNodes};
ghost use Rattle.inline_model.specs.Entries.{AreEntries};
ghost use Rattle.inline_model.specs.Cause.{IsBounded, HasCause};
ghost use Rattle.inline_model.specs.Depth.{HasLength};

use crate::answer::depth_of;
use crate::building::build;
use crate::depths::Depth;
use crate::failure::InlineError;
use crate::{Copied, CopiesError, Entry, copies, inlining_keeps_words, openings};
use dm_base::OutOfMemory;
use flow_model::Model;
use std::alloc::Global;

// Refuses a depth that has no greatest length.
fn greatest_alone(depth: &Depth) -> Result<(), InlineError>
    ensures ok { (g : Graph) → HasLength g depth.now → OnOk result (IsBounded g) }
    ensures err { (g : Graph) → HasLength g depth.now → IfErr result (HasCause g) }
{
    match depth {
        Depth::Greatest(_) => Ok(()),
        Depth::Unbounded { .. } => Err(InlineError::Recursive),
    }
}

// Refuses a model whose chains have no greatest length.
fn check_depth(alloc: Global, model: &Model, entries: &[Entry]) -> Result<(), InlineError>
    requires { AreEntries model.now entries.now }
    ensures ok { OnOk result (IsBounded model.now) }
    ensures err { IfErr result (HasCause model.now) }
{
    match depth_of(alloc, model, entries) {
        Ok(found) => greatest_alone(&found),
        Err(OutOfMemory) => Err(InlineError::OutOfMemory),
    }
}

// All copies of a model whose chains have a greatest length.
fn copies_of(alloc: Global, model: &Model, entries: &[Entry]) -> Result<Vec<Copied>, InlineError>
    requires entries { AreEntries model.now entries.now }
    requires bounded { IsBounded model.now }
    ensures ok { IfOk result (λ v. AreAllCopies model.now v.items) }
    ensures few { OnOk result (HasTooManyNodes model.now → ⊥) }
    ensures err { IfErr result (HasCause model.now) }
{
    match copies(alloc, model, entries) {
        Ok(items) => Ok(items),
        Err(CopiesError::TooManyNodes) => Err(InlineError::TooManyNodes),
        Err(CopiesError::OutOfMemory) => Err(InlineError::OutOfMemory),
    }
}

/// The inlined model: one function, in which each call stands as a copy of what it enters. Its callgraph model and its
/// abstract-stack model have the words of the model's abstract-stack model (Wagner and Dean 2001), so a trace is judged
/// as exactly as by the one and as cheaply as by the other.
///
/// # Errors
///
/// `Recursive` exactly where chains of sites have no greatest length, and `TooManyNodes` exactly where they have one and
/// the inlined model has more than 200,000 nodes; both before memory is taken for its edges. `OutOfMemory` where memory
/// was refused.
pub fn inline(alloc: Global, model: &Model) -> Result<Model, InlineError>
    ensures made { IfOk result (IsInlined model.now) }
    ensures bounded { OnOk result (IsBounded model.now) }
    ensures few { OnOk result (HasTooManyNodes model.now → ⊥) }
    ensures cause { IfErr result (HasCause model.now) }
    ensures stack { IfOk result (λ m. (t : List Event) → Reads Stack m t ↔ Reads Stack model.now t) }
    ensures callgraph { IfOk result (λ m. (t : List Event) → Reads Callgraph m t ↔ Reads Stack model.now t) }
{
    inlining_keeps_words();
    let _nodes = model.nodes();
    let entries = match openings(alloc, model) {
        Ok(entries) => entries,
        Err(OutOfMemory) => return Err(InlineError::OutOfMemory),
    };
    match check_depth(alloc, model, &entries) {
        Ok(()) => {}
        Err(error) => return Err(error),
    }
    let items = match copies_of(alloc, model, &entries) {
        Ok(items) => items,
        Err(error) => return Err(error),
    };
    match build(alloc, model, &items) {
        Ok(inlined) => Ok(inlined),
        Err(OutOfMemory) => Err(InlineError::OutOfMemory),
    }
}
