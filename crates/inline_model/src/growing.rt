ghost use Rattle.std.specs.Prelude.{◌≡◌, ◌<◌, Some, slice_get, length};
ghost use Rattle.flow_model.specs.Graph.{Owns, end_of};
ghost use Rattle.inline_model.specs.Named.{AreAllCopies};
ghost use Rattle.inline_model.specs.Copies.{entry_of, node_count};
ghost use Rattle.inline_model.specs.Drawn.{number_in};
ghost use Rattle.inline_model.specs.Growing.{IsNumbered};

use crate::Copied;
use flow_model::{CallEdge, Model, ModelFunction};

/// The call edge at the place.
pub fn call_of(model: &Model, place: usize) -> &CallEdge
    requires { place < length model.now.calls }
    ensures { slice_get model.now.calls place ≡ Some result.now }
{
    &model.calls()[place]
}

/// The function at the place.
pub fn function_of(model: &Model, place: u32) -> &ModelFunction
    requires { place < length model.now.functions }
    ensures { slice_get model.now.functions place ≡ Some result.now }
{
    &model.functions()[place as usize]
}

/// The first node of the function.
pub fn first_of(model: &Model, function: u32) -> u32
    requires { function < length model.now.functions }
    ensures { result ≡ entry_of model.now.functions function }
{
    function_of(model, function).entry
}

/// The first node past those of the function.
pub fn past_of(model: &Model, function: u32) -> u32
    ensures { result ≡ end_of model.now.functions model.now.nodes function }
{
    match model.functions().get(function as usize + 1) {
        Some(next) => next.entry,
        None => model.nodes(),
    }
}

/// The number of the node in the copy.
pub fn number_of(model: &Model, item: &Copied, node: u32) -> u32
    requires item { IsNumbered model.now item.now }
    requires owns { Owns model.now.functions model.now.nodes item.now.function node }
    ensures { result ≡ number_in model.now item.now node }
{
    let first = first_of(model, item.function);
    item.first + (node - first)
}

/// The copy at the place of the list.
pub fn item_at(items: &[Copied], place: usize) -> Copied
    requires { place < length items.now }
    ensures { slice_get items.now place ≡ Some result }
{
    items[place]
}

/// How many nodes the copies of the list, which are all of the model, have together.
pub fn count_nodes(model: &Model, items: &[Copied]) -> u32
    requires { AreAllCopies model.now items.now }
    ensures { (all : AreAllCopies model.now items.now) → result ≡ node_count model.now all.copies }
{
    let _nodes = model.nodes();
    let last = item_at(items, items.len() - 1);
    let first = first_of(model, last.function);
    let past = past_of(model, last.function);
    last.first + (past - first)
}
