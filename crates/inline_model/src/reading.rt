ghost use Rattle.std.specs.Prelude.{◌≡◌, ◌+◌, ◌<◌, ℕ, ◌↔◌, IsTrue, Some, Contains, length, slice_get};
ghost use Rattle.std.specs.Option.{option_copied};
ghost use Rattle.flow_model.specs.Graph.{Graph};
ghost use Rattle.flow_model.specs.Order.{StrictlyRise};
ghost use Rattle.inline_model.specs.declared.table.Entry.{Entry};
ghost use Rattle.inline_model.specs.Entries.{AreEntries, entry_order};
ghost use Rattle.inline_model.specs.Searching.{IsComplete, IsNext, Enters, IsGreatestAbove, AreHeights, AreLow, IsReady, StayLow, Completes, lesser};

use crate::{Entry, entries_of, next_place};
use flow_model::{CallEdge, Model};

/// The call edge at the place.
pub fn call_of(model: &Model, place: usize) -> Option<&CallEdge>
    ensures { option_copied result ≡ slice_get model.now.calls place }
{
    model.calls().get(place)
}

// Whether the height of the function is known.
fn is_known(heights: &[Option<u32>], function: u32) -> bool
    ensures { IsTrue result ↔ IsComplete heights.now function }
{
    match heights.get(function as usize) {
        Some(height) => height.is_some(),
        None => false,
    }
}

// The least place from the given one on by which the function goes on, or none where its height is known.
fn next_of(entries: &[Entry], heights: &[Option<u32>], function: u32, from: usize) -> Option<usize>
    requires { StrictlyRise entry_order entries.now }
    ensures { (g : Graph) → AreEntries g entries.now → IsNext g heights.now (λ f. f ≡ function) from result }
{
    if is_known(heights, function) {
        return None;
    }
    match next_place(entries, function, from) {
        Some(place) => Some(place),
        None => None,
    }
}

// The lesser of two places.
fn lesser_of(one: Option<usize>, other: Option<usize>) -> Option<usize>
    ensures { result ≡ lesser one other }
{
    match one {
        Some(a) => match other {
            Some(b) => Some(usize::min(a, b)),
            None => Some(a),
        },
        None => other,
    }
}

// The least place from the given one on by which one of the functions goes on whose heights aren't known.
fn next_among(
    entries: &[Entry],
    heights: &[Option<u32>],
    functions: &[u32],
    from: usize,
) -> Option<usize>
    requires { StrictlyRise entry_order entries.now }
    ensures { (g : Graph) → AreEntries g entries.now → IsNext g heights.now (Contains functions.now) from result }
{
    let mut least = None;
    for function in functions {
        least = lesser_of(least, next_of(entries, heights, *function, from));
    }
    least
}

/// The least place from the given one on that the opener opens into a function whose height isn't known.
pub fn next_opened(
    model: &Model,
    entries: &[Entry],
    heights: &[Option<u32>],
    opener: Option<usize>,
    from: usize,
) -> Option<usize>
    requires { AreEntries model.now entries.now }
    ensures { IsNext model.now heights.now (Enters model.now opener) from result }
{
    let Some(place) = opener else {
        return next_of(entries, heights, model.start(), from);
    };
    let Some(call) = call_of(model, place) else {
        return None;
    };
    next_among(entries, heights, call.candidates(), from)
}

/// The height of the function, which is known.
pub fn height_at(heights: &[Option<u32>], function: u32) -> u32
    requires { IsComplete heights.now function }
    ensures { slice_get heights.now function ≡ Some (Some result) }
{
    match heights[function as usize] {
        Some(height) => height,
        None => unreachable!(),
    }
}

// One more than the height of the function.
fn height_above(heights: &[Option<u32>], function: u32) -> u32
    requires known { IsComplete heights.now function }
    requires low { AreLow heights.now }
    ensures { (m : ℕ) × (slice_get heights.now function ≡ Some (Some m)) × (result ≡ m + 1) }
{
    height_at(heights, function) + 1
}

// The height of the function whose entries these are.
fn height_of(entries: &[Entry], heights: &[Option<u32>]) -> u32
    requires known { (e : Entry) → Contains entries.now e → IsComplete heights.now e.candidate }
    requires low { AreLow heights.now }
    ensures { IsGreatestAbove entries.now heights.now result }
{
    let mut greatest = 0;
    for entry in entries {
        greatest = u32::max(greatest, height_above(heights, entry.candidate));
    }
    greatest
}

// Notes the height of the function.
fn complete_one(heights: &mut [Option<u32>], entries: &[Entry], function: u32)
    requires rise { StrictlyRise entry_order entries.now }
    requires low { AreLow heights.old }
    requires ready { IsReady entries.now heights.old function }
    ensures completes { (g : Graph) → AreEntries g entries.now → AreHeights g heights.old → Completes g heights.old heights.new (λ f. f ≡ function) }
    ensures stays { StayLow heights.old heights.new }
{
    if is_known(heights, function) {
        return;
    }
    let height = height_of(entries_of(entries, function), heights);
    heights[function as usize] = Some(height);
}

// Notes the heights of the functions.
fn complete_each(heights: &mut [Option<u32>], entries: &[Entry], functions: &[u32])
    requires rise { StrictlyRise entry_order entries.now }
    requires low { AreLow heights.old }
    requires ready { (f : ℕ) → Contains functions.now f → IsReady entries.now heights.old f }
    ensures completes { (g : Graph) → AreEntries g entries.now → AreHeights g heights.old → Completes g heights.old heights.new (Contains functions.now) }
    ensures stays { StayLow heights.old heights.new }
{
    for function in functions {
        complete_one(heights, entries, *function);
    }
}

/// Notes the heights of the functions that the opener may enter.
pub fn complete(
    heights: &mut [Option<u32>],
    model: &Model,
    entries: &[Entry],
    opener: Option<usize>,
)
    requires entries { AreEntries model.now entries.now }
    requires low { AreLow heights.old }
    requires ready { (f : ℕ) → Enters model.now opener f → IsReady entries.now heights.old f }
    ensures completes { AreHeights model.now heights.old → Completes model.now heights.old heights.new (Enters model.now opener) }
    ensures stays { StayLow heights.old heights.new }
{
    let Some(place) = opener else {
        complete_one(heights, entries, model.start());
        return;
    };
    let Some(call) = call_of(model, place) else {
        return;
    };
    complete_each(heights, entries, call.candidates());
}
