ghost use Rattle.std.specs.Prelude.{◌≡◌, ◌<◌, ℕ, replicate, IfOk, Some, List, ◌∷◌, length, slice_get};
ghost use Rattle.inline_model.specs.Entries.{AreEntries};
ghost use Rattle.inline_model.specs.declared.path.Frame.{Frame};
ghost use Rattle.inline_model.specs.Searching.{IsSearching, IsTurn, IsNext, Enters, IsDone};

use crate::Entry;
use crate::path::{Frame, Path};
use crate::reading::{complete, height_at, next_opened};
use crate::search::{Mark, Search, Turn};
use dm_base::OutOfMemory;
use flow_model::Model;
use std::alloc::Global;

// So many call edges that were not reached.
fn unseen(alloc: Global, count: usize) -> Result<Vec<Mark>, OutOfMemory>
    ensures { IfOk result (λ v. v.items ≡ replicate count Mark.Unseen) }
{
    Ok(vec![in alloc; Mark::Unseen; count]?)
}

// So many heights that are not known.
fn unknown(alloc: Global, count: usize) -> Result<Vec<Option<u32>>, OutOfMemory>
    ensures { IfOk result (λ v. v.items ≡ replicate count None) }
{
    Ok(vec![in alloc; None; count]?)
}

/// A search that has not begun.
pub fn begin(alloc: Global, model: &Model) -> Result<Search, OutOfMemory>
    ensures { IfOk result (IsSearching model.now) }
{
    let _nodes = model.nodes();
    let marks = unseen(alloc, model.calls().len())?;
    let heights = unknown(alloc, model.functions().len())?;
    let path = Path::new(alloc)?;
    Ok(Search {
        marks,
        heights,
        path,
    })
}

// Leaves the newest frame, that of the place, all of whose opened call edges are done.
fn leave(search: &mut Search, model: &Model, entries: &[Entry], frame: Frame, place: usize) -> Turn
    requires entries { AreEntries model.now entries.now }
    requires search { IsSearching model.now search.old }
    requires top { (rest : List Frame) × (search.old.path ≡ frame ∷ rest) }
    requires opener { frame.opener ≡ Some place }
    requires over { IsNext model.now search.old.heights.items (Enters model.now frame.opener) frame.next None }
    ensures { IsTurn model.now search.old search.new result }
{
    let _nodes = model.nodes();
    complete(&mut search.heights, model, entries, frame.opener);
    search.marks[place] = Mark::Done;
    let _left = search.path.pop();
    Turn::Goes
}

// Ends the search where all call edges that the start opens are done.
fn end(search: &mut Search, model: &Model, entries: &[Entry], frame: Frame) -> Turn
    requires entries { AreEntries model.now entries.now }
    requires search { IsSearching model.now search.old }
    requires top { (rest : List Frame) × (search.old.path ≡ frame ∷ rest) }
    requires opener { frame.opener ≡ None }
    requires over { IsNext model.now search.old.heights.items (Enters model.now frame.opener) frame.next None }
    ensures { IsTurn model.now search.old search.new result }
{
    let _nodes = model.nodes();
    complete(&mut search.heights, model, entries, frame.opener);
    Turn::Ends(height_at(&search.heights, model.start()))
}

// Goes past the place, which is done.
fn pass(search: &mut Search, model: &Model, frame: Frame, place: usize) -> Result<Turn, OutOfMemory>
    requires search { IsSearching model.now search.old }
    requires top { (rest : List Frame) × (search.old.path ≡ frame ∷ rest) }
    requires next { IsNext model.now search.old.heights.items (Enters model.now frame.opener) frame.next (Some place) }
    requires done { IsDone search.old.marks.items place }
    ensures { IfOk result (IsTurn model.now search.old search.new) }
{
    let _left = search.path.pop();
    search.path.push(Frame {
        opener: frame.opener,
        next: place + 1,
    })?;
    Ok(Turn::Goes)
}

// Puts the place on the path.
fn enter(
    search: &mut Search,
    model: &Model,
    frame: Frame,
    place: usize,
) -> Result<Turn, OutOfMemory>
    requires search { IsSearching model.now search.old }
    requires top { (rest : List Frame) × (search.old.path ≡ frame ∷ rest) }
    requires next { IsNext model.now search.old.heights.items (Enters model.now frame.opener) frame.next (Some place) }
    requires unseen { slice_get search.old.marks.items place ≡ Some Mark.Unseen }
    ensures { IfOk result (IsTurn model.now search.old search.new) }
{
    search.path.push(Frame {
        opener: Some(place),
        next: 0,
    })?;
    search.marks[place] = Mark::Open;
    Ok(Turn::Goes)
}

// The mark of the place.
fn mark_at(marks: &[Mark], place: usize) -> Mark
    requires { place < length marks.now }
    ensures { slice_get marks.now place ≡ Some result }
{
    marks[place]
}

// Leaves the newest frame, all of whose opened call edges are done.
fn go_back(search: &mut Search, model: &Model, entries: &[Entry], frame: Frame) -> Turn
    requires entries { AreEntries model.now entries.now }
    requires search { IsSearching model.now search.old }
    requires top { (rest : List Frame) × (search.old.path ≡ frame ∷ rest) }
    requires over { IsNext model.now search.old.heights.items (Enters model.now frame.opener) frame.next None }
    ensures { IsTurn model.now search.old search.new result }
{
    match frame.opener {
        Some(place) => leave(search, model, entries, frame, place),
        None => end(search, model, entries, frame),
    }
}

// Looks at the next place.
fn look_at(
    search: &mut Search,
    model: &Model,
    frame: Frame,
    place: usize,
) -> Result<Turn, OutOfMemory>
    requires search { IsSearching model.now search.old }
    requires top { (rest : List Frame) × (search.old.path ≡ frame ∷ rest) }
    requires next { IsNext model.now search.old.heights.items (Enters model.now frame.opener) frame.next (Some place) }
    ensures { IfOk result (IsTurn model.now search.old search.new) }
{
    match mark_at(&search.marks, place) {
        Mark::Unseen => enter(search, model, frame, place),
        Mark::Open => Ok(Turn::Returns(place)),
        Mark::Done => pass(search, model, frame, place),
    }
}

/// One turn.
pub fn turn(search: &mut Search, model: &Model, entries: &[Entry]) -> Result<Turn, OutOfMemory>
    requires entries { AreEntries model.now entries.now }
    requires search { IsSearching model.now search.old }
    ensures { IfOk result (IsTurn model.now search.old search.new) }
{
    let Some(frame) = search.path.top() else {
        unreachable!()
    };
    match next_opened(model, entries, &search.heights, frame.opener, frame.next) {
        Some(place) => look_at(search, model, frame, place),
        None => Ok(go_back(search, model, entries, frame)),
    }
}
