use crate::Entry;
use crate::path::{Frame, Path};
use crate::reading::{complete, next_opened};
use dm_base::OutOfMemory;
use flow_model::Model;
use std::alloc::Global;

/// How far a call edge has been searched.
#[derive(Clone, Copy)]
pub enum Mark {
    /// It was not reached.
    Unseen,
    /// It is on the path.
    Open,
    /// All chains that it begins are known.
    Done,
}

/// A search over call edges by depth first: their marks, the heights of functions that are known, and the path.
#[derive(Drop)]
pub struct Search {
    pub marks: Vec<Mark>,
    pub heights: Vec<Option<u32>>,
    pub path: Path,
}

/// What a turn of a search gives.
#[derive(Clone, Copy)]
pub enum Turn {
    /// It goes on.
    Goes,
    /// All is known, and the start has this height.
    Ends(u32),
    /// The newest call edge of the path opens the one at this place, which is on the path.
    Returns(usize),
}
