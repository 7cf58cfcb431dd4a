use dm_base::{Event, Outcome};

/// How a run ended, and its events.
#[derive(Drop)]
pub struct Run {
    /// How it ended.
    pub outcome: Outcome,
    /// Its events, in order.
    pub trace: Vec<Event>,
}
