use dm_base::{Event, Outcome};

/// What a run comes to next, where each need of a recorded result is met (C99 5.1.2.3).
#[derive(Drop)]
pub enum Next {
    /// This event was made: a system call with its result, or a null call.
    Event(Event),
    /// The run has ended.
    End(Outcome),
}
