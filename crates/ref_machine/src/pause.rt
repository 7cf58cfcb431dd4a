use dm_base::{Event, Outcome};

/// What a machine has come to (C99 5.1.2.3).
#[derive(Drop)]
pub enum Pause {
    /// The next thing is a system call other than `_exit`, which needs a recorded result.
    NeedResult,
    /// This event was made: a system call with its result, or a null call.
    Did(Event),
    /// The run has ended.
    Ended(Outcome),
}
