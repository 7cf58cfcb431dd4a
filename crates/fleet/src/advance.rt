use dm_base::{Event, Outcome};

/// What an advance of a process has come to.
#[derive(Drop)]
pub enum Advance {
    /// The process made this event, and its history with it is accepted.
    Made(Event),
    /// This is the first event of the process after which its history is not in the language.
    Rejected(Event),
    /// This is the first event of the process after which, in the Dyck model, one call more is open than the bound allows.
    Bound(Event),
    /// The run of the process has ended.
    Ended(Outcome),
}
