use dm_base::{Event, Outcome};

/// What a process that was advanced some times has come to. Events are counted from 1.
#[derive(Drop)]
pub enum Standing {
    /// It has made so many events, all of which were accepted, and may make more.
    Open { made: u64 },
    /// It has made so many events, all of which were accepted, and its run has ended so.
    Ended { made: u64, outcome: Outcome },
    /// The event with this number is the first after which its history is not in the language.
    Rejected { at: u64, event: Event },
    /// The event with this number is the first after which, in the Dyck model, one call more is open than the bound allows.
    Bound { at: u64, event: Event },
}
