//! Numbers without a bound.
#![tactic(auto)]

mod count;

pub use count::Count;
pub use dm_base::{Mode, OutOfMemory};
