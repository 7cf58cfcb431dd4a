//! The reference machine: it runs a typed program of the C profile in small steps, with an explicit list of what is left to
//! do, and can be paused at each event and each need of a recorded result.
#![tactic(auto)]

mod calls;
mod laws;
mod machine;
mod next;
mod pause;
mod running;
mod stepping;
mod whole;

pub use laws::advances_are_exact;
pub use machine::Machine;
pub use next::Next;
pub use pause::Pause;
pub use running::{advance_with, next_event, run};
pub use whole::Run;
