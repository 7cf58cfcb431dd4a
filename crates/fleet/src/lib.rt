//! Machines and monitors together: programs that run with recorded results, one event at a time, while the events of each are judged by
//! the model of its group. The processes of a group share one pool of monitors, and no process changes what another one does.
#![tactic(auto)]

mod advance;
mod fleet;
mod laws;
mod places;
mod process;
mod standing;
mod stepping;
mod telling;

pub use advance::Advance;
pub use fleet::Fleet;
pub use laws::one_standing;
pub use standing::Standing;
