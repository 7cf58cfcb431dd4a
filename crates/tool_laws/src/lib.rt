//! No false alarm on what the commands write (Wagner and Dean 2001). It has no code but its laws.
#![tactic(auto)]

mod laws;

pub use laws::{fleets_raise_no_alarm, judged_runs_are_accepted};
