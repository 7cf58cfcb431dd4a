//! Monitors that judge a trace or a run together: those that are asked for, what they find, and the names that may come next.
#![tactic(auto)]

mod asked;
mod hearing;
mod judging;
mod monitors;
mod pair;
mod panel;

pub use asked::Asked;
pub use hearing::{Heard, Listener};
pub use judging::{Judging, status_of};
pub use monitors::AllMonitors;
pub use pair::{Pair, worse};
pub use panel::Panel;
