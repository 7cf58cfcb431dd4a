//! The commands that read a model: verdicts and precision along traces, verdicts on processes, and the model's text in the
//! newest version.
#![tactic(auto)]

mod findings;
mod judge_command;
mod measure_command;
mod metering;
mod traces_follower;
mod upgrade_command;
mod watch_command;
mod watch_pair;
mod watches;
mod watching;

pub use judge_command::judge;
pub use measure_command::measure;
pub use upgrade_command::upgrade;
pub use watch_command::watch_traces;
