//! The commands that read a C text and instrument none: `check` and `explain` (whether it is a program, and where it is refused and why),
//! `model`, `run` and `sites`.
#![tactic(auto)]

mod check_command;
mod explain_command;
mod explanation;
mod laws;
mod model_command;
mod running;
mod sites_command;

pub use check_command::{check_source, counts_line};
pub use explain_command::explain_source;
pub use laws::explain_refuses_as_check;
pub use model_command::model_of_source;
pub use running::run_source;
pub use sites_command::sites_of_source;
pub use tool_steps::{SourceError, read_source};
