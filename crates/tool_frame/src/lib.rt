//! What all commands of the tool share: a text that was made whole, why nothing was written, and the line that tells it.
#![tactic(auto)]

mod finished;
mod lines;
mod reporting;
mod stop;

pub use finished::Finished;
pub use lines::{fixed_line, numbered_line};
pub use reporting::refuse;
pub use stop::Stop;
