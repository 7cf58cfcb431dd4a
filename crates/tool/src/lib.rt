//! The tool as one function of its words, a store of files and two sinks.
#![tactic(auto)]

mod laws;
mod run;

pub use laws::the_headline_holds;
pub use run::{run_in_memory, run_tool};
