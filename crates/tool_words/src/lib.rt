//! The command lines of the tool: which command the words after the program's name ask for, if any.
#![tactic(auto)]

mod command;

pub use command::{Command, command_of};
