//! The command `fleet`: what the processes of a schedule come to, each judged by its model while all of them run.
#![tactic(auto)]

mod command;
mod inputs;
mod names;
mod processes;
mod reading;
mod report_text;
mod reports;
mod running;
mod schedules;

pub use command::run_fleet;
