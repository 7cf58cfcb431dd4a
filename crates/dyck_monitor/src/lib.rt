//! The monitor of the Dyck model: which events of a process keep to its words, as long as no more calls
//! are open than its stack has room for.
#![tactic(auto)]

mod monitor;
mod moves;

pub use monitor::DyckMonitor;
