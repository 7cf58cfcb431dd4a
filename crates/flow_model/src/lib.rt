//! Models of the system calls that a program can make, the languages that they stand for, and what
//! a monitor of one is.
#![tactic(auto)]

mod builder;
mod counted;
mod groups;
mod laws;
mod model;
mod monitor;
mod records;
mod rules;
mod scratch;
mod sorting;
mod steps;
mod which;

pub use builder::{FinishError, ModelBuilder};
pub use counted::{CountedMonitor, begin_uncounted, feed_uncounted};
pub use laws::languages_are_nested;
pub use model::Model;
pub use monitor::Monitor;
pub use records::{CallEdge, ModelFunction, SilentEdge, SysEdge};
pub use scratch::Scratch;
pub use steps::Steps;
pub use which::Which;
