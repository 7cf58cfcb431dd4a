//! The monitor of the callgraph model (Wagner and Dean 2001).
#![tactic(auto)]

mod monitor;
mod quiet;
mod reading;
mod visiting;

pub use monitor::{CallgraphMonitor, CallgraphPool};
