//! Many processes, judged by one model: which verdict each one's own history has, and what of it is
//! still at hand.
#![tactic(auto)]

mod past;
mod process;
mod sweeping;
mod table;
mod watch;

pub use watch::Watch;
