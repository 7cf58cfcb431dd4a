//! The monitor of the abstract-stack model (Wagner and Dean 2001): the stacks that may be open are held
//! as an automaton, in a pool that the monitors of one model share.
#![tactic(auto)]

mod edges;
mod event;
mod fact_set;
mod follow;
mod key_set;
mod links;
mod memo;
mod monitor;
mod notes;
mod order;
mod place;
mod pool;
mod reading;
mod resolve;
mod saturate;
mod shared;
mod store;

pub use monitor::StackMonitor;
pub use place::Edge;
pub use pool::Pool;
