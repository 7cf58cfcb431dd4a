//! A set of nodes as bits of machine words, and a stack with a bound.
#![tactic(auto)]

mod bounded_stack;
mod node_set;

pub use bounded_stack::BoundedStack;
pub use node_set::NodeSet;
