//! The instrumenter: a unit of the C profile with null calls round its marked calls, in the manner of Giffin, Jha and Miller
//! ("Efficient Context-Sensitive Intrusion Detection", NDSS 2004).
#![tactic(auto)]

mod declarations;
mod instrumented;
mod statement_nodes;
mod statements;
mod units;

pub use instrumented::instrumented_items;
