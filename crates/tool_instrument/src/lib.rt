//! The command `instrument`: a C text with null calls round the marked calls of its program (Giffin, Jha and Miller 2004).
#![tactic(auto)]

mod instrumenting;

pub use instrumenting::instrument_source;
