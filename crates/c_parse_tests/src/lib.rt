//! Tests of the parser of C, over its public calls. Each of them is run with ample memory.
#![tactic(auto)]

#[cfg(test)]
mod nesting;
#[cfg(test)]
mod refusals;
#[cfg(test)]
mod server;
#[cfg(test)]
mod trees;
