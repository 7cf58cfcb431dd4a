//! Tests of the crates that read and print C, over their public calls. Each call that can want memory is
//! run with ample memory: `tokens` in `lexing`, `print` in `printing`.
#![tactic(auto)]

#[cfg(test)]
mod lexing;
#[cfg(test)]
mod printing;
