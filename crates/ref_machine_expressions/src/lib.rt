//! A machine that runs a C program, in an expression: how its evaluation begins, and how it goes on with a value (C99 6.5).
#![tactic(auto)]

mod beginning;
mod calls;
mod choices;
mod steps;
mod storing;
mod values;

pub use beginning::begin;
pub use values::with_value;
