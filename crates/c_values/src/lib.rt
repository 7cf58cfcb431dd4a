//! Values and memory of a C program as its run uses them: memory, what operators give on integers, and laws on memory.
#![tactic(auto)]

mod binary_operators;
mod conversions;
mod held;
mod int_operators;
mod kinds;
mod laws;
mod memory;
mod shifts;
mod unary_operators;
mod unsigned_operators;

pub use binary_operators::binary;
pub use conversions::convert;
pub use laws::memory_keeps_values;
pub use memory::Memory;
pub use unary_operators::unary;
