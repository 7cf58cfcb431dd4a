//! Parts of the checker: operators with two operands or three (C99 6.5.5 to 6.5.15).
//!
//! - Operands of the operators of the C profile: their typed trees in order, and two that `==`, `!=` and `?:` take as alike (C99 6.5.9,
//!   6.5.15).
//! - The operators of the C profile that evaluate one of two operands: `&&`, `||` and `?:` (C99 6.5.13 to 6.5.15): their types, typed trees
//!   and constants, and the demands on them.
//! - The operators of the C profile between two values that are both evaluated (C99 6.5.5 to 6.5.12): their types, their typed trees, their
//!   constants, and the demands on them. What an operator does with two operands is found by their types first, and then done.
#![tactic(auto)]

mod alike;
mod choices;
mod comparisons;
mod finding;
mod integers;
mod logical;
mod performing;
mod pointers;
mod trees;

pub use alike::{Alike, NullSide, Pointers, alike_of, made_pointers};
pub use choices::choice;
pub use finding::operator_of_code;
pub use logical::{conjunction, disjunction};
pub use performing::{operation, sum};
pub use trees::{Operands, operand_tree, operand_trees};
