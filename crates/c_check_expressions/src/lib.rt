//! Parts of the checker: expressions, names of types, declarators and initialisers (C99 6.5, 6.7.5, 6.7.6, 6.7.8).
//!
//! - What expressions, names of types and declarators of the C profile give (C99 6.5, 6.7.5, 6.7.6).
//! - Initialisers of the C profile (C99 6.7.8): what each cell of an object begins with.
#![tactic(auto)]

mod counting;
mod designators;
mod expressions;
mod forms;
mod initialised;
mod nodes;
mod ones;
mod whole;

pub use c_check_initialisers::value_of_number;
pub use c_check_types::{constant_value, new_name};
pub use expressions::{declared, folded_value, tree, type_declared, type_named, value};
pub use whole::{initialised_local, initialised_static};
