//! Specifiers, derived types and declared names of the C profile (C99 6.2.3, 6.7.2, 6.7.5): the demands on them.
#![tactic(auto)]

mod constants;
mod derived;
mod names;
mod specifiers;

pub use c_check_values::{C14, CheckError, TypedExpression, valued};
pub use constants::{array_size, constant_value};
pub use derived::{array_of, function_of, parameter_of, pointer_to};
pub use names::{free_name, new_name};
pub use specifiers::type_of_spec;
