//! The checker of the C profile (C99 6.2 to 6.9): the program that a unit is typed as, or a demand on the unit that fails; and what stands
//! at file scope (6.7, 6.9): what each item gives, and what is known behind it.
#![tactic(auto)]

mod checking;
mod file_scope;
mod found;
mod functions;

pub use c_check_units::{Output, environment_before, typed_program};
pub use c_check_values::CheckError;
pub use c_rules_laws::a_spelled_unit_is_lexical;
pub use checking::check;
pub use file_scope::items;
