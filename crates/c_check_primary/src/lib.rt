//! Names, constants, strings, calls and members of the C profile (C99 6.5.1, 6.5.2, 6.4.4, 6.4.5): what they give, and
//! the demands on them.
#![tactic(auto)]

mod callee;
mod calls;
mod members;
mod names;
mod passing;
mod strings;

pub use callee::{Callee, Designator};
pub use calls::{called, callee_by_name, callee_by_value, site_of};
pub use members::member_of;
pub use names::{integer_expression, named_expression, typed_int};
pub use strings::string_expression;
