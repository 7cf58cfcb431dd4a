//! Parts of the checker: forms of items, and what stands round the items of a unit (C99 6.7, 6.9).
//!
//! - What stands at file scope in the C profile (C99 6.7, 6.9): forms of declarations, what they define, the functions that bodies make,
//!   and scopes that are left.
//! - Units of the C profile (C99 6.9): what is known before their items, whether `main` is defined behind them, the static objects that
//!   their strings are, and the program that they make.
#![tactic(auto)]

mod bodies;
mod environments;
mod forms;
mod mains;
mod outputs;
mod programs;
mod scopes;
mod strings;
mod structs;
mod units;

pub use bodies::{function_with, variables_of};
pub use c_check_counts::{Next, name_of, push_tags, tag_names, tags_within};
pub use c_check_values::{C3, C13, CheckError, TypedExpression};
pub use environments::environment_before;
pub use forms::{declares_function, defines, place_of_declarator, place_of_expression};
pub use mains::has_main;
pub use outputs::{Output, add_function, add_object, no_output};
pub use programs::{main_number, program_with};
pub use scopes::{count_names, leave};
pub use strings::static_string;
pub use units::typed_program;
