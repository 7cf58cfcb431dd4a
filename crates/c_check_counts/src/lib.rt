//! What is known of a unit of the C profile from its syntax alone: the names that declarators declare, the numbers of the
//! variables of a function, the functions and objects that the unit defines, the tags of structs in the order of their
//! numbers (C99 6.7.2.3), and the call expressions: where each stands, and in which function (6.5.2.2).
#![tactic(auto)]

mod call_place;
mod calls_in_declarations;
mod calls_in_expressions;
mod calls_in_statements;
mod calls_in_units;
mod gather;
mod names;
mod numbers;
mod tags;
mod unit_tags;
mod units;

pub use c_check_scopes::{Before, Context, Environment, Meaning, is_added, nothing_before};
pub use call_place::CallPlace;
pub use calls_in_units::places_of_calls;
pub use names::{bytes_of_name, name_of};
pub use numbers::{Next, first_numbers};
pub use unit_tags::{push_tags, tag_names, tags_of, tags_within};
pub use units::{functions_of, objects_of};
