//! Parts of the checker: declared names, objects, parameters, and members of structs and enums (C99 6.2.1, 6.7, 6.9).
//!
//! - Declared names of the C profile (C99 6.2.1, 6.7, 6.9): the demands on the names of functions, static objects and tags, and what is
//!   known behind their declarations.
//! - Declared objects and members of the C profile (C99 6.7, 6.7.2.1, 6.7.8, 6.9.2): their types and sizes, the demands on static ones, and
//!   what is known behind their declarations.
//! - Parameters of functions of the C profile (C99 6.7.5.3, 6.9.1): those of a definition, and the scope of its body behind them.
//! - Definitions of structs and enums of the C profile (C99 6.7.2.1, 6.7.2.2): the demands on their members and enumerators, over the types
//!   and constants that these have.
#![tactic(auto)]

mod declared;
mod definitions;
mod enumerators;
mod functions;
mod globals;
mod laid;
mod members;
mod objects;
mod parameters;
mod scopes;
mod sizes;
mod tags;
mod types;

pub use c_check_values::{C3, CheckError, TypedExpression, condition};
pub use declared::{declare, declared_here};
pub use definitions::{count_object, static_object, without_init};
pub use enumerators::{enumerator_constant, enumerator_value, next_value};
pub use functions::{declare_function, function_meaning};
pub use globals::{declare_behind, declare_within, global_object};
pub use laid::{define_struct, struct_laid};
pub use members::new_member;
pub use objects::{is_defined_behind, object_name};
pub use parameters::{are_named, body_numbers, parameters_of};
pub use scopes::enter_body;
pub use sizes::with_size;
pub use tags::{declare_enum, new_enum, new_struct, tag_declaration};
pub use types::{Object, member_typed, object_of};
