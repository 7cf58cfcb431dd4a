//! Parts of the checker: typed expressions, constants and conversions (C99 6.3, 6.5, 6.6).
//!
//! - What the check of an expression of the C profile gives (C99 6.3, 6.5), and what a checker answers.
//! - Constants of the C profile (C99 6.6): what operators give of constant operands.
//! - Conversions of the C profile (C99 6.3): of places to values, of integers, and as if by assignment.
#![tactic(auto)]

mod addresses;
mod codes;
mod conversions;
mod error;
mod integers;
mod limits;
mod operators;
mod typed_expression;
mod types;
mod values;

pub use addresses::{
    address_of_static, constant_member, constant_moved_back, constant_moved_on, static_address,
};
pub use c_check_scopes::{
    Before, Context, Environment, FewNames, Meaning, Numbering, Scopes, StructMember, StructTable,
    given_number, has_given_type, is_added, is_given, is_null_call, may_be_declared,
    nothing_before,
};
pub use c_tree::{CType, IntType, Value, copy_type};
pub use c_values::convert;
pub use codes::{C1, C2, C3, C4, C5, C6, C7, C8, C9, C10, C11, C12, C13, C14};
pub use conversions::{as_if_assigned, assigned, complete, condition, fits, valued};
pub use error::CheckError;
pub use integers::{cast_to, common, converted_to, promoted};
pub use limits::few_cells;
pub use operators::{
    constant_and, constant_binary, constant_conditional, constant_converted, constant_or,
    constant_unary, number_of,
};
pub use typed_expression::{Constant, Form, TypedExpression, is_zero, typed_value};
pub use types::{
    few_parts, is_function, is_integer, is_result, is_scalar, is_void, pointer_to, same_type,
};
pub use values::{loaded, null_of, typed_unsigned};
