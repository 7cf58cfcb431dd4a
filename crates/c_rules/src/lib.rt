//! The rules of the C profile (C99 6.2 to 6.9), as a definition: the program that a unit is typed as, or the demands on it
//! that fail. It has no code but its laws.
#![tactic(auto)]

mod laws;

pub use c_syntax::{Expr, ExprKind};
pub use laws::{
    a_plain_program_calls_no_null_call, a_plain_unit_is_typed_alike_in_both_modes,
    a_typed_unit_violates_no_rule, a_unit_is_typed_or_violates_a_rule, a_unit_types_one_program,
};
