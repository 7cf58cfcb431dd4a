//! Parts of the checker: unary operators, casts, assignments, steps and the comma (C99 6.5.2.4, 6.5.3, 6.5.4, 6.5.16, 6.5.17).
//!
//! - Unary operators, `sizeof` and casts of the C profile (C99 6.5.3, 6.5.4): what they give, and the demands on them.
//! - Assignments, steps and the comma of the C profile (C99 6.5.2.4, 6.5.3.1, 6.5.16, 6.5.17): their types, their typed trees, and the
//!   demands on them. None of them is constant.
#![tactic(auto)]

mod assignments;
mod comma;
mod operators;
mod sides;
mod steps;
mod updates;

pub use assignments::{assignable, assignment_by};
pub use comma::comma_of;
pub use operators::{
    address, cast_of, indirection, null_cast, size_of_expression, size_of_type, unary_of_value,
};
pub use steps::step;
