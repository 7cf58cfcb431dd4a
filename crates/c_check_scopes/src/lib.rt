//! Parts of the checker: names with a meaning of their own, sizes and structs, and scopes (C99 6.2.1, 6.2.6.1, 6.7.2.1, 7.1.3).
//!
//! - Names with a meaning of their own in the C profile: those that are reserved (C99 7.1.3), those of the instrumenter, and those of the
//!   functions that have no definition, with their types.
//! - The structs that a unit of the C profile defines, and the cells and bytes of objects (C99 6.2.6.1, 6.5.3.4, 6.7.2.1).
//! - Scopes of the C profile (C99 6.2.1): what the names of a unit mean where a part of it stands, found in a time that doesn't grow with
//!   their number.
#![tactic(auto)]

mod before;
mod environment;
mod extents;
mod few_names;
mod fronts;
mod meaning;
mod measures;
mod numbering;
mod predeclared;
mod predeclared_type;
mod reserved;
mod scopes;
mod structs;

pub use before::{Before, nothing_before};
pub use environment::{Context, Environment};
pub use extents::Extent;
pub use few_names::FewNames;
pub use meaning::Meaning;
pub use numbering::Numbering;
pub use predeclared::{given_number, is_given, is_null_call};
pub use predeclared_type::has_given_type;
pub use reserved::{is_added, is_reserved, is_temporary, may_be_declared};
pub use scopes::{Entry, Scopes};
pub use structs::{StructMember, StructTable};
