//! Parts of the checker: structs, enums, and declarations of objects and functions at file scope (C99 6.7, 6.9.2).
#![tactic(auto)]

mod enums;
mod globals;
mod members;
mod objects;
mod parts;
mod structs;

pub use enums::enum_item;
pub use parts::add_parts;
pub use structs::{struct_item, tag_item};
