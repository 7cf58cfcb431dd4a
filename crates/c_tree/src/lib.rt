//! Typed trees of the C profile (C99 6.2.5, 6.5, 6.7, 6.8): types, values, expressions, statements and programs, which
//! of them are well-typed, and what operators give.
#![tactic(auto)]

mod copying;
mod laws;
mod layout;
mod program;
mod prototypes;
mod same;
mod tree;
mod value;

pub use copying::{copy_type, copy_types};
pub use dm_base::{Kind, OutOfMemory};
pub use laws::{operators_keep_types, patterns_are_right};
pub use layout::cells_of;
pub use program::Program;
pub use prototypes::{Prototype, PrototypeType, all_prototypes, system_prototypes};
pub use same::is_same;
pub use tree::{
    CType, Function, Static, StructMembers, TExpr, TExprKind, TGroup, TInit, TLabel, TStmt,
};
pub use value::{BinOp, IntType, ObjectName, Pointer, UnOp, Value};
