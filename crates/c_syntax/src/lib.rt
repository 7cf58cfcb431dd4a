//! The syntax of the C profile (C99 6.5, 6.7, 6.8, 6.9): the tree of a unit, which tokens spell it, and the
//! text that stands for it.
#![tactic(auto)]

mod tree;
mod unit;

pub use tree::{
    BlockItem, Decl, DeclPart, Declarator, DeclaratorKind, Enumerator, Expr, ExprKind, ForFirst,
    Group, Ident, Init, InitKind, Item, ItemKind, Label, LabelKind, Member, Param, Spec, Stmt,
    StmtKind, Storage, TypeName,
};
pub use unit::Unit;
