//! Expressions with null calls round their marked calls (Giffin, Jha and Miller 2004).
#![tactic(auto)]

mod expressions;
mod marked;
mod operands;
mod wanted;

pub use expressions::expression;
pub use null_calls_temporaries::{
    MarkedSites, Temporary, copy_decl, copy_declarator, copy_enumerators, copy_ident, copy_labels,
    copy_members, copy_spec, copy_tag, declared, declared_alone, declared_node, function_node,
    param_node, post_name, pre_name,
};
