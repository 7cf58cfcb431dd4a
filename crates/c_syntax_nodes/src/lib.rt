//! Nodes of the syntax trees of the C profile (C99 6.5 to 6.9), and copies of trees with all their places.
#![tactic(auto)]

mod copies;
mod declarators;
mod nodes;
mod parts;

pub use copies::{
    copy_declarator, copy_expr, copy_held_declarator, copy_ident, copy_spec, copy_type_name,
};
pub use declarators::{
    array_node, declared_node, function_node, param_node, pointer_node, type_name_node,
};
pub use nodes::{
    and_node, arrow_node, assign_node, binary_node, call_node, cast_node, comma_node, cond_node,
    index_node, int_node, member_node, name_node, or_node, post_dec_node, post_inc_node,
    pre_dec_node, pre_inc_node, sizeof_expr_node, sizeof_type_node, unary_node,
};
pub use parts::{copy_decl, copy_enumerators, copy_labels, copy_members, copy_tag};
