//! What the instrumenter has to know: the marked sites, and the temporaries of their calls.
//!
//! - The sites of a program between null calls (Giffin, Jha and Miller 2004), with the types of what is called there.
//! - The temporaries of marked calls: their names, how their types are written (C99 6.7.5), and their declarations.
#![tactic(auto)]

mod callees;
mod declaring;
mod marked_sites;
mod names;
mod spelled;
mod table;
mod temporaries;

pub use c_syntax_nodes::{
    and_node, arrow_node, assign_node, binary_node, call_node, cast_node, comma_node, cond_node,
    copy_decl, copy_declarator, copy_enumerators, copy_expr, copy_ident, copy_labels, copy_members,
    copy_spec, copy_tag, copy_type_name, declared_node, function_node, index_node, int_node,
    member_node, name_node, or_node, param_node, post_dec_node, post_inc_node, pre_dec_node,
    pre_inc_node, unary_node,
};
pub use declaring::{declared, declared_alone};
pub use marked_sites::{Marked, MarkedSites};
pub use names::{argument_name, designator_name, post_name, pre_name, result_name};
pub use table::Called;
pub use temporaries::{Temporary, add_temporaries, is_kept};
