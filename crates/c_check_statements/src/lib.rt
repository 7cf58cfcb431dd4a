//! Statements and local declarations of the C profile (C99 6.7, 6.8): the demands on them, and their typed trees.
#![tactic(auto)]

mod bodies;
mod declarations;
mod heads;
mod labels;
mod locals;
mod loops;
mod statements;

pub use bodies::body_of;
pub use c_check_bodies::StatementTrees;
pub use c_check_declarations::{
    Object, are_named, body_numbers, count_object, declare, declare_behind, declare_enum,
    declare_function, declare_within, define_struct, enter_body, enumerator_constant,
    enumerator_value, function_meaning, global_object, member_typed, new_enum, new_member,
    new_struct, next_value, object_of, parameters_of, static_object, struct_laid, tag_declaration,
    without_init,
};
pub use c_check_expressions::{folded_value, initialised_static, new_name, type_declared};
pub use c_check_scopes::{Before, Environment, Meaning, Numbering, StructMember};
pub use declarations::local_decl;
pub use statements::statement;
