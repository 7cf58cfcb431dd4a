//! What statements and local declarations of the C profile give (C99 6.7, 6.8), over what their parts give: typed trees, and the
//! variables that are declared.
#![tactic(auto)]

mod around;
mod jumps;
mod labels;
mod scopes;
mod statement_tree;
mod statements;
mod switches;
mod variables;

pub use around::{Around, in_loop, in_switch};
pub use c_check_counts::{Next, name_of};
pub use jumps::{broken_off, continued, returned_value, returned_void};
pub use labels::are_distinct;
pub use scopes::{declare_variable, enter_block, leave_block, leave_names};
pub use statement_tree::{
    StatementTree, StatementTrees, Variables, all_found, alone, appended, bare, found,
    no_statements, pushed, variables_of_both, with_variables,
};
pub use statements::{block, if_else, only_if};
pub use switches::{Labelled, group_added, label_type, no_labelled, switch_laid, switched};
pub use variables::{laid_variable, past_part};
