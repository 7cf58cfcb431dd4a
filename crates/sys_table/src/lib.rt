//! The system calls of the C profile: their names, and what a trace, a model and a file of results
//! may hold of them.
#![tactic(auto)]

mod answering;
mod event;
mod kinds;
mod laws;
mod name_reading;
mod pattern;
mod results;
mod results_error;
mod results_line;
mod results_writing;
mod sys_result;
mod table;

pub use answering::answers;
pub use event::recorded;
pub use kinds::{ArgKind, ResultKind};
pub use laws::one_list_of_results;
pub use name_reading::take_call_name;
pub use pattern::is_right;
pub use results::read_results;
pub use results_error::ResultsError;
pub use results_writing::write_results;
pub use sys_result::SysResult;
pub use table::{argument_kinds, find, name_text, result_kind};
