//! The lines in which verdicts and the precision of a model are told, and how precise it is.
#![tactic(auto)]

mod lines;
mod next;
mod precision;
mod process_lines;
mod trials;

pub use lines::{name_of, next_line, precision_line, verdict_line};
pub use next::next_names;
pub use precision::{Meter, Precision, measure};
pub use process_lines::{sum_line, window_lines};
