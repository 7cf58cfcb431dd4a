//! Model files: the text of a model, read and written.
#![tactic(auto)]

mod call_line;
mod draft;
mod error;
mod function_line;
mod laws;
mod line_writing;
mod lines;
mod pattern_words;
mod place;
mod reading;
mod silent_line;
mod single;
mod sys_line;
mod version;
mod words;
mod writing;

pub use error::{ModelError, WriteModelError};
pub use laws::a_text_has_one_model;
pub use reading::read_model;
pub use version::ModelVersion;
pub use writing::write_model;
