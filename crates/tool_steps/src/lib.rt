//! What commands on C texts have in common: C texts in files, read, and refused where they are no programs of the profile (C99 6.2 to
//! 6.9); the records of a file; and the model of a program.
#![tactic(auto)]

mod error;
mod modelling;
mod reading;
mod refusals;
mod results;
mod source;
mod text_refusals;

pub use c_check::check;
pub use error::SourceError;
pub use modelling::{graph_text, model_of};
pub use reading::{read_source, source_in};
pub use ref_machine::{Machine, Next, Run, next_event, run};
pub use results::results_in;
pub use source::Source;
pub use text_refusals::refused_with;
