//! The headline as one law over definitions, and what is known of the runs of accepted texts. It has no code but its laws.
//!
//! - What is known of the runs of a C text that the profile accepts.
//! - The headline as one law over definitions.
#![tactic(auto)]

mod accepted_runs;
mod laws;

pub use accepted_runs::texts_raise_no_alarm;
pub use laws::texts_keep_the_headline;
pub use null_calls_laws::{
    instrumented_texts_run_marked, instrumented_units_are_lexical, instrumented_units_are_units,
};
