//! The commands `audit` and `selftest`: a C text, or one that is generated, is instrumented and run with recorded results, and the trace is
//! judged by the monitors of the text's own model (Wagner and Dean 2001; Giffin, Jha and Miller 2004).
#![tactic(auto)]

mod audit;
mod following;
mod programs;
mod reports;
mod selftest;
mod summary;

pub use audit::{Audited, audit_program, audit_source};
pub use headline::{texts_keep_the_headline, texts_raise_no_alarm};
pub use selftest::self_test;
pub use tool_steps::{Source, SourceError, read_source};
