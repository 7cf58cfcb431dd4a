//! Verdicts that can be checked: a certificate is confirmed against its model and its trace, whoever
//! made it.
#![tactic(auto)]

mod claim;
mod closed;
mod confirming;
mod ends;
mod error;
mod known;
mod reasons;

pub use closed::start_of;
pub use confirming::confirm;
pub use error::ConfirmError;
