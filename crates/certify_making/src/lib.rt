//! Certificates made: each fact that follows of a model and a trace, once, with its reason.
#![tactic(auto)]

mod deepest;
mod error;
mod facts;
mod making;
mod notes;
mod pairs;
mod saturating;
mod turn;

pub use error::CertifyError;
pub use making::certify;
