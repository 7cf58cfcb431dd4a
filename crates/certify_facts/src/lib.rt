//! Certificates of verdicts: facts about a model and a trace, each with its reason, and what they show.
#![tactic(auto)]

mod certificate;
mod fact;
mod laws;

pub use certificate::Certificate;
pub use fact::{Fact, FactLine, Judge, Reason};
pub use laws::confirmed_verdicts_hold;
