//! The codes with which texts are refused and those of undefined behaviour, each with its reason.
#![tactic(auto)]

mod reasons;

pub use reasons::{codes_text, reason_of};
