//! The call expressions of a unit of the C profile, one line each: number, kind, place, caller and candidates.
#![tactic(auto)]

mod lines;
mod site;

pub use lines::sites_text;
