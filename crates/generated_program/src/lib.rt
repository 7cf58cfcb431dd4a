//! The program that the tool makes to try itself: C text with a chain of calls that is drawn from a number, and recorded results for its
//! run. Laws on it: its text is accepted by the rules of the C profile, as the program in closed form; how large its model is, and how
//! many of its calls may be open at once.
#![tactic(auto)]

mod bounds_laws;
mod records;
mod text_laws;
mod texts;

pub use bounds_laws::{generated_calls_descend, generated_programs_are_small};
pub use records::generated_results;
pub use text_laws::generated_texts_are_accepted;
pub use texts::generated_text;
