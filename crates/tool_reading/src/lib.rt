//! The commands that read a model file, a model with a trace, or no file: `codes`, the codes with their reasons; `picture`, the picture of
//! a model; `depth`, how many calls of a model may be open at once; `inline`, a model without calls that has the same words; `expected`, the
//! verdicts of monitors on a trace, and after each what may come next; `certify` and `confirm`, by which a certificate of a verdict is made
//! of the model and the trace in files, and is confirmed against them.
#![tactic(auto)]

mod certificates;
mod certify_command;
mod certifying;
mod codes_command;
mod confirm_command;
mod confirming;
mod depth_command;
mod depth_text;
mod expecting;
mod expects_command;
mod inline_command;
mod inline_text;
mod lines;
mod picture_command;

pub use certify_command::certify_trace;
pub use codes_command::tell_codes;
pub use confirm_command::confirm_certificate;
pub use depth_command::depth_of_model;
pub use expects_command::expected_command;
pub use inline_command::inlined_model;
pub use picture_command::picture_of_model;
