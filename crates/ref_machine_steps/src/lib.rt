//! What the machine does without evaluating anything, and the objects of a run (C99 6.2.4, 6.5).
//!
//! - What a run of a C program does without evaluating anything: steps on values, places and pointers over memory, and system calls.
//! - The objects of a run of a C program over memory (C99 6.2.4): those that stand before it, parameters, and variables that end.
#![tactic(auto)]

mod buffers;
mod conditions;
mod fault;
mod objects;
mod operators;
mod places;
mod pointers;
mod records;
mod requests;
mod step_error;
mod values;

pub use buffers::{bytes_of_buffer, room_for, string};
pub use conditions::test;
pub use fault::Fault;
pub use objects::{end_variables, set_parameters, static_objects};
pub use operators::{comparing, computed, convert_value, operated};
pub use places::{behind, function_behind, load_place, member, place, store_place, to_first};
pub use pointers::{compared, difference, moved};
pub use records::{Called, take_record};
pub use requests::{Request, exit_status, requested};
pub use step_error::StepError;
pub use values::{callee, number, pointer, truth_value};
