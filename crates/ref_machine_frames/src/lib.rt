//! What a machine that runs a C program has left to do (C99 5.1.2.3): lists of frames, what they mean, and how a part of
//! the program is waited for.
//! A machine that runs a C program, in a statement: how it begins, how it goes on with a value or an exit, and how a loop is
//! tested (C99 6.8).
#![tactic(auto)]

mod answers;
mod cells;
mod exits;
mod frames;
mod rounds;
mod sequences;
mod statements;
mod switches;
mod values;
mod variables;
mod waiting;

pub use answers::{given, stopped};
pub use cells::{cells_in, struct_cells};
pub use exits::with_exit;
pub use frames::{
    After, Call, Callee, Choice, ExitFrame, Frame, Here, Left, Now, Pair, Parted, StatementFrame,
    Step, Storing, ValueFrame, Valued,
};
pub use ref_machine_steps::{
    Called, Fault, Request, StepError, behind, callee, comparing, computed, convert_value,
    difference, exit_status, function_behind, load_place, member, moved, operated, place,
    requested, set_parameters, static_objects, store_place, take_record, test, to_first,
    truth_value,
};
pub use rounds::test_loop;
pub use statements::begin_statement;
pub use values::in_statement;
pub use waiting::{wait, wait_for_statement, wait_in_statement};
