//! What a program of the C profile does, and what is made of it without code: the shapes of its functions, and the words and walks that
//! may be read through them; the graph of the shapes, whose languages are those of the shapes; and how many calls may be open at once
//! where calls go to functions of a lower rank alone. Definitions, and laws on them.
//!
//! - In a well-typed program each value has the kind of its type (C99 6.2.5).
//! - What a part of a well-typed program does depends on no object to which no pointer leads.
//! - The turns of a run, and runs of a program with null calls beside those without.
//! - No false alarm: what a program does is in its languages (Wagner and Dean 2001).
#![tactic(auto)]

mod alarms;
mod depth_laws;
mod further_objects;
mod graph_laws;
mod laws;
mod shape_laws;
mod turns;
mod values;

pub use alarms::{marked_runs_are_runs, monitors_accept_runs, runs_raise_no_alarm};
pub use depth_laws::open_calls_are_bounded;
pub use further_objects::further_objects_change_nothing;
pub use graph_laws::{
    graph_has_the_words, graph_is_valid, program_graph_has_the_words, program_graph_is_valid,
};
pub use laws::{more_changes_nothing, null_calls_change_nothing, records_are_judged};
pub use shape_laws::{
    exits_stay_inside, languages_are_nested, rounds_are_enough, words_are_joined, words_have_fronts,
};
pub use turns::turns_are_enough;
pub use values::{callees_are_candidates, values_have_kinds};
