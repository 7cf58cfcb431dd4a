//! The instrumenter, as a definition: the unit with null calls round its marked calls, in the manner of Giffin, Jha and Miller
//! ("Efficient Context-Sensitive Intrusion Detection", NDSS 2004), and the program that it is typed as; and what holds of them. It has
//! no code but its laws.
//!
//! - What is counted in a unit with null calls round its marked calls: numbers, heights, and the tags of structs (C99 5.2.4.1, 6.7.2.3).
//! - Expressions, calls, initialisers, declarations, statements and items of an instrumented unit beside the plain ones (C99 6.5, 6.7,
//!   6.8, 6.9), and definitions of functions, which begin with the declarations of the temporaries of their marked calls (C99 6.9.1).
//! - The names of the instrumenter's temporaries, and how their types are written (C99 6.7.5).
//! - The instrumented unit of each typed unit is typed, as a program that is the plain one with null calls round its marked calls.
//! - The instrumented unit of each typed unit that a text spells is one that some tokens spell, with constants in range and strings no
//!   longer than a text (C99 6.4.4, 6.4.5), so that its printed text is read back.
//! - What the instrumented text of a C text is accepted as, and what its program does: what the plain one does but for null calls.
#![tactic(auto)]

mod call_laws;
mod call_sites;
mod counts;
mod declaration_laws;
mod expression_laws;
mod functions;
mod head_laws;
mod heights;
mod initialiser_laws;
mod instrumented_texts;
mod item_laws;
mod laws;
mod lexical_units;
mod pieces;
mod rule_laws;
mod runs;
mod spelled_types;
mod statement_laws;
mod tags;
mod temporary_names;
mod text_laws;
mod unit_laws;

pub use c_meaning::{marked_runs_are_runs, monitors_accept_runs, runs_raise_no_alarm};
pub use c_rules_laws::{a_plain_text_makes_no_null_call, units_are_typed_alike_apart_from_places};
pub use call_laws::{
    calls_are_within, calls_go, expressions_go, kept_arguments_go, kept_values_are_given,
    null_calls_are_made, nulls_have_their_types, temporaries_are_read, temporaries_are_set,
    unmarked_calls_go, values_fit_their_types,
};
pub use call_sites::bodies_are_tabled;
pub use counts::{blocks_stay, counts_stay, places_stay_near, statements_stay};
pub use declaration_laws::{declarations_go, firsts_go, numbers_stay};
pub use expression_laws::expressions_go_where_calls_do;
pub use functions::definitions_go;
pub use head_laws::heads_go;
pub use heights::{blocks_stay_low, expressions_stay_low};
pub use initialiser_laws::{blocks_stand_beside, initialisers_go, temporaries_stay};
pub use instrumented_texts::instrumented_texts_are_accepted;
pub use item_laws::other_items_go;
pub use laws::sites_change_nothing;
pub use lexical_units::instrumented_units_are_lexical;
pub use pieces::added_pieces_do;
pub use rule_laws::{choices_follow, operands_follow, pairs_follow};
pub use runs::{instrumented_raise_no_alarm, instrumented_run_marked};
pub use spelled_types::{temporaries_are_declared, types_are_spelled};
pub use statement_laws::{blocks_go, statements_go};
pub use tags::tags_stay;
pub use temporary_names::temporaries_have_names;
pub use text_laws::{instrumented_texts_are_read_back, instrumented_units_are_units};
pub use unit_laws::{instrumented_texts_run_marked, instrumented_units_are_typed};
