//! Laws on the rules of the C profile (C99 6.4 to 6.9): what is typed is well-typed. It has no code but its laws.
//!
//! - The scopes of an instrumented unit beside those of the plain unit that it is made of (C99 6.2.1).
//! - What the rules of the C profile type is well-typed (C99 6.5 to 6.8).
//! - What the rules of the C profile type is a well-typed program (C99 6.9).
//! - Laws on the texts that the C profile accepts (C99 6.4 to 6.9), over the lexer's, the grammar's and the rules' definitions.
//! - A law on the rules of a C text (C99 6.5 to 6.9): they don't look at places.
//! - A law on the call expressions of a unit (6.5.2.2): they are the sites of its program.
#![tactic(auto)]

mod call_site_laws;
mod environment_laws;
mod place_laws;
mod program_laws;
mod text_laws;
mod unit_laws;

pub use call_site_laws::call_expressions_are_sites;
pub use environment_laws::parts_give_the_same_in_both_units;
pub use place_laws::units_are_typed_alike_apart_from_places;
pub use program_laws::a_typed_unit_is_a_program;
pub use text_laws::{
    a_plain_text_is_accepted_in_both_modes, a_plain_text_makes_no_null_call,
    a_text_is_accepted_as_one_program, accepted_texts_are_programs, accepted_texts_are_well_typed,
};
pub use unit_laws::{
    a_spelled_unit_is_lexical, expressions_are_well_typed, sites_are_in_order,
    statements_are_well_typed, units_are_well_typed,
};
