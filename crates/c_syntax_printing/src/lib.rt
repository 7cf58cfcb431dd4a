//! The text of a unit of the C profile (C99 6.9), as it is printed, and how long it is, known before it is made; and laws on the grammar.
//!
//! - What a list of tokens spells, and where a phrase ends (C99 6.5, 6.7, 6.8, 6.9).
//! - Where no tokens can go on: what it means that a phrase of the grammar fails at a token, how failures of parts become those of the
//!   whole, and what is left of statements and operands after their first token (C99 6.5, 6.8).
//! - Where tokens go on past the limits of nesting, in statements, declarations, items and units: a node or a pair too many in a part is
//!   one in the whole (C99 6.7 to 6.9).
//! - Units that can be written (C99 6.4): those that tokens spell are such, and their printed texts are read back.
#![tactic(auto)]

mod declaration_lengths;
mod expression_lengths;
mod grammar_laws;
mod item_lengths;
mod laws;
mod openings;
mod printing;
mod refusals;
mod statement_lengths;
mod token_lengths;
mod unit_lengths;

pub use grammar_laws::{
    a_list_of_tokens_has_one_unit, a_phrase_is_a_front, more_pairs_read_as_much,
};
pub use laws::{
    spelled_units_are_writable, writable_units_are_read_back, writable_units_are_units,
};
pub use openings::{
    a_body_opens_past_the_limits, a_declaration_opens_past_the_limits,
    a_unit_goes_on_past_the_limits, an_item_opens_past_the_limits,
    an_operand_opens_past_the_limits,
};
pub use printing::print;
pub use refusals::{
    a_block_fails_where_an_item_fails, a_declaration_fails_where_a_part_fails,
    a_declarator_fails_where_a_part_fails, a_declarator_opens_past_the_limits,
    a_statement_fails_where_its_rest_fails, a_statement_opens_past_the_limits,
    a_switch_fails_where_a_group_fails, a_unit_fails_where_an_item_fails,
    an_expression_opens_past_the_limits, an_initialiser_fails_where_a_part_fails,
    an_item_fails_where_a_part_fails, an_operand_fails_at_its_first_token,
    an_operand_fails_where_its_rest_fails, an_operator_fails_where_its_operand_fails,
    labels_and_heads_fail_where_a_part_fails, no_unit_is_spelled_where_units_fail,
    parameters_fail_where_one_fails, specifiers_fail_where_a_word_fails,
    suffixes_fail_behind_what_is_read,
};
pub use unit_lengths::is_within;
