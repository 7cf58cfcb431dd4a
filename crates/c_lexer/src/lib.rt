//! The tokens of a text of the C profile (C99 6.4), or the first place at which no token goes on.
#![tactic(auto)]

mod error;
mod escape;
pub mod keyword;
mod laws;
mod lexer;
mod literal;
mod mark;
mod misfit;
mod number;
pub mod punctuator;
mod reading;
mod run;
mod token;
mod white;
mod word;
mod words;

pub use dm_base::{Bytes, OutOfMemory};
pub use error::LexError;
pub use laws::{
    a_keyword_has_the_number_of_its_name, a_punctuator_has_the_number_of_its_name,
    a_text_has_one_list_of_tokens, a_token_has_a_kind_that_is_spelled,
};
pub use lexer::tokens;
pub use token::{Token, TokenKind};
pub use words::{keyword_text, punctuator_text};
