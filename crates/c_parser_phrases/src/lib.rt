//! Readers of the phrases of the C profile: expressions (C99 6.5), specifiers (6.7.2, 6.7.3), declarators and the names
//! of types (6.7.5, 6.7.6), and initialisers (6.7.8). What is read spells the tree, places included, within the room
//! that is given, and what is left does not go on with it.
#![tactic(auto)]

mod cursor;
mod depth;
mod error;
mod form;
mod initialisers;
mod looking;
mod nodes;
mod operands;
mod phrases;
mod room;
mod specifiers;

pub use cursor::Cursor;
pub use error::PhraseError;
pub use room::Room;
