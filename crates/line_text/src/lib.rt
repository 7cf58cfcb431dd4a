//! Line texts: lines of words with one space between them, each line ended by a line feed. What their
//! readers have in common: canonical numbers, bytes in hexadecimal, lines, and where a text stops to
//! begin a formed one.
#![tactic(auto)]

mod cursor;
mod decimal;
mod hexadecimal;
mod integer;
mod line;
mod miss;
mod push;
mod version;

pub use cursor::Cursor;
pub use dm_base::{Arg, ArgList, Bytes, Event, OutOfMemory, Pattern, SysName};
pub use line::first_line;
pub use miss::Miss;
pub use push::{push_bytes, push_decimal, push_hexadecimal, push_signed};
pub use version::version_of;
