//! How many calls of a model may be open at once, and a model without calls that has the same words (Wagner and Dean 2001).
//!
//! - Which calls may be open together, the copies of functions, and the model in which they are inlined: definitions, and laws of them.
//! - The openings of a model: by which calls its functions go on, since the edge leaves a node that is reached from the entry while no
//!   other function stays entered.
//! - The copies of which an inlined model consists, depth first, and its edges, drawn copy by copy.
#![tactic(auto)]

mod answer;
mod building;
mod calling;
mod copied;
mod copy_failure;
mod copying;
mod depths;
mod drawing;
mod failure;
mod growing;
mod inlining;
mod laws;
mod path;
mod reading;
mod search;
mod sites;
mod sorting;
mod stack;
mod table;
mod turns;
mod within;

pub use answer::depth;
pub use calling::draw_sys;
pub use copied::Copied;
pub use copy_failure::CopiesError;
pub use copying::copies;
pub use depths::Depth;
pub use drawing::draw_silent;
pub use failure::InlineError;
pub use growing::count_nodes;
pub use inlining::inline;
pub use laws::{chains_are_open_sites, cycles_go_round, inlining_keeps_words};
pub use sites::Sites;
pub use sorting::in_order;
pub use table::{Entry, entries_of, next_place, openings};
