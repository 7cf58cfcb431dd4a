//! What may come next after the events of a trace that a monitor keeps, and how that is written.
#![tactic(auto)]

mod called;
mod finding;
mod following;
mod laws;
mod standing;
mod writing;

pub use called::Called;
pub use finding::Found;
pub use following::{Followed, follow};
pub use laws::what_is_kept_next;
pub use standing::Standing;
pub use writing::push_next;
