//! The steps by which facts about a model and a trace follow from one another, as they are checked and
//! as they are found.
#![tactic(auto)]

mod checks;
mod reading;
mod stepping;

pub use checks::{
    ends_activation, goes_on, is_entered, is_linked, is_read, is_returned, is_silent, is_start,
    returned_along,
};
pub use stepping::{follow, is_within};
