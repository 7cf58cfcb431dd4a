//! Places in C texts as a preprocessor leaves them: the file, the line and the column of a byte, and the part of its line to show.
#![tactic(auto)]

mod excerpt;
mod laws;
mod location;
mod locator;
mod marker;
mod writing;

pub use excerpt::{Excerpt, excerpt_at};
pub use laws::{locations_are_places, marker_lines};
pub use location::Location;
pub use locator::{Locator, locate};
pub use writing::{push_location, push_shown};
