//! What commands on models and traces have in common: a model in a file, and a file of records that is read in pieces and followed.
#![tactic(auto)]

mod collected;
mod follower;
mod following;
mod models;
mod reading;
mod refusals;
mod trace_follower;

pub use follower::Follower;
pub use following::{events_in, follow_by};
pub use models::model_in;
pub use reading::{read_to_end, refused_with};
pub use tool_monitors::{AllMonitors, Asked, Judging, Pair, Panel, status_of, worse};
