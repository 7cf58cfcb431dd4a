//! Schedules of a fleet: which processes run together, and in which order they are advanced.
#![tactic(auto)]

mod error;
mod line;
mod line_reading;
mod pids;
mod process_reading;
mod reading;
mod schedule;

pub use error::ScheduleError;
pub use line::Line;
pub use reading::read_schedule;
pub use schedule::Schedule;
