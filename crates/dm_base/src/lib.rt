//! Types that every crate of dyckmon shares: events of a trace, patterns, outcomes, verdicts.
#![tactic(auto)]

mod bytes;
mod decimal;
mod event;
mod laws;
mod matching;
mod memory;
mod mode;
mod name;
mod outcome;
mod pattern;
mod sys_name;
mod verdict;

pub use bytes::Bytes;
pub use decimal::{read_u32, read_u64};
pub use event::{Arg, ArgList, Event};
pub use laws::depth_is_the_greatest_excess;
pub use matching::fits;
pub use memory::OutOfMemory;
pub use mode::Mode;
pub use name::is_name;
pub use outcome::{Kind, Outcome, TraceEnd};
pub use pattern::Pattern;
pub use sys_name::SysName;
pub use verdict::{Status, Step, Verdict};
