//! Trace files: the events of one process, and the interleaved records of many; read in pieces and
//! written.
#![tactic(auto)]

mod call;
mod child;
mod ending;
mod error;
mod event_writing;
mod laws;
mod lines;
mod pieces;
mod processes;
mod record;
mod trace_place;
mod trace_reader;
mod traces_place;
mod traces_reader;
mod version;
mod writing;

pub use child::child_of;
pub use error::TraceError;
pub use laws::{one_list_of_records, one_trace};
pub use record::Record;
pub use trace_reader::TraceReader;
pub use traces_reader::TracesReader;
pub use version::TracesVersion;
pub use writing::{event_text, outcome_text, write_trace, write_traces};
