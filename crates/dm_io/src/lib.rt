//! The outside as contracts can speak of it: stores, which give the bytes of files by their names,
//! and sinks, which take bytes.
#![tactic(auto)]

mod folder_store;
mod memory_sink;
mod memory_store;
mod plan;
mod sink;
mod std_sink;
mod store;
mod whole;
mod zeros;

pub use folder_store::FolderStore;
pub use memory_sink::{HonestSink, MemorySink};
pub use memory_store::{HonestStore, MemoryStore};
pub use sink::{Sink, WriteFail};
pub use std_sink::StdSink;
pub use store::{ReadFail, Store};
pub use whole::{ReadError, read_whole, write_whole};
