//! The program's outside: its words, stores that give files and sinks that take bytes, each with a count of its faults.
//!
//! Programs are generic over a `Store` and a `Sink`. `DiskStore` and `OutSink` are the computer's own: what
//! its files hold and what its output received is trusted. The others stand in for them in memory.
#![tactic(auto)]

mod file_map;
mod host;
mod memory_sink;
mod memory_store;
mod sink;
mod store;
mod words;

pub use file_map::FileMap;
pub use host::{DiskStore, OutSink};
pub use memory_sink::{MemorySink, SteadySink};
pub use memory_store::{MemoryStore, SteadyStore};
pub use sink::{Sink, SinkFailed};
pub use store::{Store, StoreFail};
pub use words::{WordsFault, words_of};
