//! How long the jobs of a compiled set take at most, where each line that has room in the cache is counted once, when they end, and how
//! long the requests of devices wait.
//!
//! - `deadlines`: laws: sets that break no rule meet their deadlines by what their jobs take at most.
#![tactic(auto)]

mod answer;
pub mod deadlines;
mod devices;
mod laws;
mod limit;
mod lines;
mod loads;
mod promises;
mod top;
mod waits;
mod words;

pub use devices::{every_of, unknown_in};
pub use laws::{
    fitting_sets_end_in_time, late_devices_have_cause, late_sets_have_past, sets_keep_times,
    sets_serve_named,
};
pub use prem_answer::PlainStatus as TimeStatus;
pub use promises::{Promise, promises_of};
pub use top::time;
pub use words::{Distance, distances_in};
