//! The co-scheduler: which task of a set the core runs next, or how long it idles.
#![tactic(auto)]

mod sched;

pub use prem_plant::TaskId;
pub use sched::{Choice, Sched};
