//! The response test of a compiled set: where it says yes, all jobs end within their periods.
//!
//! - `busy`: how long the jobs of a task may take where intervals aren't preempted.
//! - `deadline`: the jobs of a run of tasks with scripts take what their scopes are charged, and end in time.
//! - `timed`: the jobs of an image whose tasks join end in time, by what their scopes are charged and at their pace.
//! - `timely`: the jobs of a compiled set end in time where the busy periods of its loads are within the periods.
#![tactic(auto)]

mod answer;
pub mod busy;
pub mod deadline;
mod laws;
mod lines;
mod loads;
pub mod timed;
pub mod timely;
mod top;
mod words;

pub use laws::fitting_sets_end_in_time;
pub use lines::all_within;
pub use loads::busy_periods;
pub use prem_answer::PlainStatus as FitStatus;
pub use top::fit;
