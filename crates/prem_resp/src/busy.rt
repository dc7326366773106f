//! How long the jobs of a task may take where intervals aren't preempted.
mod laws;
mod length;
mod load;

pub use laws::jobs_end_in_time;
pub use length::{Busy, blocking, busy_length};
pub use load::Load;
