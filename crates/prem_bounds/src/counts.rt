//! How many outputs and marked calls a job has at most, by the turns of its loops.
mod count;
mod sum;
mod table;

pub use sum::{plus, times};
pub use table::{marked_calls, outputs};
