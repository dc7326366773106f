//! All outputs and intervals of a task set, and the cycle by which its jobs have ended.
mod ending;
mod logs;

pub use ending::limit;
pub use logs::{LogRule, full_log};
