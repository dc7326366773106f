//! The words of a task's code at its places, or the first part that has a jump out of reach.
mod flat;
mod laws;

pub use flat::{FlatFail, flatten_parts, put_parts};
pub use laws::{blocks_have_words, reach_is_lowest};
