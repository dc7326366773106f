//! What is told of the predictable intervals of a placed task, and the rules that they break.
mod facts;
mod large;
mod laws;
mod lines;

pub use facts::{IntervalFact, fact, first_short};
pub use large::first_large;
pub use laws::{clash_is_first, large_is_first, short_is_first};
pub use lines::{Clash, first_clash, footprints};
