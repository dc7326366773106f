//! What jobs of a compiled set take at most, and when their intervals open the bus.
//!
//! - `outline`: the statements of a function with their code, cut out of the function's pieces.
//! - `crowd`: the lines of ranges of bytes, and which sets of the cache have room for them.
//! - `walk`: the greatest weight over paths where an instruction's place adds to its weight.
//! - `count`: totals and stretches of paths with marked calls.
//! - `scene`: what is known of a task at the code of a function.
//! - `scope`: the charge of code that runs as one scope.
//! - `least`: least charges of statements without marked calls.
//! - `parted`: charges of statements with marked calls.
//! - `facts`: what is known of the functions of a placed task.
//! - `task`: what a job of a placed task takes at most.
//! - `opens`: when the intervals of marked functions open the bus.
//! - `timed`: a compiled set with what its jobs take.
#![tactic(auto)]

pub mod count;
pub mod crowd;
pub mod facts;
mod laws;
pub mod least;
pub mod opens;
pub mod outline;
pub mod parted;
pub mod scene;
pub mod scope;
pub mod task;
pub mod timed;
pub mod walk;

pub use laws::{cuts_are_outlines, functions_are_cut, outlines_count, slices_are_outlines};
pub use timed::{IntervalTime, TaskTimes, Timed, time_set};
