//! Bounds on the cycles of marked functions and of jobs.
//!
//! - `counts`: how many outputs and marked calls a job has at most, by the turns of its loops.
//! - `facts`: what is told of the predictable intervals of a placed task, and the rules that they break.
//! - `scale`: what instructions and called parts weigh.
//! - `stretches`: four sums of cycles, which tell the greatest stretches of paths, and how they go together.
//! - `weights`: the greatest weight over the paths of pieces.
#![tactic(auto)]

mod bounds;
pub mod counts;
pub mod facts;
mod intervals;
mod laws;
mod reach;
pub mod scale;
pub mod stretches;
mod table;
pub mod weights;

pub use bounds::{BoundTooLarge, bound, bound_by, job_bound, stub_costs};
pub use intervals::{line_cost, longest, marked_sums};
pub use laws::stubs_are_in_order;
pub use table::CodeTable;
