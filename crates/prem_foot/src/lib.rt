//! The lines that a marked function touches while it is predictable, and whether they fit the cache.
#![tactic(auto)]

mod laws;
mod lines;
mod places;
mod runs;
mod sets;
mod want;

pub use laws::{places_are_exact, plans_stand};
pub use lines::{Lines, fits, footprint, most, ranges_of};
pub use places::{TaskPlaces, element_sizes, index_of, marked_functions};
pub use prem_plant::Plant;
pub use prem_split::IntervalPlan;
pub use runs::{line_count, line_end, lines_of, next_run};
pub use sets::{Conflict, counts_of};
pub use want::Want;
