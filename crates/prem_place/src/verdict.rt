//! The rules on the lines, bounds and lengths of the marked functions of placed tasks.
mod bounds;
mod conflicts;
mod lengths;
mod told;
mod verdict;

pub use crate::placed::PlacedTask;
pub use bounds::bounds_of_all;
pub use conflicts::{first_conflict, footprints_of_all};
pub use lengths::first_short_interval;
pub use told::{TaskBounds, VerdictFail};
pub use verdict::{Blame, Verdict, function_name};
