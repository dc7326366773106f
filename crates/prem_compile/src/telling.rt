//! What is told of a compiled set beside its image: the names of its parts, the bounds of its marked functions and jobs,
//! and the cycle by which its jobs have ended.
mod intervals;
mod laws;
mod names;
mod told;

pub use intervals::longest_of_tasks;
pub use laws::parts_are_there;
pub use names::{NamedParts, named_parts};
pub use prem_bounds::facts::IntervalFact;
pub use prem_list::Sequence;
pub use told::{Told, limit_of_set, told_bounds};
