//! The parts of all tasks and devices of a set, and their places in memory.
mod coded;
mod laws;
mod places;
mod sizes;

pub use coded::CodedTask;
pub use laws::{
    parts_are_exact, programs_may_have_plans, sets_may_have_parts, tasks_may_have_parts,
};
pub use places::place;
pub use sizes::set_parts;
