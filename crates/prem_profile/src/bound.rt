//! What the bound of a job is made of: its bill, item by item, on the path that counts most.
//!
//! - `bill`: items, and bills of these.
//! - `calling`: whether code calls functions.
//! - `gathering`: bills with one item for each spot.
//! - `pieces`: the bill of pieces at a place.
//! - `spreading`: that of a path with the items of the functions that it calls.
//! - `scope`: that of code as one scope.
//! - `least`: those of statements without marked calls.
//! - `parted`: those of statements with marked calls.
//! - `task`: those of the functions of a task, and of a job.
//! - `set`: a compiled set with the bill of one job of each of its tasks.
//! - `text`: the profile of a bill.
mod bill;
mod calling;
mod gathering;
mod laws;
mod least;
mod parted;
mod pieces;
mod scope;
pub mod set;
mod spreading;
mod task;
pub mod text;

pub use laws::{
    bill_rows_add_up, bills_add_up, bills_are_gathered, bounds_add_up, set_bills_add_up,
};
