//! The marked functions of a program: the areas that they state, and what functions reach by calls.
mod areas;
mod calls;
mod marked;
mod reach;

pub use calls::callee_table;
pub use marked::marked_of;
pub use reach::reach_set;
