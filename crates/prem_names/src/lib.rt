//! The names of a program: what has a name at a place of a function, found by an index and without a walk.
//!
//! - `reach`: which functions of a program the marked ones reach by calls.
#![tactic(auto)]

mod index;
mod names;
pub mod reach;

pub use index::Index;
pub use names::Names;
