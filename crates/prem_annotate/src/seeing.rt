//! The walk over a function that gives what it accesses, and what it passes to others.
mod entering;
mod expression;
mod routine;
mod sight;
mod simple;
mod steps;

pub use expression::look;
pub use routine::{known_local, see_routine};
pub use sight::{Argument, GlobalAccess, Sight};
pub use steps::walk;
