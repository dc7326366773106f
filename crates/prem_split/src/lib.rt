//! The predictable intervals of a program: what has to be known of each marked function before parts have places.
#![tactic(auto)]

mod analysed;
mod facts;
mod laws;
mod plan;
mod plans;
mod tables;
mod walk;

pub use analysed::intervals;
pub use facts::{FunctionFacts, facts_of};
pub use laws::plans_are_exact;
pub use plan::IntervalPlan;
pub use plans::intervals_of;
pub use prem_list::Sequence;
pub use prem_plant::FnId;
pub use tables::{greatest, value_at};
pub use walk::frame;
