//! The annotations that a task set needs, and the answer to `prem_annotate SET TASK`.
#![tactic(auto)]

mod answer;
mod laws;
mod lengths;
mod noted;
mod others;
mod set;
mod top;
mod words;

pub use laws::{
    annotated_bounds_stay, annotated_sets_stay, lengths_follow_no_length, runs_follow_no_place,
    sets_are_annotated,
};
pub use set::annotate_set;
pub use top::annotate;
