//! Laws: least charges of code, which count each line that has room in its set of the cache once.
#![tactic(auto)]

mod laws;

pub use laws::{
    calls_divide, functions_course, functions_divide, longest_is_within, names_are_all,
    quiet_jobs_divide, quiet_starts_are_scopes, runs_are_within_place_weights, scenes_stand,
    steps_are_scopes, steps_course, steps_divide, wcet_is_within,
};
