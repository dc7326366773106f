//! The order in which lines and ways of a cache's set go, the rules of replacement, and what they have in common.
mod laws;

pub use laws::{each_line_misses_once, passes_bring_all_in, rules_go_by_places};
