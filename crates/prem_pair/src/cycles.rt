//! Two cores with a cache and a memory each, the devices of the first, and the one bus that goes by a token.
mod laws;
mod state;

pub use laws::{apart_cycles_are_own, pair_rests_come_to_one_step, pair_runs_compose};
pub use prem_cycle::{Cause, Facts};
pub use state::{Holder, PairStop};
