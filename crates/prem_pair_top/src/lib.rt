//! The answer of the program `prem_pair` to its words: two compiled sets are run on two cores with one bus.
#![tactic(auto)]

mod answer;
mod laws;
mod limit;
mod read;
mod report;
mod run;
mod top;
mod words;

pub use laws::pairs_of_sets_are_sound;
pub use prem_answer::PlainStatus as PairStatus;
pub use top::run_pair;
pub use words::{Options, PairWords};
