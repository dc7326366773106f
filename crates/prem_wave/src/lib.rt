//! Runs of images as value change dumps: the values of their signals in each cycle, the text of what changes, and the
//! answer of the program `prem_wave` to its words.
#![tactic(auto)]

mod answer;
mod bus;
mod calls;
mod changes;
mod doing;
mod header;
mod laws;
mod top;
mod tracing;
mod words;

pub use laws::{values_are_read_back, waves_are_dumps, waves_are_read_back};
pub use prem_answer::Status;
pub use top::waves;
pub use tracing::wave;
