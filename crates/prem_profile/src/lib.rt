//! Where the cycles of a run go, by lines of the sources, and the answer of the program `prem_profile` to its words.
//!
//! - `lines`: the line table: for each word of a task's code the line of the source to which it belongs.
//! - `bound`: what the bound of a job is made of: its bill, item by item, on the path that counts most.
#![tactic(auto)]

mod account;
mod ahead;
mod answer;
pub mod bound;
mod callgrind;
mod calls;
mod cost;
mod home;
mod laws;
pub mod lines;
mod strip;
mod strips;
mod top;
mod tracing;
mod words;

pub use account::{Account, RowTable};
pub use calls::{Calls, FunctionTable, WideCost};
pub use cost::Cost;
pub use home::Home;
pub use laws::{
    lines_add_up, profiles_add_up, profiles_are_read, rows_add_up, totals_are_reported,
};
pub use prem_answer::Status;
pub use top::profiles;
pub use tracing::{RunProfile, profile};
