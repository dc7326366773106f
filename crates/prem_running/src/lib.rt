//! The answer to `run SET RUN`: a set is compiled, and its run with the words and requests of a run file is told.
//!
//! - `mail`: the answer to `mail SET RUN MAIL`: a set is compiled and run with words that its devices put, and the lists of
//!   input words are told with the report.
//! - `run_sound`: runs of task sets that break no rule: what a run file gives suits them, each of their states is
//!   good, and they end as finished or at their limit.
//! - `sample`: the answer to `sample N`: a set of four filters and its inputs are drawn by a seed, compiled and run,
//!   and the run is told in sums.
//! - `set_laws`: what the image of a task set that breaks no rule keeps of the set.
#![tactic(auto)]

pub mod mail;
pub mod run_sound;
mod running;
pub mod sample;
pub mod set_laws;
mod teller;

pub use running::{run_answer, run_limit};
pub use teller::{Teller, tell_files, tell_set};
