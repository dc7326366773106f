//! Runs of image files.
//!
//! - `sources`: what commands read of a task set: its file, its sources, and a run file by its names.
#![tactic(auto)]

mod exec;
mod files;
mod run;
pub mod sources;

pub use exec::exec_answer;
pub use files::line_form;
pub use run::{run_answer, run_image, stop_status};
