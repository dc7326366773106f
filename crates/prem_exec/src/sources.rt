//! What commands read of a task set: its file, its sources, and a run file by its names.
mod run;
mod set;
mod tasks;

pub use run::{names_of, read_run_file, read_run_file_by};
pub use set::{read_set_file, read_sources, read_task_set, read_task_set_by};
