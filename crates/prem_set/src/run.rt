//! The names of a set, and run files: the input words of each task and the requests, line by line.
mod fail;
mod input;
mod laws;
mod names;
mod reading;
mod request;
mod run_file;

pub use fail::{RunFail, Which};
pub use laws::{lists_replace_words, runs_are_read_back, runs_are_spelled_again, sets_give_names};
pub use names::Names;
pub use run_file::read_run;
