//! Run files of an image: its names, and what is read by them fits a run of it.
mod names;
mod read;

pub use names::names_of_image;
pub use read::{read_run_of, run_files_fit};
