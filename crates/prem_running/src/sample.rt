//! The answer to `sample N`: a set of four filters and its inputs are drawn by a seed, compiled and run, and the run is told in sums.
mod answer;
mod draws;
mod program;
mod text;
mod trace;

pub use answer::sample_answer;
