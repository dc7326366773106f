//! The answers to `check SET`, `build SET`, `list SET` and `color SET`.
//!
//! - `colors`: the answer to `color SET`: the parts of a set are moved by whole lines, so that its marked functions have room in the cache.
//! - `tables`: what is written of a compiled set: its bounds, and the listing of its words.
#![tactic(auto)]

mod answer;
pub mod colors;
mod sheet;
pub mod tables;

pub use answer::sheet_answer;
pub use sheet::Sheet;
