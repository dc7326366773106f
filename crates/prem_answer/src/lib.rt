//! Answers of the programs: their statuses, the stages that lead to them, the texts of what doesn't go through, and the one way in which a
//! program reads, answers and writes (`Tool`).
//!
//! - `refusal`: the text of each rule that a task set may break, and the answer to a set that breaks one.
#![tactic(auto)]

mod answer;
mod files;
pub mod refusal;
mod status;
mod tool;
mod words;
mod write;

pub use answer::{Answer, Halt, Telling, form, form_by, missing};
pub use files::{read_file, read_file_by};
pub use status::{PlainStatus, Status};
pub use tool::{Tool, run_plain_tool, run_tool, usage};
pub use words::is_file;
pub use write::write_all;
