//! The state of a run, and what single statements do to it.
mod eval;
mod fail;
mod interpreter;

pub use fail::SourceFail;
pub use interpreter::{Counter, Interpreter, set_local, stored};
pub use prem_word::FnId;
