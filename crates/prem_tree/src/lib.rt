//! Programs that break no rule, and their runs as the language defines them.
//!
//! - `resolve`: trees whose names are resolved.
//! - `state`: the state of a run, and what single statements do to it.
#![tactic(auto)]

mod checked;
pub mod resolve;
mod run;
mod source;
pub mod state;

pub use crate::state::{FnId, SourceFail};
pub use checked::Checked;
pub use prem_syntax::{
    BinOp, Count, Expr, ForNames, Function, Global, Initial, Item, Kind, Local, Mark, Name, Param,
    Place, Program, Region, Sequence, Stmt, Ty, TypeRule, UnOp,
};
pub use source::{SourceRun, initial_words, source_run};
