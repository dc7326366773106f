//! The first broken rule of a task set, as editors and people read it.
//!
//! `FILE:LINE:COLUMN: error: ..` tells what is wrong in plain words, with the numbers of the rule; then come the line of the source with a mark
//! and `FILE:LINE:COLUMN: note: ..`, what to do. Where a stated length is too short, the least length of each marked function follows.
#![tactic(auto)]

mod advice;
mod answer;
mod diagnostic;
mod element;
mod excerpt;
mod form;
mod keys;
mod message;
mod needs;
mod places;
mod put;
mod spot;
mod top;

pub use answer::lint_answer;
pub use diagnostic::{Diagnostic, put_diagnostic};
pub use prem_answer::Status;
pub use spot::Spot;
pub use top::lint;
