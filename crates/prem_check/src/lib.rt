//! The rules of a well-formed program: `check` gives a checked program, or the first rule that is broken.
#![tactic(auto)]

mod call;
mod checking;
mod declaration;
mod expression;
mod fail;
mod found;
mod function;
mod global;
mod kinds;
mod limits;
mod loops;
mod program;
mod statement;

pub use checking::check;
pub use fail::CheckFail;
pub use prem_syntax::{Count, TypeRule};
