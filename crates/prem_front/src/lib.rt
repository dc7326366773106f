//! From the text of a program to its tree, and back to its canonical spelling.
#![tactic(auto)]

mod annotation;
mod function;
mod global;
mod item;
mod program;
mod stage;
mod typing;

pub use prem_print::print;
pub use prem_text::lexing::token::FrontFail;
pub use program::parse;
