//! The tokens of the source language, and why a text has no tree.
mod fail;
mod token;

pub use fail::FrontFail;
pub use token::{Mark, Spotted, Token, Word};
