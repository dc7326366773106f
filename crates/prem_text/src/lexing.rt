//! From the bytes of a text to its tokens.
//!
//! - `token`: the tokens of the source language, and why a text has no tree.
mod lexer;
mod literal;
mod spelling;
pub mod token;

pub use lexer::tokens;
