//! Which texts are programs, by the division into tokens and the grammar alone, and the law that holds reading to it.
//!
//! - `canonical`: the canonical spelling of a program's tree: its tokens, with the fewest parentheses, and its text;
//!   and the laws that say that it is read back.
//! - `grammar`: the grammar of the source language, and the laws that hold the reader of its tokens to it.
//! - `lexing`: from the bytes of a text to its tokens, and why a text has no tree.
//! - `read_words`: each literal of a program that is read from a text is a word.
//! - `spelling`: what a text's division into tokens is, and the laws that hold the lexer to it.
#![tactic(auto)]

pub mod canonical;
pub mod grammar;
mod laws;
pub mod lexing;
pub mod read_words;
pub mod spelling;

pub use laws::texts_are_exact;
