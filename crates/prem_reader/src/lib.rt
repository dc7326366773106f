//! The readers of expressions and statements, which the reader of programs is made of.
//!
//! - `expression`: the reader of expressions: one token after the other, without recursion, by a stack of what is open.
//! - `statement`: the reader of statements: one token after the other, without recursion over the text.
//! - `taken`: tokens that are moved out of where they stand.
#![tactic(auto)]

pub mod expression;
pub mod statement;
pub mod taken;
