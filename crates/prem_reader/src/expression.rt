//! The reader of expressions: one token after the other, without recursion.
mod copy;
mod expression;
mod open;

pub use copy::copy_expression;
pub use expression::{Move, ROOM, State};
