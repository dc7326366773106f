//! Words of 32 bits: their kinds, the operators of the source language on them, and the ranges of what these give.
#![tactic(auto)]

mod arithmetic;
mod bits;
mod ends;
mod kind;
mod laws;
mod number;
mod range;
mod unary;
mod wide;
mod word;

pub use arithmetic::{
    range_add, range_div, range_join, range_meet, range_mul, range_rem, range_sub,
};
pub use bits::{range_and, range_or, range_shl, range_shr, range_xor};
pub use kind::{BinOp, Kind};
pub use laws::{bit_lengths_are_least, joins_and_meets_are_exact, ranges_are_kept, ranges_hold};
pub use number::FnId;
pub use range::Range;
pub use unary::{convert, flip};
pub use word::{apply, signed};
