//! Cuts a marked function with one large loop into several.
//!
//! - `cutting`: the first reason why a function can't be cut, or the program with the tiles in its place.
#![tactic(auto)]

pub mod cutting;

pub use cutting::{TileFail, tile};
