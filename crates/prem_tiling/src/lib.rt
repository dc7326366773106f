//! Programs with tiles: a marked function with one large loop is cut into several.
//!
//! - `copies`: the parts of a cut: the shape of a function, its carried locals, copies of trees, tiles, and programs
//!   with tiles.
//! - `laws`: laws of tiles: a program with tiles does what the program did.
//! - `shapes`: tiles, defined: a marked function with one large counting loop is cut into several marked functions,
//!   and when it isn't.
#![tactic(auto)]

pub mod copies;
pub mod laws;
pub mod shapes;
