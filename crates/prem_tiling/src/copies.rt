//! The parts of a cut: the shape of a function, its carried locals, copies of trees, tiles, and programs with tiles.
pub mod carried;
pub mod copy;
pub mod cut;
pub mod flags;
pub mod narrowed;
pub mod shape;
pub mod stale;
pub mod statements;
pub mod tiled;
pub mod used;
