//! Cuts a marked function into tiles: the first reason why it can't be cut, or the program with the tiles in its place.
mod fail;
mod reading;
mod stages;
mod whole;

pub use fail::TileFail;
pub use reading::tiles_are_read;
pub use whole::tile;
