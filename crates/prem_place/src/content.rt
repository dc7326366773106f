//! What memory holds at the start of a run: code and globals at their places.
mod bytes;
mod content;
mod patch;

pub use bytes::global_bytes;
pub use content::{Block, put_blocks, put_globals, zeros};
