//! The frames of functions: how many bytes each has, by its text.
mod capped;
mod laws;
mod text;

pub use capped::{capped_count, capped_sum, frame_bytes};
pub use laws::frames_are_by_text;
pub use prem_syntax::Function;
pub use text::frame_by_text;
