//! What is written of a compiled set: its bounds, and the listing of its words.
mod bounds;
mod listing;
mod names;

pub use bounds::check_text;
pub use listing::list_text;
