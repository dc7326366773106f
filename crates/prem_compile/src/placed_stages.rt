//! The last stages of the compiler: places of parts, words, conflicts, bounds, lengths and logs of placed tasks.
mod blocks;
mod late;
mod places;
mod refusals;

pub use blocks::blocks_of;
pub use late::{bounds_of_placed, last_refusal, rules_of_placed};
pub use places::places_of;
pub use prem_place::content::Block;
pub use prem_place::placed::PlacedTask;
pub use prem_place::verdict::TaskBounds;
pub use refusals::refused_whole;
