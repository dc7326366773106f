//! Tasks take the places of their parts, and their code has its words there, or a jump out of reach.
mod place;

pub use crate::placed::PlacedTask;
pub use place::{part_count, place_all, place_task};
pub use prem_prefetch::sizes::CodedTask;
