//! What a task set stands on: its names, the plant with its devices, and the places of all parts in memory.
//!
//! - `order`: the order in which lines and ways of a cache's set go, the rules of replacement, and what they have in
//!   common.
#![tactic(auto)]

mod apart;
mod label;
mod layout;
pub mod order;
mod plant;

pub use label::{Label, has_name_bytes, is_name};
pub use layout::{Layout, PartKind, PartSize, PlantFail, TaskId, place_parts};
pub use plant::{Device, Plant, Replacement, Target, default_plant};
pub use prem_word::FnId;
