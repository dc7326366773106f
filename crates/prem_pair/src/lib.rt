//! Two cores on one bus: a run of two images by the cycles that the definitions give, of which many are taken at once.
//!
//! - `cycles`: two cores with a cache and a memory each, the devices of the first, and the one bus that goes by a
//!   token.
//! - `laws`: every state of a run of two cores whose tasks keep to their scripts is good, and it finishes by its
//!   limit; requests find room in their order, each once.
#![tactic(auto)]

mod apart;
mod both;
pub mod cycles;
pub mod laws;
mod pair;
mod passing;
mod side;
mod token;

pub use crate::cycles::{Holder, PairStop};
pub use pair::Pair;
pub use prem_machine::{Cause, Facts};
