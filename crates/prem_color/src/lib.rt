//! The ranges of marked functions by the parts of a set, and places of parts that are moved by whole lines, so that these have room in the cache.
#![tactic(auto)]

mod claims;
mod fail;
mod laws;
mod moving;
mod room;
mod wants;

pub use fail::ColorFail;
pub use laws::{
    moved_places_are_lawful, moved_places_have_room, parts_align_lines, wants_leave_no_conflict,
    wants_lie,
};
pub use moving::color;
pub use prem_foot::Want;
pub use wants::{Shape, push_wants, shape_of};
