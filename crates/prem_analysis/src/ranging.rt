//! The walk of the analysis over expressions.
mod access;
mod assigned;
mod bounds;
mod environment;
mod expression;
mod found;
mod join;
mod range;
mod saves;
mod site;
mod table;

pub use access::{in_element, in_scalar};
pub use assigned::loosen_assigned;
pub use bounds::{body_range, end_of, in_counting_loop, in_turns, range_behind, times, turn_bound};
pub use environment::{assign, loosen, refine, set_range};
pub use expression::{in_term, range_of};
pub use found::{Broken, Known, Rule, earlier, if_at};
pub use range::Range;
pub use saves::{Saved, add_assigned, add_named, few_or_all, merge, restore, save};
pub use site::{Area, Marked, Site};
pub use table::{convert, table_range, whole_range};
