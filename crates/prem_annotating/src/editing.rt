//! The edit of a text: annotations are put in their places, and all other bytes stay.
mod orders;
mod said;
mod walk;
mod whole;

pub use orders::push_orders;
pub use walk::Order;
pub use whole::edited_text;
