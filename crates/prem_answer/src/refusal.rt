//! The text of each rule that a task set may break, and the answer to a set that breaks one.
mod reply;
mod rule;
mod text;

pub use reply::{breaker, refused, uncompiled};
pub use rule::rule_text;
