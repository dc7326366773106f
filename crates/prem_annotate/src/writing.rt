//! A program's text with its annotations: they are put in their places, and all other bytes stay.
mod laws;
mod noting;

pub use laws::{annotated_texts_are_edits, annotated_texts_are_read, annotated_texts_stay};
pub use noting::annotate_text;
