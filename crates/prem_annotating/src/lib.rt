//! The annotations that a program needs, defined: ranges of parameters, and regions and lengths of marked functions; and
//! the laws of these, on trees and on texts.
#![tactic(auto)]

pub mod editing;
mod laws;
mod texts;

pub use laws::{
    annotated_programs_stay_in_range, annotating_again_changes_nothing, annotations_fit,
    ranges_are_the_least, regions_are_the_least, runs_stay_the_same,
};
pub use texts::{
    annotated_texts_are_read, annotated_texts_stay, annotations_can_be_said,
    annotations_may_be_put, pieces_are_exact, pieces_say_annotations, places_do_not_matter,
    texts_are_annotated,
};
