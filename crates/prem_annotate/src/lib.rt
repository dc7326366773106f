//! The annotations that a program needs.
//!
//! - `notes`: the annotations of a program's functions, as a value.
//! - `ranges`: the ranges of parameters, from the last function to the first.
//! - `regions`: the regions of marked functions.
//! - `rules`: the rules on ranges that a program with its new ranges breaks, but for those on regions.
//! - `seeing`: a walk over a function that gives its accesses of globals, and the ranges of the arguments that it passes.
//! - `writing`: a program's text with its annotations.
#![tactic(auto)]

pub mod notes;
pub mod ranges;
pub mod regions;
pub mod rules;
pub mod seeing;
pub mod writing;
