//! The regions of marked functions: for each global that one reaches, its elements from the least to the greatest one.
mod elements;
mod found;

pub use found::regions_of;
