//! The rules on ranges that a program breaks when it has its new ranges, but for those on regions, which annotations mend.
mod finding;
mod walking;

pub use finding::first_other;
