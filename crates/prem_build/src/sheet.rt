// What is told of a compiled set.

/// What is told of a compiled set.
#[derive(Clone, Copy, Debug, PartialEq, Eq)]
pub enum Sheet {
    /// The bounds of its jobs and of its marked functions.
    Bounds,
    /// The bytes of its image.
    Image,
    /// The listing of its words.
    Listing,
}
