// What the rules of a well-formed program are about.

/// What a program has a limited number of.
///
/// At most 256 functions, 256 globals, 8 parameters and 32 regions of one function; an array has 1 to 65536
/// elements, and a stated length is 1 to 2147483647 cycles.
#[derive(Clone, Copy, Debug, PartialEq, Eq)]
pub enum Count {
    Functions,
    Globals,
    Parameters,
    Regions,
    Length,
    Stated,
}

/// The rules on types, in the order in which they are judged at one place.
#[derive(Clone, Copy, Debug, PartialEq, Eq)]
pub enum TypeRule {
    /// A global, parameter or local is void.
    Void,
    /// A parameter, local or result is narrower than int.
    Narrow,
    /// An array without index, an index on what is no array, or a function's name as a value.
    Scalar,
    /// Initial constants that don't fit the global: too many, a list for a scalar, one for an array.
    Initial,
    /// The wrong number of arguments.
    Count,
    /// The target of a call or of `in()` is no parameter or local, or the callee is void.
    Target,
    /// A result in a void function, or none in another.
    Return,
    /// A marked function isn't void, or is `job`.
    Marked,
    /// A region isn't a range of elements of its global.
    Region,
    /// A parameter's range isn't one of its type.
    Range,
    /// `job` isn't void with no parameter.
    Job,
}
