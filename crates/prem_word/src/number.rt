// Numbers of the parts of a program.

/// A function's place among the functions of its text, from 0.
pub type FnId = u16;
