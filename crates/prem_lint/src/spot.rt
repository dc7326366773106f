// Where a file breaks a rule.

/// Where a file breaks a rule.
#[derive(Clone, Copy, Debug, PartialEq, Eq)]
pub enum Spot {
    /// No line is told.
    Whole,
    /// The line, from 1.
    Line(usize),
    /// The line and the column, both from 1; a column counts bytes.
    At { line: usize, col: usize },
}
