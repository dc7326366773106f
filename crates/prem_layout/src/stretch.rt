//! Stretches: what a task's code may take between its marked calls.
ghost use Rattle.prem_layout.specs.Stretch.Laws.{SumsAreExact};

/// Four sums for each piece tell the greatest stretch over all paths of a task.
pub fn sums_are_exact()
    ensures { SumsAreExact }
{}
