// What is told of placed tasks whose bounds aren't too large.
ghost use Rattle.std.specs.Prelude.{◌≤◌, ◌^◌};

use crate::verdict::verdict::Blame;
use prem_bounds::facts::IntervalFact;
use prem_line::Failing;

/// What is told of a task: of its marked functions in the order of the text, and the greatest number of cycles that a job
/// takes.
#[derive(Drop)]
pub struct TaskBounds {
    pub facts: Vec<IntervalFact>,
    pub job: u64,
    ghost small: { job ≤ 2 ^ 40 },
}

/// Why bounds aren't told: one is too large, or there was no memory.
pub type VerdictFail = Failing<Blame>;
