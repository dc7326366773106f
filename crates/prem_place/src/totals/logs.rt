// The rule on logs: they have room for all outputs and intervals of all jobs.
ghost use Rattle.std.specs.Prelude.{◌≡◌, IfOk, map};
ghost use Rattle.prem_layout.specs.Counts.{outputs_of, intervals_of};
ghost use Rattle.prem_layout.specs.Rules.{total_of, log_rules};
ghost use Rattle.prem_bounds.specs.Counts.Count.{clipped};
ghost use Rattle.prem_place.specs.Placed.PlacedOf.{coded_of};
ghost use Rattle.prem_place.specs.Totals.Logs.{told_of};

use crate::placed::PlacedTask;
use prem_bounds::counts::{marked_calls, outputs, plus, times};
use std::alloc::{AllocError, Global};

/// All entries that jobs make; a log has room for one more.
const LOG_ROOM: u64 = 262_143;

/// A log that has no room for all that jobs may put into it.
#[derive(Clone, Copy, Debug, PartialEq, Eq)]
pub enum LogRule {
    /// All jobs of all tasks may give more outputs than their log holds.
    Outputs,
    /// All jobs of all tasks may have more intervals than their log holds.
    Intervals,
}

/// The outputs of all jobs of all tasks, told up to 2^32.
fn all_outputs(alloc: Global, tasks: &[PlacedTask]) -> Result<u64, AllocError>
    ensures { IfOk result (λ n. n ≡ clipped (total_of outputs_of (map coded_of tasks.now))) }
{
    let mut sum = 0;
    for task in tasks {
        let count = outputs(alloc, &task.program, &task.turns)?;
        sum = plus(sum, times(task.jobs, count));
    }
    Ok(sum)
}

/// The intervals of all jobs of all tasks, told up to 2^32. A marked call is one, and ends one before it.
fn all_intervals(alloc: Global, tasks: &[PlacedTask]) -> Result<u64, AllocError>
    ensures { IfOk result (λ n. n ≡ clipped (total_of intervals_of (map coded_of tasks.now))) }
{
    let mut sum = 0;
    for task in tasks {
        let calls = marked_calls(alloc, &task.program, &task.turns)?;
        let count = plus(1, times(2, calls));
        sum = plus(sum, times(task.jobs, count));
    }
    Ok(sum)
}

/// Which log has no room for all that jobs may put into it, if one has none: that of outputs is looked at first.
pub fn full_log(alloc: Global, tasks: &[PlacedTask]) -> Result<Option<LogRule>, AllocError>
    ensures { IfOk result (λ found. told_of found ≡ log_rules (map coded_of tasks.now)) }
{
    let outputs = all_outputs(alloc, tasks)?;
    if outputs > LOG_ROOM {
        return Ok(Some(LogRule::Outputs));
    }
    let intervals = all_intervals(alloc, tasks)?;
    if intervals > LOG_ROOM {
        return Ok(Some(LogRule::Intervals));
    }
    Ok(None)
}
