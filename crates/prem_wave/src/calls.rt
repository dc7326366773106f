// The marked calls of each task, counted as their intervals end.
ghost use Rattle.std.specs.Prelude.{◌≡◌, IfOk, replicate, slice_index, slice_set};
ghost use Rattle.prem_wave.specs.Calls.{all_counted, counted, with_call};

use prem_cycle::EndedInterval;
use prem_plant::TaskId;
use std::alloc::{AllocError, Global};

/// No marked call of so many tasks.
pub fn no_calls(alloc: Global, tasks: u16) -> Result<Vec<u64>, AllocError>
    ensures { IfOk result (λ calls. calls.items ≡ replicate tasks 0) }
{
    let mut calls = Vec::new(alloc);
    'tasks: for _ in 0..tasks {
        calls.push(0u64)?;
    }
    Ok(calls)
}

/// The marked calls of a task; none where there is no such task.
pub fn calls_at(calls: &[u64], k: TaskId) -> u64
    ensures { result ≡ slice_index calls.now k }
{
    match calls.get(usize::from(k)) {
        Some(count) => *count,
        None => 0,
    }
}

/// A task has another count, if it is there.
#[tactic(auto, using(crate::proofs::Counting::set_past))]
fn set_calls(calls: &mut Vec<u64>, k: TaskId, count: u64)
    ensures { calls.new.items ≡ slice_set calls.old.items k count }
{
    let k = usize::from(k);
    if k < calls.len() {
        calls[k] = count;
    }
}

/// A task has one more, if it is there.
#[tactic(auto, using(crate::proofs::Counting::set_is))]
fn add_call(calls: &mut Vec<u64>, k: TaskId)
    ensures { calls.new.items ≡ with_call calls.old.items k }
{
    let count = calls_at(calls, k).saturating_add(1);
    set_calls(calls, k, count);
}

/// Counts an interval that has ended.
fn count_interval(calls: &mut Vec<u64>, interval: EndedInterval)
    ensures { calls.new.items ≡ counted interval calls.old.items }
{
    if interval.predictable {
        add_call(calls, interval.task);
    }
}

/// Counts intervals that have ended.
pub fn count_intervals(calls: &mut Vec<u64>, intervals: &[EndedInterval])
    ensures { calls.new.items ≡ all_counted intervals.now calls.old.items }
{
    'intervals: for interval in intervals {
        count_interval(calls, *interval);
    }
}
