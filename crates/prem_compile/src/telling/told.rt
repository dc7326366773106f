// The bounds of the marked functions and jobs of a set, and the cycle by which its jobs have ended.
ghost use Rattle.std.specs.Prelude.{◌≡◌, ◌≤◌, ◌++◌, List, IfOk, OnOk, length, map};
ghost use Rattle.std.specs.List.{AllByRecursion};
ghost use Rattle.prem_list.specs.Sequence.{items_of};
ghost use Rattle.prem_plant.specs.declared.plant.Plant.{Plant};
ghost use Rattle.prem_layout.specs.Bounds.{JobBound, limit_of};
ghost use Rattle.prem_layout.specs.Placed.{Placed};
ghost use Rattle.prem_place.specs.Placed.PlacedOf.{placed_of};
ghost use Rattle.prem_place.specs.Totals.Limits.{HasJobs, IsBound};
ghost use Rattle.prem_place.specs.Verdict.Told.{bounds_of, numbered, told_from};
ghost use Rattle.prem_tasks.specs.Compiled.{facts_from, job_bounds};

use prem_bounds::facts::IntervalFact;
use prem_list::Sequence;
use prem_place::placed::PlacedTask;
use prem_place::totals::limit;
use prem_place::verdict::TaskBounds;
use std::alloc::{AllocError, Global};

/// What is told of the marked functions and jobs of a set.
#[derive(Drop)]
pub struct Told {
    /// Of each marked function, one task after another, in the order of the text.
    pub intervals: Sequence<IntervalFact>,
    /// The greatest number of cycles that a job takes, for each task.
    pub jobs: Sequence<u64>,
}

/// Puts what is told of a task's marked functions behind what is told of others.
fn push_facts(
    intervals: &mut Sequence<IntervalFact>,
    facts: &[IntervalFact],
) -> Result<(), AllocError>
    ensures { OnOk result (items_of intervals.new ≡ items_of intervals.old ++ facts.now) }
{
    for fact in facts {
        intervals.push(*fact)?;
    }
    Ok(())
}

/// What is told of the marked functions of all tasks, and of their jobs, from what is told of each task. It fails only for
/// want of memory.
pub fn told_bounds(alloc: Global, all: Vec<TaskBounds>) -> Result<Told, AllocError>
    ensures intervals { (p : Plant) (placed : List Placed) → map bounds_of all.items ≡ told_from p 0 placed
        → IfOk result (λ told. map numbered (items_of told.intervals) ≡ facts_from p 0 placed) }
    ensures jobs { (p : Plant) (placed : List Placed) → map bounds_of all.items ≡ told_from p 0 placed
        → IfOk result (λ told. items_of told.jobs ≡ map (λ (j : JobBound). j.bound) (job_bounds p placed)) }
    ensures small { IfOk result (λ told. AllByRecursion IsBound (items_of told.jobs)) }
{
    let mut intervals = Sequence::new(alloc);
    let mut jobs = Sequence::new(alloc);
    for bounds in all {
        push_facts(&mut intervals, &bounds.facts)?;
        jobs.push(bounds.job)?;
    }
    Ok(Told { intervals, jobs })
}

/// The cycle by which all jobs of all tasks have ended, where a job of each takes at most so many cycles.
pub fn limit_of_set(tasks: &[PlacedTask], jobs: &[u64]) -> u64
    requires count { length tasks.now ≤ 16 }
    requires tasks { AllByRecursion HasJobs tasks.now }
    requires long { length jobs.now ≡ length tasks.now }
    requires small { AllByRecursion IsBound jobs.now }
    ensures { (p : Plant) → jobs.now ≡ map (λ (j : JobBound). j.bound) (job_bounds p (map placed_of tasks.now))
        → result ≡ limit_of (job_bounds p (map placed_of tasks.now)) }
{
    limit(tasks, jobs)
}
