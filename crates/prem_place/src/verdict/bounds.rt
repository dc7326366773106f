// The rule on bounds, and what is told of tasks that keep it.
ghost use Rattle.std.specs.Prelude.{◌≡◌, ◌≤◌, ◌++◌, ◌∷◌, [], None, Some, IfOk, OnOk, MatchResult, map, filter, length, is_none, option_to_list};
ghost use Rattle.std.specs.List.{AllByRecursion};
ghost use Rattle.prem_plant.specs.Ranges.{IsPlant};
ghost use Rattle.prem_layout.specs.Facts.{interval_facts};
ghost use Rattle.prem_layout.specs.Rules.{bound_rules};
ghost use Rattle.prem_bounds.specs.Facts.Laws.{is_large};
ghost use Rattle.prem_place.specs.Placed.PlacedOf.{IsPlacedTask, placed_of, lines_of};
ghost use Rattle.prem_place.specs.Verdict.Told.{numbered, with_task, is_small, bounds_of, told_of, told_from, large_in, Ends};

use crate::placed::PlacedTask;
use crate::verdict::told::{TaskBounds, VerdictFail};
use crate::verdict::verdict::{Blame, Verdict};
use prem_bounds::facts::{IntervalFact, fact, first_large};
use prem_bounds::{job_bound, stub_costs};
use prem_foot::Lines;
use prem_plant::{FnId, Plant, TaskId};
use std::alloc::{AllocError, Global};

/// What is told of marked functions whose bounds aren't too large, and of each one whether its bound is.
#[derive(Drop)]
struct ToldIntervals {
    facts: Vec<IntervalFact>,
    large: Vec<bool>,
}

/// Puts what is told of a marked function behind what is told of others.
fn put_fact(
    facts: &mut Vec<IntervalFact>,
    large: &mut Vec<bool>,
    found: Option<IntervalFact>,
) -> Result<(), AllocError>
    ensures facts { OnOk result (facts.new.items ≡ facts.old.items ++ option_to_list found) }
    ensures large { OnOk result (large.new.items ≡ large.old.items ++ is_none found ∷ []) }
{
    match found {
        Some(fact) => {
            facts.push(fact)?;
            large.push(false)?;
        }
        None => large.push(true)?,
    }
    Ok(())
}

/// What is told of the marked functions of a task.
fn facts_of(
    alloc: Global,
    task: TaskId,
    t: &PlacedTask,
    lines: &[Lines],
    p: &Plant,
) -> Result<ToldIntervals, AllocError>
    requires task { IsPlacedTask p.now t.now }
    requires lines { lines.now ≡ lines_of p.now t.now }
    requires plant { IsPlant p.now }
    ensures facts { IfOk result (λ told. map numbered told.facts.items ≡ map (with_task task) (filter is_small (interval_facts p.now (placed_of t.now)))) }
    ensures large { IfOk result (λ told. told.large.items ≡ map is_large (interval_facts p.now (placed_of t.now))) }
{
    let plans = t.plans.items();
    let stubs = stub_costs(&t.table);
    let mut facts = Vec::new(alloc);
    let mut large = Vec::new(alloc);
    for k in 0..plans.len() {
        let found = fact(task, k, &plans[k], &lines[k], &stubs, &t.table, p);
        put_fact(&mut facts, &mut large, found)?;
    }
    Ok(ToldIntervals { facts, large })
}

/// What is told of a task, or the first function whose bound is too large.
fn task_bounds(
    alloc: Global,
    task: TaskId,
    t: &PlacedTask,
    lines: &[Lines],
    p: &Plant,
) -> Result<Result<TaskBounds, FnId>, AllocError>
    requires task { IsPlacedTask p.now t.now }
    requires lines { lines.now ≡ lines_of p.now t.now }
    requires plant { IsPlant p.now }
    ensures { IfOk result (λ told. MatchResult told (λ b. (bounds_of b ≡ told_of p.now task (placed_of t.now)) × (large_in p.now (placed_of t.now) ≡ None)) (λ f. large_in p.now (placed_of t.now) ≡ Some f)) }
{
    let found = facts_of(alloc, task, t, lines, p)?;
    let job = job_bound(t.plans.items(), &t.table, p);
    let routines = t.program.routines.items();
    let first = first_large(
        routines,
        usize::from(t.table.job),
        job.is_err(),
        &found.large,
    );
    if let Some(f) = first {
        return Ok(Err(f));
    }
    match job {
        Ok(job) => Ok(Ok(TaskBounds {
            facts: found.facts,
            job,
        })),
        Err(_) => unreachable!(),
    }
}

/// What is told of all tasks, or the first task of which a bound is too large.
pub fn bounds_of_all(
    alloc: Global,
    tasks: &[PlacedTask],
    lines: &[Vec<Lines>],
    p: &Plant,
) -> Result<Vec<TaskBounds>, VerdictFail>
    requires tasks { AllByRecursion (IsPlacedTask p.now) tasks.now }
    requires count { length tasks.now ≤ 16 }
    requires lines { map (λ lines. lines.items) lines.now ≡ map (lines_of p.now) tasks.now }
    requires plant { IsPlant p.now }
    ensures ends { Ends (bound_rules p.now) (map placed_of tasks.now) result }
    ensures told { IfOk result (λ all. map bounds_of all.items ≡ told_from p.now 0 (map placed_of tasks.now)) }
{
    let mut all = Vec::new(alloc);
    for n in 0..tasks.len() {
        match task_bounds(alloc, n as u16, &tasks[n], &lines[n], p)? {
            Ok(bounds) => all.push(bounds)?,
            Err(f) => {
                return Err(VerdictFail::Refused(Blame {
                    task: n as u16,
                    verdict: Verdict::BoundTooLarge(f),
                }));
            }
        }
    }
    Ok(all)
}
