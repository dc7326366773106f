// The rules on placed tasks whose jumps reach, one group over all tasks before the next.
ghost use Rattle.std.specs.Prelude.{◌≡◌, ◌≤◌, IfOk, None, length, map};
ghost use Rattle.std.specs.List.{AllByRecursion};
ghost use Rattle.prem_plant.specs.Ranges.{IsPlant};
ghost use Rattle.prem_layout.specs.Rules.{refused_by, over_tasks, conflict_rules, bound_rules, length_rules, log_rules};
ghost use Rattle.prem_place.specs.Placed.PlacedOf.{IsPlacedTask, coded_of, lines_of, placed_of};
ghost use Rattle.prem_place.specs.Verdict.Told.{bounds_of, told_from};
ghost use Rattle.prem_tasks.specs.Broken.{late_refusal};
ghost use Rattle.prem_compile.specs.PlacedStages.Late.{EndsLate, broken_behind, broken_last, found_of};
ghost use Rattle.prem_compile.specs.Bounding.{broken_up_to_bounds};

use crate::placed_stages::refusals::{blamed, refused_whole};
use prem_foot::Lines;
use prem_place::placed::PlacedTask;
use prem_place::totals::{LogRule, full_log};
use prem_place::verdict::{
    TaskBounds, VerdictFail, bounds_of_all, first_conflict, first_short_interval, footprints_of_all,
};
use prem_plant::Plant;
use prem_tasks::{Refusal, Rule, Stop};
use std::alloc::{AllocError, Global};

/// No set of the cache is asked for more lines of a marked function than it has ways.
fn conflicts(
    alloc: Global,
    tasks: &[PlacedTask],
    lines: &[Vec<Lines>],
    p: &Plant,
) -> Result<(), Stop>
    requires tasks { AllByRecursion (IsPlacedTask p.now) tasks.now }
    requires count { length tasks.now ≤ 16 }
    requires lines { map (λ lines. lines.items) lines.now ≡ map (lines_of p.now) tasks.now }
    requires plant { IsPlant p.now }
    ensures { EndsLate result (over_tasks (conflict_rules p.now) (map placed_of tasks.now)) }
{
    match first_conflict(tasks, lines, p) {
        None => Ok(()),
        Some(blame) => Err(blamed(alloc, tasks, blame)),
    }
}

/// The bounds of all tasks, or the first task of which one is too large.
fn bounds(
    alloc: Global,
    tasks: &[PlacedTask],
    lines: &[Vec<Lines>],
    p: &Plant,
) -> Result<Vec<TaskBounds>, Stop>
    requires tasks { AllByRecursion (IsPlacedTask p.now) tasks.now }
    requires count { length tasks.now ≤ 16 }
    requires lines { map (λ lines. lines.items) lines.now ≡ map (lines_of p.now) tasks.now }
    requires plant { IsPlant p.now }
    ensures ends { EndsLate result (over_tasks (bound_rules p.now) (map placed_of tasks.now)) }
    ensures told { IfOk result (λ all. map bounds_of all.items ≡ told_from p.now 0 (map placed_of tasks.now)) }
{
    match bounds_of_all(alloc, tasks, lines, p) {
        Ok(all) => Ok(all),
        Err(VerdictFail::Refused(blame)) => Err(blamed(alloc, tasks, blame)),
        Err(VerdictFail::OutOfMemory) => Err(Stop::OutOfMemory),
    }
}

/// Each marked function states at least its bound.
fn lengths(
    alloc: Global,
    tasks: &[PlacedTask],
    bounds: &[TaskBounds],
    p: &Plant,
) -> Result<(), Stop>
    requires tasks { AllByRecursion (IsPlacedTask p.now) tasks.now }
    requires count { length tasks.now ≤ 16 }
    requires bounds { map bounds_of bounds.now ≡ told_from p.now 0 (map placed_of tasks.now) }
    ensures { EndsLate result (over_tasks (length_rules p.now) (map placed_of tasks.now)) }
{
    match first_short_interval(tasks, bounds, p) {
        None => Ok(()),
        Some(blame) => Err(blamed(alloc, tasks, blame)),
    }
}

/// The logs have room for all that the jobs of all tasks may put into them.
fn logs(alloc: Global, tasks: &[PlacedTask]) -> Result<(), Stop>
    ensures { EndsLate result (refused_by None (log_rules (map coded_of tasks.now))) }
{
    match full_log(alloc, tasks)? {
        None => Ok(()),
        Some(LogRule::Outputs) => Err(refused_whole(alloc, Rule::Outputs)),
        Some(LogRule::Intervals) => Err(refused_whole(alloc, Rule::Intervals)),
    }
}

/// What is told of the marked functions and jobs of placed tasks, or the first rule on conflicts and then on bounds that they
/// break, each for all tasks before the next.
pub fn bounds_of_placed(
    alloc: Global,
    tasks: &[PlacedTask],
    plant: &Plant,
) -> Result<Vec<TaskBounds>, Stop>
    requires tasks { AllByRecursion (IsPlacedTask plant.now) tasks.now }
    requires count { length tasks.now ≤ 16 }
    requires plant { IsPlant plant.now }
    ensures ends { EndsLate result (broken_up_to_bounds plant.now (map placed_of tasks.now)) }
    ensures told { IfOk result (λ all. map bounds_of all.items ≡ told_from plant.now 0 (map placed_of tasks.now)) }
{
    let lines = footprints_of_all(alloc, tasks, plant)?;
    conflicts(alloc, tasks, &lines, plant)?;
    let all = bounds(alloc, tasks, &lines, plant)?;
    Ok(all)
}

/// Each marked function states at least its bound, and the logs have room.
fn last_rules(
    alloc: Global,
    tasks: &[PlacedTask],
    bounds: &[TaskBounds],
    plant: &Plant,
) -> Result<(), Stop>
    requires tasks { AllByRecursion (IsPlacedTask plant.now) tasks.now }
    requires count { length tasks.now ≤ 16 }
    requires bounds { map bounds_of bounds.now ≡ told_from plant.now 0 (map placed_of tasks.now) }
    ensures { EndsLate result (broken_last plant.now (map coded_of tasks.now) (map placed_of tasks.now)) }
{
    lengths(alloc, tasks, bounds, plant)?;
    logs(alloc, tasks)?;
    Ok(())
}

/// The first rule on lengths, and then on logs, that placed tasks with these bounds break, if they break one. It fails only for want of memory.
pub fn last_refusal(
    alloc: Global,
    tasks: &[PlacedTask],
    bounds: &[TaskBounds],
    plant: &Plant,
) -> Result<Option<Box<Refusal>>, AllocError>
    requires tasks { AllByRecursion (IsPlacedTask plant.now) tasks.now }
    requires count { length tasks.now ≤ 16 }
    requires bounds { map bounds_of bounds.now ≡ told_from plant.now 0 (map placed_of tasks.now) }
    ensures { IfOk result (λ found. found_of found ≡ late_refusal (broken_last plant.now (map coded_of tasks.now) (map placed_of tasks.now))) }
{
    match last_rules(alloc, tasks, bounds, plant) {
        Ok(()) => Ok(None),
        Err(Stop::Refused(refusal)) => Ok(Some(refusal)),
        Err(Stop::OutOfMemory) => Err(AllocError),
    }
}

/// What is told of the marked functions and jobs of placed tasks, or the first rule that they break: first those on
/// conflicts, then those on bounds, on lengths, and on logs, each for all tasks before the next.
pub fn rules_of_placed(
    alloc: Global,
    tasks: &[PlacedTask],
    plant: &Plant,
) -> Result<Vec<TaskBounds>, Stop>
    requires tasks { AllByRecursion (IsPlacedTask plant.now) tasks.now }
    requires count { length tasks.now ≤ 16 }
    requires plant { IsPlant plant.now }
    ensures ends { EndsLate result (broken_behind plant.now (map coded_of tasks.now) (map placed_of tasks.now)) }
    ensures told { IfOk result (λ all. map bounds_of all.items ≡ told_from plant.now 0 (map placed_of tasks.now)) }
{
    let all = bounds_of_placed(alloc, tasks, plant)?;
    last_rules(alloc, tasks, &all, plant)?;
    Ok(all)
}
