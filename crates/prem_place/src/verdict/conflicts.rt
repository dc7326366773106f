// The rule on conflicts: no set of the cache is asked for more lines of a marked function than it has ways.
ghost use Rattle.std.specs.Prelude.{◌≡◌, ◌≤◌, IfOk, map, length};
ghost use Rattle.std.specs.List.{AllByRecursion};
ghost use Rattle.prem_plant.specs.Ranges.{IsPlant};
ghost use Rattle.prem_layout.specs.Rules.{over_tasks, conflict_rules};
ghost use Rattle.prem_place.specs.Placed.PlacedOf.{IsPlacedTask, placed_of, lines_of};
ghost use Rattle.prem_place.specs.Verdict.Told.{blame_of, HasBlamed};

use crate::placed::PlacedTask;
use crate::verdict::verdict::{Blame, Verdict};
use prem_bounds::facts::{first_clash, footprints};
use prem_foot::Lines;
use prem_plant::Plant;
use std::alloc::{AllocError, Global};

/// The lines that the marked functions of each task touch.
pub fn footprints_of_all(
    alloc: Global,
    tasks: &[PlacedTask],
    p: &Plant,
) -> Result<Vec<Vec<Lines>>, AllocError>
    requires tasks { AllByRecursion (IsPlacedTask p.now) tasks.now }
    requires plant { IsPlant p.now }
    ensures { IfOk result (λ all. map (λ lines. lines.items) all.items ≡ map (lines_of p.now) tasks.now) }
{
    let mut all = Vec::new(alloc);
    for task in tasks {
        all.push(footprints(alloc, task.plans.items(), &task.places, p)?)?;
    }
    Ok(all)
}

/// The first task of which a marked function's lines don't fit the cache.
pub fn first_conflict(tasks: &[PlacedTask], lines: &[Vec<Lines>], p: &Plant) -> Option<Blame>
    requires tasks { AllByRecursion (IsPlacedTask p.now) tasks.now }
    requires count { length tasks.now ≤ 16 }
    requires lines { map (λ lines. lines.items) lines.now ≡ map (lines_of p.now) tasks.now }
    requires plant { IsPlant p.now }
    ensures first { blame_of (map placed_of tasks.now) result ≡ over_tasks (conflict_rules p.now) (map placed_of tasks.now) }
    ensures there { HasBlamed (map placed_of tasks.now) result }
{
    for n in 0..tasks.len() {
        if let Some(clash) = first_clash(tasks[n].plans.items(), &lines[n], p) {
            return Some(Blame {
                task: n as u16,
                verdict: Verdict::Conflict(clash),
            });
        }
    }
    None
}
