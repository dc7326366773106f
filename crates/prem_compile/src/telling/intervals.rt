// The longest interval of each task of a set.
ghost use Rattle.std.specs.Prelude.{◌≡◌, IfOk, map};
ghost use Rattle.std.specs.List.{AllByRecursion};
ghost use Rattle.prem_list.specs.Sequence.{items_of};
ghost use Rattle.prem_plant.specs.Ranges.{IsPlant};
ghost use Rattle.prem_layout.specs.Stretch.Paths.{longest_of};
ghost use Rattle.prem_place.specs.Placed.PlacedOf.{IsPlacedTask, placed_of};
ghost use Rattle.prem_place.specs.Totals.Limits.{IsBound};
ghost use Rattle.prem_compile.specs.Telling.Longest.{HasBound, longest_in};

use prem_bounds::longest;
use prem_list::Sequence;
use prem_place::placed::PlacedTask;
use prem_plant::Plant;
use std::alloc::{AllocError, Global};

/// The longest interval of a task whose job has a bound that isn't too large.
fn longest_of_task(t: &PlacedTask, p: &Plant) -> u64
    requires task { IsPlacedTask p.now t.now }
    requires plant { IsPlant p.now }
    requires bound { HasBound p.now t.now }
    ensures longest { result ≡ longest_of p.now (placed_of t.now).plans (placed_of t.now).table }
    ensures small { IsBound result }
{
    match longest(t.plans.items(), &t.table, p) {
        Ok(longest) => longest,
        Err(_) => unreachable!(),
    }
}

/// The longest interval of each task. It fails only for want of memory.
pub fn longest_of_tasks(
    alloc: Global,
    tasks: &[PlacedTask],
    p: &Plant,
) -> Result<Sequence<u64>, AllocError>
    requires tasks { AllByRecursion (IsPlacedTask p.now) tasks.now }
    requires plant { IsPlant p.now }
    requires bounds { AllByRecursion (HasBound p.now) tasks.now }
    ensures longest { IfOk result (λ all. items_of all ≡ longest_in p.now (map placed_of tasks.now)) }
    ensures small { IfOk result (λ all. AllByRecursion IsBound (items_of all)) }
{
    let mut all = Sequence::new(alloc);
    for task in tasks {
        all.push(longest_of_task(task, p))?;
    }
    Ok(all)
}
