// The rule on lengths: a marked function states at least its bound.
ghost use Rattle.std.specs.Prelude.{◌≡◌, ◌≤◌, map, length};
ghost use Rattle.std.specs.List.{AllByRecursion};
ghost use Rattle.prem_layout.specs.Rules.{over_tasks, length_rules};
ghost use Rattle.prem_place.specs.Placed.PlacedOf.{IsPlacedTask, placed_of};
ghost use Rattle.prem_place.specs.Verdict.Told.{blame_of, HasBlamed, bounds_of, told_from};

use crate::placed::PlacedTask;
use crate::verdict::told::TaskBounds;
use crate::verdict::verdict::{Blame, Verdict};
use prem_bounds::facts::first_short;
use prem_plant::Plant;

/// The first task of which a marked function states less than its bound.
pub fn first_short_interval(tasks: &[PlacedTask], bounds: &[TaskBounds], p: &Plant) -> Option<Blame>
    requires tasks { AllByRecursion (IsPlacedTask p.now) tasks.now }
    requires count { length tasks.now ≤ 16 }
    requires bounds { map bounds_of bounds.now ≡ told_from p.now 0 (map placed_of tasks.now) }
    ensures first { blame_of (map placed_of tasks.now) result ≡ over_tasks (length_rules p.now) (map placed_of tasks.now) }
    ensures there { HasBlamed (map placed_of tasks.now) result }
{
    for n in 0..tasks.len() {
        if let Some(fact) = first_short(&bounds[n].facts) {
            return Some(Blame {
                task: n as u16,
                verdict: Verdict::Length {
                    function: fact.function,
                    bound: fact.bound,
                    stated: fact.stated,
                },
            });
        }
    }
    None
}
