// The rule on jumps: the code of placed tasks has words.
ghost use Rattle.std.specs.Prelude.{◌≡◌, ◌≤◌, IfOk, length, map};
ghost use Rattle.std.specs.List.{AllByRecursion};
ghost use Rattle.prem_layout.specs.Rules.{over_tasks, reach_rules};
ghost use Rattle.prem_place.specs.Content.Blocks.{block_of};
ghost use Rattle.prem_place.specs.Placed.PlacedOf.{placed_of};
ghost use Rattle.prem_place.specs.Placing.Standing.{stands_in};
ghost use Rattle.prem_place.specs.Words.Far.{words_in};
ghost use Rattle.prem_compile.specs.PlacedStages.Late.{EndsLate};

use crate::placed_stages::refusals::unreached;
use prem_place::placed::PlacedTask;
use prem_place::words::{Block, ReachFail, words_of_all};
use prem_tasks::Stop;
use std::alloc::Global;

/// The words of all tasks, or the first task that has a jump out of reach.
pub fn blocks_of(alloc: Global, tasks: &[PlacedTask]) -> Result<Vec<Vec<Block>>, Stop>
    requires stands { AllByRecursion stands_in tasks.now }
    requires count { length tasks.now ≤ 16 }
    ensures ends { EndsLate result (over_tasks reach_rules (map placed_of tasks.now)) }
    ensures words { IfOk result (λ all. map (λ blocks. map block_of blocks.items) all.items ≡ map words_in tasks.now) }
{
    match words_of_all(alloc, tasks) {
        Ok(all) => Ok(all),
        Err(ReachFail::Refused(jump)) => Err(unreached(alloc, tasks, jump)),
        Err(ReachFail::OutOfMemory) => Err(Stop::OutOfMemory),
    }
}
