//! The words of placed tasks, or the first task that has a jump out of reach.
ghost use Rattle.std.specs.Prelude.{◌≡◌, ◌<◌, ◌≤◌, [], IfOk, MatchResult, None, map, length, slice_index_or};
ghost use Rattle.std.specs.List.{AllByRecursion};
ghost use Rattle.prem_layout.specs.Placed.{blocks_of, name_at};
ghost use Rattle.prem_layout.specs.Rules.{reach_rules};
ghost use Rattle.prem_place.specs.Content.Blocks.{block_of};
ghost use Rattle.prem_place.specs.Flat.Blocks.{names_in, words_of};
ghost use Rattle.prem_place.specs.Placed.PlacedOf.{placed_of};
ghost use Rattle.prem_place.specs.Placing.Standing.{stands_in};
ghost use Rattle.prem_place.specs.Stand.Lying.{starts_of};
ghost use Rattle.prem_place.specs.Words.Far.{IsFarIn, EndsFar, words_in};

pub use crate::content::Block;
use crate::flat::{FlatFail, flatten_parts};
use crate::placed::PlacedTask;
use crate::placing::part_count;
use prem_line::Failing;
use prem_plant::{FnId, TaskId};
use std::alloc::{AllocError, Global};

/// The first jump out of reach: its task, and the function whose code or stub has it. The start of a task counts as its `job`.
#[derive(Clone, Copy, Debug, PartialEq, Eq)]
pub struct FarJump {
    pub task: TaskId,
    pub function: FnId,
}

/// Why tasks have no words: a jump is out of reach, or there was no memory.
pub type ReachFail = Failing<FarJump>;

/// The addresses of a task's parts.
fn starts(alloc: Global, t: &PlacedTask) -> Result<Vec<u32>, AllocError>
    requires { stands_in t.now }
    ensures { IfOk result (λ starts. starts.items ≡ starts_of t.now.places) }
{
    let count = part_count(t);
    let mut starts = Vec::new(alloc);
    for n in 0..count {
        starts.push(t.places.place(n).0)?;
    }
    Ok(starts)
}

/// The words of a task, or the number of the part that starts lowest, of those that have a jump out of reach.
fn task_words(alloc: Global, t: &PlacedTask) -> Result<Vec<Block>, FlatFail>
    requires { stands_in t.now }
    ensures words { IfOk result (λ blocks. map block_of blocks.items ≡ map words_of (blocks_of (placed_of t.now))) }
    ensures far { MatchResult result (λ _. reach_rules (placed_of t.now) ≡ None) (IsFarIn (placed_of t.now)) }
{
    match starts(alloc, t) {
        Ok(starts) => flatten_parts(
            alloc,
            t.table.job,
            t.table.code.items(),
            t.table.stubs.items(),
            &starts,
        ),
        Err(_) => Err(FlatFail::OutOfMemory),
    }
}

/// The function of which a part with code is told: of a task's start its `job`, of code and of a stub their function.
fn function_of(t: &PlacedTask, part: usize) -> FnId
    requires stands { stands_in t.now }
    requires there { part < length (names_in (placed_of t.now)) }
    ensures name { name_at (placed_of t.now).task.program.routines result ≡ slice_index_or (names_in (placed_of t.now)) part [] }
    ensures function { result < length (placed_of t.now).task.program.routines }
{
    let functions = t.program.routines.items().len();
    if part == 0 {
        t.table.job
    } else if part <= functions {
        (part - 1) as u16
    } else {
        t.plans.items()[part - 1 - functions].function
    }
}

/// The words of all tasks, or the first task that has a jump out of reach.
pub fn words_of_all(alloc: Global, tasks: &[PlacedTask]) -> Result<Vec<Vec<Block>>, ReachFail>
    requires stands { AllByRecursion stands_in tasks.now }
    requires count { length tasks.now ≤ 16 }
    ensures ends { EndsFar (map placed_of tasks.now) result }
    ensures words { IfOk result (λ all. map (λ blocks. map block_of blocks.items) all.items ≡ map words_in tasks.now) }
{
    let mut all = Vec::new(alloc);
    for n in 0..tasks.len() {
        match task_words(alloc, &tasks[n]) {
            Ok(blocks) => all.push(blocks)?,
            Err(FlatFail::Refused(part)) => {
                return Err(ReachFail::Refused(FarJump {
                    task: n as u16,
                    function: function_of(&tasks[n], part),
                }));
            }
            Err(FlatFail::OutOfMemory) => return Err(ReachFail::OutOfMemory),
        }
    }
    Ok(all)
}
