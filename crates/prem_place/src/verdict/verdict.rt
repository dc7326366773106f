// How placed tasks break the rules on their marked functions.
ghost use Rattle.std.specs.Prelude.{◌≡◌, IfOk, map};
ghost use Rattle.prem_syntax.specs.Name.{name_bytes};
ghost use Rattle.prem_place.specs.Placed.PlacedOf.{placed_of};
ghost use Rattle.prem_place.specs.Verdict.Told.{name_in, HasFunction};

use crate::placed::PlacedTask;
use prem_bounds::facts::Clash;
use prem_plant::{FnId, TaskId};
use prem_syntax::{Name, copy_name};
use std::alloc::{AllocError, Global};

/// A rule on marked functions that is broken.
#[derive(Clone, Copy, Debug, PartialEq, Eq)]
pub enum Verdict {
    /// More lines of a marked function go into a set of the cache than it has ways.
    Conflict(Clash),
    /// The bound of a function on cycles passes 2^40.
    BoundTooLarge(FnId),
    /// The stated length of a marked function is less than its bound.
    Length {
        function: FnId,
        bound: u64,
        stated: u32,
    },
}

/// A task that breaks a rule.
#[derive(Clone, Copy, Debug, PartialEq, Eq)]
pub struct Blame {
    pub task: TaskId,
    pub verdict: Verdict,
}

/// The name of a function of a task. It fails only for want of memory.
pub fn function_name(
    alloc: Global,
    tasks: &[PlacedTask],
    task: TaskId,
    f: FnId,
) -> Result<Name, AllocError>
    requires { HasFunction (map placed_of tasks.now) task f }
    ensures { IfOk result (λ name. name_bytes name ≡ name_in (map placed_of tasks.now) task f) }
{
    let program = &tasks[usize::from(task)].program;
    let text = program.routines.items()[usize::from(f)].text;
    copy_name(alloc, &text.name)
}
