// The parts of a set's tasks.
ghost use Rattle.std.specs.Prelude.{◌≡◌, IfOk};
ghost use Rattle.prem_prefetch.specs.Sizes.Sizes.{MayHavePlaces};
ghost use Rattle.prem_tasks.specs.SetOf.{set_of};
ghost use Rattle.prem_tasks.specs.Compiled.{parts_in};
ghost use Rattle.prem_compile.specs.Joined.{HasCode};

use prem_place::placing::CodedTask;
use prem_plant::PartSize;
use prem_prefetch::sizes::set_parts;
use prem_tasks::TaskSet;
use std::alloc::{AllocError, Global};

/// The parts of a set's tasks and devices, in the order of the layout, with their sizes. It fails only for want of memory.
pub fn parts_of_tasks(
    alloc: Global,
    set: &TaskSet,
    tasks: &[CodedTask],
) -> Result<Vec<PartSize>, AllocError>
    requires { HasCode (set_of set.now) tasks.now }
    ensures parts { IfOk result (λ parts. parts.items ≡ parts_in (set_of set.now)) }
    ensures may { IfOk result (λ parts. MayHavePlaces (set_of set.now).plant.line parts.items) }
{
    set_parts(alloc, set.plant(), set.devices(), tasks)
}
