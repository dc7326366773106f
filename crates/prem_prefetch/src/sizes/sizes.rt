// The parts of a set, with their sizes.
ghost use Rattle.std.specs.Prelude.{◌≡◌, ◌≤◌, ◌++◌, All, length, IfOk, OnOk};
ghost use Rattle.std.specs.List.{AllByRecursion};
ghost use Rattle.prem_plant.specs.Ranges.{IsPlant, IsDevice};
ghost use Rattle.prem_layout.specs.Parts.{stub_passes};
ghost use Rattle.prem_prefetch.specs.Sizes.Sizes.{sized_parts, sized_from, parts_in, MayHavePlaces, MayHaveParts};

use crate::parts::{push_areas, push_task};
use crate::sizes::coded::CodedTask;
use prem_plant::{Device, PartSize, Plant, TaskId};
use std::alloc::{AllocError, Global};

/// Puts the parts of a task behind other parts.
fn push_coded(
    parts: &mut Vec<PartSize>,
    n: TaskId,
    task: &CodedTask,
    plant: &Plant,
) -> Result<(), AllocError>
    requires { MayHaveParts task.now }
    ensures { OnOk result (parts.new.items ≡ parts.old.items ++ sized_parts (stub_passes plant.now) n task.now) }
{
    push_task(
        parts,
        n,
        task.code.items(),
        task.plans.items(),
        &task.program.globals,
        task.stack,
        plant,
    )
}

/// The parts of tasks, one task behind another.
fn parts_of_tasks(
    alloc: Global,
    plant: &Plant,
    tasks: &[CodedTask],
) -> Result<Vec<PartSize>, AllocError>
    requires tasks { AllByRecursion MayHaveParts tasks.now }
    requires count { length tasks.now ≤ 16 }
    ensures { IfOk result (λ parts. parts.items ≡ sized_from (stub_passes plant.now) 0 tasks.now) }
{
    let mut parts = Vec::new(alloc);
    let mut n = 0u16;
    for task in tasks {
        push_coded(&mut parts, n, task, plant)?;
        n += 1;
    }
    Ok(parts)
}

/// The parts of tasks and devices, in their order: those of each task, then the areas of devices. It fails only for want of
/// memory.
pub fn set_parts(
    alloc: Global,
    plant: &Plant,
    devices: &[Device],
    tasks: &[CodedTask],
) -> Result<Vec<PartSize>, AllocError>
    requires tasks { AllByRecursion MayHaveParts tasks.now }
    requires count { length tasks.now ≤ 16 }
    requires devices { length devices.now ≤ 8 }
    requires plant { IsPlant plant.now }
    requires each { All IsDevice devices.now }
    ensures parts { IfOk result (λ parts. parts.items ≡ parts_in plant.now devices.now tasks.now) }
    ensures may { IfOk result (λ parts. MayHavePlaces plant.now.line parts.items) }
{
    let mut parts = parts_of_tasks(alloc, plant, tasks)?;
    push_areas(&mut parts, plant.line, devices)?;
    Ok(parts)
}
