// A compiled set with the bill of one job of each of its tasks.
ghost use Rattle.std.specs.Prelude.{◌≡◌, ◌≤◌, length, map, IfOk};
ghost use Rattle.std.specs.List.{AllByRecursion};
ghost use Rattle.prem_plant.specs.Places.{ArePlaces};
ghost use Rattle.prem_plant.specs.Ranges.{IsPlant};
ghost use Rattle.prem_place.specs.Placed.PlacedOf.{placed_of};
ghost use Rattle.prem_tasks.specs.SetOf.{set_of};
ghost use Rattle.prem_tasks.specs.Compiled.{parts_in};
ghost use Rattle.prem_compile.specs.Joined.{HasCode, HasPlaces};
ghost use Rattle.prem_compile.specs.Telling.Named.{AreNamed};
ghost use Rattle.prem_wcet.specs.Lengths.{IsTimedTask};
ghost use Rattle.prem_profile.specs.Bound.Profile.{AreShort, set_bill};
ghost use Rattle.prem_profile.specs.Bound.Billed.{EndsBilled, EndsBilledAt, IsBilledAnswer};

use crate::bound::bill::{Item, append};
use crate::bound::task::task_items;
use prem_compile::coding::{CodedTask, coded_tasks, parts_of_tasks};
use prem_compile::placed_stages::places_of;
use prem_compile::telling::{NamedParts, named_parts};
use prem_compile::{CompileFail, Compiled, TaskSet, compile_placed};
use prem_place::placed::PlacedTask;
use prem_place::placing::place_all;
use prem_plant::{Layout, PartSize, Plant};
use prem_stages::checked_programs;
use prem_tasks::Stop;
use std::alloc::{AllocError, Global};

/// What a set is compiled to, and the bill of one job of each task.
#[derive(Drop)]
pub struct BilledSet {
    pub compiled: Compiled,
    pub bill: Vec<Item>,
}

/// The bill of one job of each task.
fn set_items(alloc: Global, tasks: &[PlacedTask], p: &Plant) -> Result<Vec<Item>, AllocError>
    requires tasks { AllByRecursion (IsTimedTask p.now) tasks.now }
    requires plant { IsPlant p.now }
    requires few { length tasks.now ≤ 16 }
    ensures bill { IfOk result (λ bill. bill.items ≡ set_bill p.now (map placed_of tasks.now)) }
    ensures short { IfOk result (λ bill. AreShort p.now (map placed_of tasks.now)) }
{
    let mut bill = Vec::new(alloc);
    let mut k = 0;
    'tasks: for task in tasks {
        let job = task_items(alloc, task, k, p)?;
        append(&mut bill, &job)?;
        k += 1;
    }
    Ok(bill)
}

/// What a set is compiled to whose tasks stand at the places of their parts, with its bill.
fn billed_placed(
    alloc: Global,
    set: &TaskSet,
    parts: NamedParts,
    layout: Layout,
    tasks: &[PlacedTask],
) -> Result<BilledSet, Stop>
    requires named { AreNamed (set_of set.now) parts }
    requires placed { HasPlaces (set_of set.now) parts.sizes.items layout tasks.now }
    ensures { EndsBilledAt (set_of set.now) layout result }
{
    let plant = set.plant();
    let compiled = compile_placed(alloc, set, parts, layout, tasks)?;
    let bill = set_items(alloc, tasks, plant)?;
    Ok(BilledSet { compiled, bill })
}

/// The tasks at the places of their parts, and what comes behind them.
fn billed_in_layout(
    alloc: Global,
    set: &TaskSet,
    tasks: Vec<CodedTask>,
    parts: Vec<PartSize>,
    layout: Layout,
) -> Result<BilledSet, Stop>
    requires code { HasCode (set_of set.now) tasks.items }
    requires parts { parts.items ≡ parts_in (set_of set.now) }
    requires few { length parts.items ≤ 100000 }
    requires placed { ArePlaces (set_of set.now).plant.memory parts.items layout }
    ensures { EndsBilledAt (set_of set.now) layout result }
{
    let plant = set.plant();
    let parts = named_parts(alloc, set, &tasks, parts)?;
    let placed = place_all(alloc, tasks, &layout, plant)?;
    billed_placed(alloc, set, parts, layout, &placed)
}

/// The rule on memory, the default places of all parts, and what comes behind them.
fn billed_coded(alloc: Global, set: &TaskSet, tasks: Vec<CodedTask>) -> Result<BilledSet, Stop>
    requires { HasCode (set_of set.now) tasks.items }
    ensures { EndsBilled (set_of set.now) result }
{
    let plant = set.plant();
    let parts = parts_of_tasks(alloc, set, &tasks)?;
    let layout = places_of(alloc, &parts, plant)?;
    billed_in_layout(alloc, set, tasks, parts, layout)
}

/// All groups of rules in their order, each over all tasks before the next, then the image and the bill.
fn stages(alloc: Global, set: &TaskSet) -> Result<BilledSet, Stop>
    ensures { EndsBilled (set_of set.now) result }
{
    let programs = checked_programs(alloc, set)?;
    let tasks = coded_tasks(alloc, set, &programs)?;
    billed_coded(alloc, set, tasks)
}

/// What a task set is compiled to, as by `compile`, with the bill of one job of each task.
pub fn bill_set(alloc: Global, set: &TaskSet) -> Result<BilledSet, CompileFail>
    ensures { IsBilledAnswer (set_of set.now) result }
{
    match stages(alloc, set) {
        Ok(billed) => Ok(billed),
        Err(Stop::Refused(refusal)) => Err(CompileFail::Refused(Box::into_inner(refusal))),
        Err(Stop::OutOfMemory) => Err(CompileFail::OutOfMemory),
    }
}
