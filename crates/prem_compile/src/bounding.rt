// The bounds of a set's marked functions and jobs, and the first rule behind them.
ghost use Rattle.std.specs.Prelude.{◌≡◌, ◌≤◌, length};
ghost use Rattle.prem_plant.specs.Places.{ArePlaces};
ghost use Rattle.prem_tasks.specs.SetOf.{set_of};
ghost use Rattle.prem_tasks.specs.Compiled.{parts_in};
ghost use Rattle.prem_stages.specs.Coded.{AreFormed};
ghost use Rattle.prem_compile.specs.Joined.{HasCode, HasPlaces};
ghost use Rattle.prem_compile.specs.Bounding.{EndsBounds};
ghost use Rattle.prem_compile.specs.Judging.{EndsJudged, EndsJudgedAt};

use crate::coding::{coded_tasks, parts_of_tasks};
use crate::placed_stages::{blocks_of, bounds_of_placed, last_refusal, places_of};
use prem_place::placing::{CodedTask, PlacedTask, place_all};
use prem_place::verdict::TaskBounds;
use prem_plant::{Layout, PartSize};
use prem_stages::checked_programs;
use prem_tasks::{Refusal, Stop, TaskSet};
use prem_tree::Checked;
use std::alloc::Global;

/// What is found of a set that breaks no rule up to bounds.
#[derive(Drop)]
pub struct Judged {
    /// The bounds of the marked functions of each task, with that of its jobs.
    pub bounds: Vec<TaskBounds>,
    /// The first rule on stated lengths or logs that it breaks, which is the first of all.
    pub refusal: Option<Box<Refusal>>,
}

/// The rules on jumps, conflicts and bounds, and where none is broken the bounds and the first rule behind them.
fn judged_at_places(
    alloc: Global,
    set: &TaskSet,
    parts: &[PartSize],
    layout: Layout,
    tasks: &[PlacedTask],
) -> Result<Judged, Stop>
    requires { HasPlaces (set_of set.now) parts.now layout tasks.now }
    ensures { EndsJudgedAt (set_of set.now) layout result }
{
    let plant = set.plant();
    let _blocks = blocks_of(alloc, tasks)?;
    let bounds = bounds_of_placed(alloc, tasks, plant)?;
    let refusal = last_refusal(alloc, tasks, &bounds, plant)?;
    Ok(Judged { bounds, refusal })
}

/// The tasks at the places of their parts, and what comes behind them.
fn judged_in_layout(
    alloc: Global,
    set: &TaskSet,
    tasks: Vec<CodedTask>,
    parts: &[PartSize],
    layout: Layout,
) -> Result<Judged, Stop>
    requires code { HasCode (set_of set.now) tasks.items }
    requires parts { parts.now ≡ parts_in (set_of set.now) }
    requires few { length parts.now ≤ 100000 }
    requires placed { ArePlaces (set_of set.now).plant.memory parts.now layout }
    ensures { EndsJudgedAt (set_of set.now) layout result }
{
    let plant = set.plant();
    let placed = place_all(alloc, tasks, &layout, plant)?;
    judged_at_places(alloc, set, parts, layout, &placed)
}

/// The rule on memory, the default places of all parts, and what comes behind them.
fn judged_coded(alloc: Global, set: &TaskSet, tasks: Vec<CodedTask>) -> Result<Judged, Stop>
    requires { HasCode (set_of set.now) tasks.items }
    ensures { EndsJudged (set_of set.now) result }
{
    let plant = set.plant();
    let parts = parts_of_tasks(alloc, set, &tasks)?;
    let layout = places_of(alloc, &parts, plant)?;
    judged_in_layout(alloc, set, tasks, &parts, layout)
}

/// The first rule that a set breaks, of which these are the programs, with the bounds of its marked functions where none is broken up to
/// bounds. No image is made.
///
/// `Refused` comes exactly where a rule on ranges, code generation, memory, jumps, conflicts or bounds is broken, and tells the first with its
/// task; `OutOfMemory` comes only for want of memory.
///
/// Condition: the texts and programs of the set break no rule, and these are its programs.
pub fn judge_programs(alloc: Global, set: &TaskSet, programs: &[Checked]) -> Result<Judged, Stop>
    requires { AreFormed (set_of set.now) programs.now }
    ensures { EndsJudged (set_of set.now) result }
{
    let tasks = coded_tasks(alloc, set, programs)?;
    judged_coded(alloc, set, tasks)
}

/// The bounds of the marked functions of each task, with that of its jobs, or the first rule up to bounds that the set
/// breaks: those on texts, programs, ranges, code generation, memory, jumps, conflicts and bounds, each over all tasks before
/// the next. No stated length is held against its bound.
///
/// `Refused` comes exactly where one is broken, and tells the first with its task; `OutOfMemory` comes only for want of memory.
pub fn bounds_of_set(alloc: Global, set: &TaskSet) -> Result<Vec<TaskBounds>, Stop>
    ensures { EndsBounds (set_of set.now) result }
{
    let programs = checked_programs(alloc, set)?;
    let judged = judge_programs(alloc, set, &programs)?;
    Ok(judged.bounds)
}
