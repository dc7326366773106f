// The parts of a task set, and what its marked functions want of the cache.
ghost use Rattle.std.specs.Prelude.{◌≡◌, ◌++◌, ◌≤◌, IfOk, OnOk, length, map};
ghost use Rattle.std.specs.List.{AllByRecursion};
ghost use Rattle.prem_list.specs.Sequence.{items_of};
ghost use Rattle.prem_layout.specs.Plans.{plans_of};
ghost use Rattle.prem_layout.specs.Parts.{part_count};
ghost use Rattle.prem_prefetch.specs.Sizes.CodedOf.{IsCodedTask, coded_in};
ghost use Rattle.prem_prefetch.specs.Sizes.Sizes.{MayHavePlaces};
ghost use Rattle.prem_color.specs.Standing.{PlanStands, TasksStand};
ghost use Rattle.prem_color.specs.Wants.{shape_of, task_wants, wants_of};
ghost use Rattle.prem_color.specs.WantOf.{want_of};
ghost use Rattle.prem_tasks.specs.SetOf.{set_of};
ghost use Rattle.prem_tasks.specs.Compiled.{parts_in};
ghost use Rattle.prem_compile.specs.Joined.{HasCode};
ghost use Rattle.prem_compile.specs.PartsOf.{AreParts, EndsParts, IsPartsAnswer};
ghost use Rattle.prem_compile.specs.Telling.Named.{AreNamed};

use crate::coding::{coded_tasks, parts_of_tasks};
use crate::telling::{NamedParts, named_parts};
use prem_color::{push_wants, shape_of};
use prem_foot::Want;
use prem_list::Sequence;
use prem_place::placing::CodedTask;
use prem_plant::{PartSize, TaskId};
use prem_stages::checked_programs;
use prem_syntax::Name;
use prem_tasks::{CompileFail, Stop, TaskSet};
use std::alloc::{AllocError, Global};

/// The parts of a task set in the order of the layout, and what its marked functions want of the cache.
#[derive(Drop)]
pub struct Parts {
    pub sizes: Sequence<PartSize>,
    /// The name of each part: a start and a stack have their task's, any other part has its function's, global's or device's.
    pub names: Sequence<Name>,
    /// The ranges of bytes of each marked function, one task after another, in the order of the text.
    pub wants: Sequence<Want>,
}

/// How many parts a task has.
fn part_count(task: &CodedTask) -> usize
    requires { IsCodedTask task.now }
    ensures count { result ≡ part_count (coded_in task.now).program }
    ensures few { result ≤ 1024 }
{
    let program = &task.program;
    2 + program.routines.items().len() + task.plans.items().len() + program.globals.len()
}

/// Puts the wants of a task, whose start has the number `first`, behind others.
fn push_task(
    alloc: Global,
    wants: &mut Sequence<Want>,
    sizes: &[PartSize],
    n: TaskId,
    first: u32,
    task: &CodedTask,
) -> Result<(), AllocError>
    requires task { IsCodedTask task.now }
    requires first { first ≤ 16384 }
    requires there { AllByRecursion (PlanStands sizes.now (shape_of (coded_in task.now).program) first) (plans_of (coded_in task.now).program) }
    ensures { OnOk result (map want_of (items_of wants.new) ≡ map want_of (items_of wants.old) ++ task_wants sizes.now n first (coded_in task.now).program) }
{
    let shape = shape_of(alloc, &task.program)?;
    push_wants(alloc, wants, sizes, &shape, n, first, task.plans.items())
}

/// The wants of all tasks.
fn wants_of(
    alloc: Global,
    sizes: &[PartSize],
    tasks: &[CodedTask],
) -> Result<Sequence<Want>, AllocError>
    requires tasks { AllByRecursion IsCodedTask tasks.now }
    requires count { length tasks.now ≤ 16 }
    requires there { TasksStand sizes.now 0 (map coded_in tasks.now) }
    ensures { IfOk result (λ wants. map want_of (items_of wants) ≡ wants_of sizes.now (map coded_in tasks.now)) }
{
    let mut wants = Sequence::new(alloc);
    let mut first = 0;
    for n in 0..tasks.len() {
        push_task(alloc, &mut wants, sizes, n as u16, first as u32, &tasks[n])?;
        first += part_count(&tasks[n]);
    }
    Ok(wants)
}

/// The parts of tasks with their code, by their sizes and names.
fn parts_with(
    alloc: Global,
    set: &TaskSet,
    tasks: &[CodedTask],
    parts: NamedParts,
) -> Result<Parts, AllocError>
    requires code { HasCode (set_of set.now) tasks.now }
    requires named { AreNamed (set_of set.now) parts }
    requires may { MayHavePlaces (set_of set.now).plant.line (parts_in (set_of set.now)) }
    ensures { IfOk result (AreParts (set_of set.now)) }
{
    let wants = wants_of(alloc, &parts.sizes, tasks)?;
    Ok(Parts {
        sizes: Sequence::from_vec(parts.sizes),
        names: parts.names,
        wants,
    })
}

/// The parts of tasks with their code.
fn parts_of_coded(alloc: Global, set: &TaskSet, tasks: &[CodedTask]) -> Result<Parts, AllocError>
    requires { HasCode (set_of set.now) tasks.now }
    ensures { IfOk result (AreParts (set_of set.now)) }
{
    let sizes = parts_of_tasks(alloc, set, tasks)?;
    let parts = named_parts(alloc, set, tasks, sizes)?;
    parts_with(alloc, set, tasks, parts)
}

/// The groups of rules up to code generation, then the parts.
fn stages(alloc: Global, set: &TaskSet) -> Result<Parts, Stop>
    ensures { EndsParts (set_of set.now) result }
{
    let programs = checked_programs(alloc, set)?;
    let tasks = coded_tasks(alloc, set, &programs)?;
    let parts = parts_of_coded(alloc, set, &tasks)?;
    Ok(parts)
}

/// The parts of a task set with their sizes and names, and the ranges of its marked functions by them, or the first rule on texts, programs,
/// ranges or code generation that it breaks.
///
/// `Refused` comes exactly where one is broken, and tells the first with its task; `OutOfMemory` comes only for want of memory.
pub fn parts_of(alloc: Global, set: &TaskSet) -> Result<Parts, CompileFail>
    ensures { IsPartsAnswer (set_of set.now) result }
{
    match stages(alloc, set) {
        Ok(parts) => Ok(parts),
        Err(Stop::Refused(refusal)) => Err(CompileFail::Refused(Box::into_inner(refusal))),
        Err(Stop::OutOfMemory) => Err(CompileFail::OutOfMemory),
    }
}
