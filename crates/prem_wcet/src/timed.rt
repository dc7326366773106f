// A compiled set with what its jobs take.
ghost use Rattle.std.specs.Prelude.{◌≡◌, ◌+◌, ◌≤◌, ◌<◌, ◌^◌, min, IfOk, length, map, get_or};
ghost use Rattle.std.specs.List.{AllByRecursion};
ghost use Rattle.prem_list.specs.Sequence.{items_of};
ghost use Rattle.prem_plant.specs.Places.{ArePlaces};
ghost use Rattle.prem_plant.specs.Ranges.{IsPlant};
ghost use Rattle.prem_place.specs.Placed.PlacedOf.{IsPlacedTask, placed_of, plans_of};
ghost use Rattle.prem_tasks.specs.SetOf.{set_of};
ghost use Rattle.prem_tasks.specs.Compiled.{parts_in};
ghost use Rattle.prem_compile.specs.Joined.{HasCode, HasPlaces};
ghost use Rattle.prem_compile.specs.Telling.Named.{AreNamed};
ghost use Rattle.prem_wcet.specs.Times.{closed_by, interval_text, times_of};
ghost use Rattle.prem_wcet.specs.Lengths.{IsOpening, IsTimedTask, lengths_within, opens_in, stated_in};
ghost use Rattle.prem_wcet.specs.TimedOf.{AreSmall, EndsTimed, EndsTimedAt, IsTimedAnswer, interval_of, times_in};

use crate::opens::opens;
use crate::task::times_in;
use prem_compile::coding::{CodedTask, coded_tasks, parts_of_tasks};
use prem_compile::placed_stages::places_of;
use prem_compile::telling::{NamedParts, named_parts};
use prem_compile::{CompileFail, Compiled, TaskSet, compile_placed};
use prem_list::Sequence;
use prem_place::placed::PlacedTask;
use prem_place::placing::place_all;
use prem_plant::{Layout, PartSize, Plant};
use prem_stages::checked_programs;
use prem_syntax::{Name, copy_name};
use prem_tasks::Stop;
use std::alloc::{AllocError, Global};

/// A marked function: its name, its stated length, and by when, in cycles from its interval's first one, it opens the bus.
#[derive(Drop)]
pub struct IntervalTime {
    pub name: Name,
    pub stated: u32,
    pub opens: u64,
}

/// Of a task, in cycles: what a job takes at most; its longest stretch or interval with the switch before it; its marked functions in the
/// order of the text; and what a job keeps closed to each of some transfers.
#[derive(Drop)]
pub struct TaskTimes {
    pub wcet: u64,
    pub longest: u64,
    pub intervals: Sequence<IntervalTime>,
    pub closed: Sequence<u64>,
}

/// What a set is compiled to, and what the jobs of its tasks take.
#[derive(Drop)]
pub struct Timed {
    pub compiled: Compiled,
    pub tasks: Sequence<TaskTimes>,
}

/// The stated lengths of marked functions.
pub fn stated_of(alloc: Global, t: &PlacedTask) -> Result<Vec<u32>, AllocError>
    ensures { IfOk result (λ lengths. lengths.items ≡ stated_in t.now) }
{
    let plans = t.plans.items();
    let mut lengths = Vec::new(alloc);
    for plan in plans {
        lengths.push(plan.stated)?;
    }
    Ok(lengths)
}

/// A stated length, or an opening and a transfer of such a cost where these are shorter.
fn length_within(stated: u32, opening: u64, top: u32) -> u32
    requires { IsOpening opening }
    ensures { result ≡ min stated (opening + top) }
{
    let most = opening + u64::from(top);
    u64::from(stated).min(most) as u32
}

/// These lengths, none longer than an opening and a transfer of such a cost.
fn lengths_of(
    alloc: Global,
    stated: &[u32],
    opens: &[u64],
    top: u32,
) -> Result<Vec<u32>, AllocError>
    requires count { length opens.now ≡ length stated.now }
    requires small { AllByRecursion IsOpening opens.now }
    ensures { IfOk result (λ lengths. lengths.items ≡ lengths_within top opens.now stated.now) }
{
    let mut lengths = Vec::new(alloc);
    for k in 0..stated.len() {
        let length = length_within(stated[k], opens[k], top);
        lengths.push(length)?;
    }
    Ok(lengths)
}

/// A marked function of a task.
fn interval_at(
    alloc: Global,
    t: &PlacedTask,
    k: usize,
    opens: &[u64],
    p: &Plant,
) -> Result<IntervalTime, AllocError>
    requires task { IsPlacedTask p.now t.now }
    requires opens { opens.now ≡ opens_in p.now t.now }
    requires there { k < length (items_of t.now.plans) }
    ensures { IfOk result (λ i. get_or (map (interval_text p.now (placed_of t.now)) (plans_of t.now)) k (interval_of i) ≡ interval_of i) }
{
    let _p = p;
    let plans = t.plans.items();
    let plan = &plans[k];
    let stated = plan.stated;
    let f = usize::from(plan.function);
    let routines = t.program.routines.items();
    let text = routines[f].text;
    let name = copy_name(alloc, &text.name)?;
    Ok(IntervalTime {
        name,
        stated,
        opens: opens[k],
    })
}

/// The marked functions of a task, in the order of the text.
fn intervals_of(
    alloc: Global,
    t: &PlacedTask,
    opens: &[u64],
    p: &Plant,
) -> Result<Sequence<IntervalTime>, AllocError>
    requires task { IsPlacedTask p.now t.now }
    requires opens { opens.now ≡ opens_in p.now t.now }
    ensures { IfOk result (λ all. map interval_of (items_of all) ≡ map (interval_text p.now (placed_of t.now)) (plans_of t.now)) }
{
    let plans = t.plans.items();
    let mut all = Sequence::new(alloc);
    for k in 0..plans.len() {
        let interval = interval_at(alloc, t, k, opens, p)?;
        all.push(interval)?;
    }
    Ok(all)
}

/// What a job keeps closed to a transfer of such a cost.
fn closed_to(
    alloc: Global,
    t: &PlacedTask,
    stated: &[u32],
    opens: &[u64],
    top: u32,
    p: &Plant,
) -> Result<u64, AllocError>
    requires task { IsTimedTask p.now t.now }
    requires plant { IsPlant p.now }
    requires stated { stated.now ≡ stated_in t.now }
    requires opens { opens.now ≡ opens_in p.now t.now }
    ensures closed { IfOk result (λ n. n ≡ closed_by p.now (placed_of t.now) top) }
    ensures small { IfOk result (λ n. n ≤ 2 ^ 40) }
{
    let lengths = lengths_of(alloc, stated, opens, top)?;
    let times = times_in(alloc, t, &lengths, p)?;
    Ok(times.wcet)
}

/// What a job keeps closed to transfers of each of these costs.
fn closed_of(
    alloc: Global,
    t: &PlacedTask,
    stated: &[u32],
    opens: &[u64],
    tops: &[u32],
    p: &Plant,
) -> Result<Sequence<u64>, AllocError>
    requires task { IsTimedTask p.now t.now }
    requires plant { IsPlant p.now }
    requires stated { stated.now ≡ stated_in t.now }
    requires opens { opens.now ≡ opens_in p.now t.now }
    ensures closed { IfOk result (λ all. items_of all ≡ map (closed_by p.now (placed_of t.now)) tops.now) }
    ensures small { IfOk result (λ all. AllByRecursion (λ n. n ≤ 2 ^ 40) (items_of all)) }
{
    let mut all = Sequence::new(alloc);
    for top in tops {
        let closed = closed_to(alloc, t, stated, opens, *top, p)?;
        all.push(closed)?;
    }
    Ok(all)
}

/// What is told of the jobs of a task.
fn task_times(
    alloc: Global,
    t: &PlacedTask,
    tops: &[u32],
    p: &Plant,
) -> Result<TaskTimes, AllocError>
    requires task { IsTimedTask p.now t.now }
    requires plant { IsPlant p.now }
    ensures times { IfOk result (λ x. times_in x ≡ times_of p.now tops.now (placed_of t.now)) }
    ensures small { IfOk result (λ x. AreSmall (times_in x)) }
{
    let opens = opens(alloc, t, p)?;
    let stated = stated_of(alloc, t)?;
    let times = times_in(alloc, t, &stated, p)?;
    let intervals = intervals_of(alloc, t, &opens, p)?;
    let closed = closed_of(alloc, t, &stated, &opens, tops, p)?;
    Ok(TaskTimes {
        wcet: times.wcet,
        longest: times.longest,
        intervals,
        closed,
    })
}

/// What is told of the jobs of all tasks.
fn times_of_all(
    alloc: Global,
    tasks: &[PlacedTask],
    tops: &[u32],
    p: &Plant,
) -> Result<Sequence<TaskTimes>, AllocError>
    requires tasks { AllByRecursion (IsTimedTask p.now) tasks.now }
    requires plant { IsPlant p.now }
    ensures times { IfOk result (λ all. map times_in (items_of all) ≡ map (times_of p.now tops.now) (map placed_of tasks.now)) }
    ensures small { IfOk result (λ all. AllByRecursion AreSmall (map times_in (items_of all))) }
{
    let mut all = Sequence::new(alloc);
    for task in tasks {
        let times = task_times(alloc, task, tops, p)?;
        all.push(times)?;
    }
    Ok(all)
}

/// What a set is compiled to whose tasks stand at the places of their parts, with its times.
fn timed_placed(
    alloc: Global,
    set: &TaskSet,
    tops: &[u32],
    parts: NamedParts,
    layout: Layout,
    tasks: &[PlacedTask],
) -> Result<Timed, Stop>
    requires named { AreNamed (set_of set.now) parts }
    requires placed { HasPlaces (set_of set.now) parts.sizes.items layout tasks.now }
    ensures { EndsTimedAt (set_of set.now) layout tops.now result }
{
    let plant = set.plant();
    let compiled = compile_placed(alloc, set, parts, layout, tasks)?;
    let tasks = times_of_all(alloc, tasks, tops, plant)?;
    Ok(Timed { compiled, tasks })
}

/// The tasks at the places of their parts, and what comes behind them.
fn timed_in_layout(
    alloc: Global,
    set: &TaskSet,
    tops: &[u32],
    tasks: Vec<CodedTask>,
    parts: Vec<PartSize>,
    layout: Layout,
) -> Result<Timed, Stop>
    requires code { HasCode (set_of set.now) tasks.items }
    requires parts { parts.items ≡ parts_in (set_of set.now) }
    requires few { length parts.items ≤ 100000 }
    requires placed { ArePlaces (set_of set.now).plant.memory parts.items layout }
    ensures { EndsTimedAt (set_of set.now) layout tops.now result }
{
    let plant = set.plant();
    let parts = named_parts(alloc, set, &tasks, parts)?;
    let placed = place_all(alloc, tasks, &layout, plant)?;
    timed_placed(alloc, set, tops, parts, layout, &placed)
}

/// The rule on memory, the default places of all parts, and what comes behind them.
fn timed_coded(
    alloc: Global,
    set: &TaskSet,
    tops: &[u32],
    tasks: Vec<CodedTask>,
) -> Result<Timed, Stop>
    requires { HasCode (set_of set.now) tasks.items }
    ensures { EndsTimed (set_of set.now) tops.now result }
{
    let plant = set.plant();
    let parts = parts_of_tasks(alloc, set, &tasks)?;
    let layout = places_of(alloc, &parts, plant)?;
    timed_in_layout(alloc, set, tops, tasks, parts, layout)
}

/// All groups of rules in their order, each over all tasks before the next, then the image and the times.
fn stages(alloc: Global, set: &TaskSet, tops: &[u32]) -> Result<Timed, Stop>
    ensures { EndsTimed (set_of set.now) tops.now result }
{
    let programs = checked_programs(alloc, set)?;
    let tasks = coded_tasks(alloc, set, &programs)?;
    timed_coded(alloc, set, tops, tasks)
}

/// What a task set is compiled to, as by `compile`, with what the jobs of its tasks take at most, and what they keep closed to transfers of
/// each of these costs.
pub fn time_set(alloc: Global, set: &TaskSet, tops: &[u32]) -> Result<Timed, CompileFail>
    ensures { IsTimedAnswer (set_of set.now) tops.now result }
{
    match stages(alloc, set, tops) {
        Ok(timed) => Ok(timed),
        Err(Stop::Refused(refusal)) => Err(CompileFail::Refused(Box::into_inner(refusal))),
        Err(Stop::OutOfMemory) => Err(CompileFail::OutOfMemory),
    }
}
