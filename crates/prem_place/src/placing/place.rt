// The places of tasks' parts.
ghost use Rattle.std.specs.Prelude.{◌≡◌, ◌≤◌, ◌<◌, IfOk, map, drop, length};
ghost use Rattle.std.specs.List.{AllByRecursion};
ghost use Rattle.prem_list.specs.Sequence.{items_of};
ghost use Rattle.prem_plant.specs.Ranges.{IsPlant};
ghost use Rattle.prem_layout.specs.Parts.{stub_passes, part_count};
ghost use Rattle.prem_layout.specs.Stubs.{stub_of};
ghost use Rattle.prem_layout.specs.Placed.{placed_at, placed_from, task_places};
ghost use Rattle.prem_split.specs.PlanOf.{plan_of};
ghost use Rattle.prem_foot.specs.PlacesOf.{IsPlanAt};
ghost use Rattle.prem_bounds.specs.TableOf.{listed};
ghost use Rattle.prem_place.specs.Placed.PlacedOf.{IsPlacedTask, placed_of};
ghost use Rattle.prem_prefetch.specs.Sizes.CodedOf.{coded_in, IsCodedTask};
ghost use Rattle.prem_place.specs.Placing.CodedOf.{AreAtPlaces};
ghost use Rattle.prem_place.specs.Placing.Standing.{TaskLies, stands_in};

use crate::placed::PlacedTask;
use prem_asm::Piece;
use prem_bounds::CodeTable;
use prem_foot::TaskPlaces;
use prem_list::Sequence;
use prem_plant::{Layout, Plant};
use prem_prefetch::sizes::CodedTask;
use prem_prefetch::stub;
use prem_split::IntervalPlan;
use std::alloc::{AllocError, Global};

/// The stubs of marked functions, in their order.
fn stubs_of(
    alloc: Global,
    plans: &[IntervalPlan],
    places: &TaskPlaces,
    p: &Plant,
) -> Result<Sequence<Sequence<Piece>>, AllocError>
    requires plans { AllByRecursion (IsPlanAt places.now) (map plan_of plans.now) }
    requires plant { IsPlant p.now }
    ensures { IfOk result (λ stubs. listed (items_of stubs) ≡ map (stub_of (stub_passes p.now) p.now.line places.now) (map plan_of plans.now)) }
{
    let mut stubs = Sequence::new(alloc);
    for plan in plans {
        stubs.push(stub(alloc, plan, places, p)?)?;
    }
    Ok(stubs)
}

/// The task with its parts at their places, of which the first is the part number `first` of the layout. It fails only for
/// want of memory.
pub fn place_task<'a, 'p>(
    alloc: Global,
    task: CodedTask<'a, 'p>,
    l: &Layout,
    first: usize,
    p: &Plant,
) -> Result<PlacedTask<'a, 'p>, AllocError>
    requires task { IsCodedTask task }
    requires lies { TaskLies p.now (coded_in task) (drop first l.now) }
    requires first { first ≤ 100000 }
    requires plant { IsPlant p.now }
    ensures same { IfOk result (λ t. placed_of t ≡ placed_at p.now (coded_in task.entry) (task_places (coded_in task.entry).program (drop first l.now))) }
    ensures placed { IfOk result (IsPlacedTask p.now) }
    ensures stands { IfOk result stands_in }
{
    let places = TaskPlaces::of_resolved(alloc, &task.program, l, first)?;
    let stubs = stubs_of(alloc, task.plans.items(), &places, p)?;
    let job = task.program.job as u16;
    Ok(PlacedTask {
        name: task.name,
        period: task.period,
        jobs: task.jobs,
        program: task.program,
        turns: task.turns,
        places,
        plans: task.plans,
        table: CodeTable {
            code: task.code,
            stubs,
            job,
        },
    })
}

/// How many parts a placed task has.
pub fn part_count(t: &PlacedTask) -> usize
    requires { stands_in t.now }
    ensures count { result ≡ part_count (placed_of t.now).task.program }
    ensures few { result ≤ 1024 }
{
    let program = &t.program;
    2 + program.routines.items().len() + t.plans.items().len() + program.globals.len()
}

/// All tasks with their parts at their places, which are places of the parts of tasks and devices. It fails only for want of
/// memory.
pub fn place_all<'a, 'p>(
    alloc: Global,
    tasks: Vec<CodedTask<'a, 'p>>,
    l: &Layout,
    p: &Plant,
) -> Result<Vec<PlacedTask<'a, 'p>>, AllocError>
    requires tasks { AllByRecursion IsCodedTask tasks.items }
    requires count { length tasks.items ≤ 16 }
    requires places { AreAtPlaces p.now (map coded_in tasks.items) l.now }
    requires plant { IsPlant p.now }
    ensures same { IfOk result (λ all. map placed_of all.items ≡ placed_from p.now l.now (map coded_in tasks.entry.items)) }
    ensures placed { IfOk result (λ all. AllByRecursion (IsPlacedTask p.now) all.items) }
    ensures stands { IfOk result (λ all. AllByRecursion stands_in all.items) }
{
    let mut all = Vec::new(alloc);
    let mut first = 0;
    for task in tasks {
        let placed = place_task(alloc, task, l, first, p)?;
        first += part_count(&placed);
        all.push(placed)?;
    }
    Ok(all)
}
