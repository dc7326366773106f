// The ranges of marked functions, by the parts of a set.
ghost use Rattle.std.specs.Prelude.{◌≡◌, ◌+◌, ◌*◌, ◌++◌, ◌<◌, ◌≤◌, ◌^◌, IfOk, OnOk, length, map};
ghost use Rattle.std.specs.List.{AllByRecursion};
ghost use Rattle.prem_list.specs.Sequence.{items_of};
ghost use Rattle.prem_split.specs.PlanOf.{plan_of};
ghost use Rattle.prem_color.specs.Standing.{PlanStands, RegionStands};
ghost use Rattle.prem_color.specs.WantOf.{IsSmall, shape_in, shape_with, want_of};
ghost use Rattle.prem_color.specs.Wants.{code_number, element_at, global_number, plan_ranges, plan_want, region_want, size_at, stack_number, stack_want, stub_number, whole};

use prem_foot::{Want, element_sizes, index_of, marked_functions};
use prem_list::Sequence;
use prem_plant::{FnId, PartKind, PartSize, TaskId};
use prem_split::IntervalPlan;
use prem_tree::resolve::Resolved;
use std::alloc::{AllocError, Global};

/// A range of bytes: the number of a part, the first byte and the end within it.
type PartRange = (u32, u32, u32);

/// What stands for a part where there is none.
const NO_PART: PartSize = PartSize {
    task: 0,
    kind: PartKind::Start,
    size: 0,
    align: 1,
};

/// What has to be known of a task to number its parts.
#[derive(Drop)]
pub struct Shape {
    /// How many functions it has.
    functions: u32,
    /// The marked functions, in the order of the text.
    marked: Vec<FnId>,
    /// The bytes of an element of each global.
    elements: Vec<u32>,
}

/// That of a program. It fails only for want of memory.
pub fn shape_of(alloc: Global, program: &Resolved) -> Result<Shape, AllocError>
    requires functions { length (items_of program.now.routines) ≤ 256 }
    requires globals { length program.now.globals.items ≤ 256 }
    ensures shape { IfOk result (λ s. shape_in s ≡ shape_with program.now) }
    ensures small { IfOk result IsSmall }
{
    let routines = program.routines.items();
    let marked = marked_functions(alloc, routines)?;
    let elements = element_sizes(alloc, &program.globals)?;
    Ok(Shape {
        functions: routines.len() as u32,
        marked,
        elements,
    })
}

/// The bytes of a part, or 0 where there is no such part.
fn size_at(sizes: &[PartSize], n: u32) -> u32
    ensures { result ≡ size_at sizes.now n }
{
    sizes.get(n as usize).copied().unwrap_or(NO_PART).size
}

/// All bytes of a part.
fn whole(sizes: &[PartSize], n: u32) -> PartRange
    ensures { result ≡ whole sizes.now n }
{
    (n, 0, size_at(sizes, n))
}

/// The number of the code of a function, in a task whose start has number `first`.
fn code_number(first: u32, f: FnId) -> u32
    requires { first ≤ 100000 }
    ensures { result ≡ code_number first f }
{
    first + (1 + u32::from(f))
}

/// The number of the stub of a marked function.
fn stub_number(shape: &Shape, first: u32, f: FnId) -> u32
    requires first { first ≤ 100000 }
    requires small { IsSmall shape.now }
    ensures { result ≡ stub_number (shape_in shape.now) first f }
{
    let at = index_of(f, &shape.marked) as u32;
    first + (1 + shape.functions + at)
}

/// The number of a global.
fn global_number(shape: &Shape, first: u32, g: u16) -> u32
    requires first { first ≤ 100000 }
    requires small { IsSmall shape.now }
    ensures { result ≡ global_number (shape_in shape.now) first g }
{
    let marked = shape.marked.len() as u32;
    first + (1 + shape.functions + marked + u32::from(g))
}

/// The number of the stack.
fn stack_number(shape: &Shape, first: u32) -> u32
    requires first { first ≤ 100000 }
    requires small { IsSmall shape.now }
    ensures { result ≡ stack_number (shape_in shape.now) first }
{
    let marked = shape.marked.len() as u32;
    let globals = shape.elements.len() as u32;
    first + (1 + shape.functions + marked + globals)
}

/// The bytes of an element of a global, or 0 where there is no such global.
fn element_at(shape: &Shape, g: u16) -> u32
    ensures { result ≡ element_at (shape_in shape.now) g }
{
    shape.elements.get(usize::from(g)).copied().unwrap_or(0)
}

/// The bytes of a marked function and of those that it calls, below the frame of `job`.
fn stack_want(sizes: &[PartSize], n: u32, plan: &IntervalPlan) -> PartRange
    requires { (plan_of plan.now).base + (plan_of plan.now).depth ≤ size_at sizes.now n }
    ensures { result ≡ stack_want sizes.now n (plan_of plan.now) }
{
    let top = size_at(sizes, n) - plan.base;
    (n, top - plan.depth, top)
}

/// The bytes of a region.
fn region_want(shape: &Shape, first: u32, region: (u16, u32, u32)) -> PartRange
    requires first { first ≤ 100000 }
    requires shape { IsSmall shape.now }
    requires order { region.1 ≤ region.2 }
    requires small { region.2 < 2 ^ 24 }
    requires ends { (region.2 + 1) * element_at (shape_in shape.now) region.0 < 2 ^ 32 }
    ensures { result ≡ region_want (shape_in shape.now) first region }
{
    let n = global_number(shape, first, region.0);
    let size = element_at(shape, region.0);
    (n, region.1 * size, (region.2 + 1) * size)
}

/// Puts the code of functions behind other ranges.
fn push_code(
    ranges: &mut Sequence<PartRange>,
    sizes: &[PartSize],
    first: u32,
    fs: &[FnId],
) -> Result<(), AllocError>
    requires { first ≤ 100000 }
    ensures { OnOk result (items_of ranges.new ≡ items_of ranges.old ++ map (λ f. whole sizes.now (code_number first f)) fs.now) }
{
    for f in fs {
        ranges.push(whole(sizes, code_number(first, *f)))?;
    }
    Ok(())
}

/// Puts regions behind other ranges, as long as they are there among the parts.
fn push_regions(
    ranges: &mut Sequence<PartRange>,
    sizes: &[PartSize],
    shape: &Shape,
    first: u32,
    regions: &[(u16, u32, u32)],
) -> Result<(), AllocError>
    requires first { first ≤ 100000 }
    requires shape { IsSmall shape.now }
    requires there { AllByRecursion (RegionStands sizes.now (shape_in shape.now) first) regions.now }
    ensures { OnOk result (items_of ranges.new ≡ items_of ranges.old ++ map (region_want (shape_in shape.now) first) regions.now) }
{
    let _parts = sizes;
    for region in regions {
        ranges.push(region_want(shape, first, *region))?;
    }
    Ok(())
}

/// The ranges of a marked function, in the order in which its stub prefetches them.
fn plan_ranges(
    alloc: Global,
    sizes: &[PartSize],
    shape: &Shape,
    first: u32,
    plan: &IntervalPlan,
) -> Result<Sequence<PartRange>, AllocError>
    requires first { first ≤ 100000 }
    requires shape { IsSmall shape.now }
    requires there { PlanStands sizes.now (shape_in shape.now) first (plan_of plan.now) }
    ensures { IfOk result (λ ranges. items_of ranges ≡ plan_ranges sizes.now (shape_in shape.now) first (plan_of plan.now)) }
{
    let mut ranges = Sequence::new(alloc);
    ranges.push(whole(sizes, stub_number(shape, first, plan.function)))?;
    push_code(&mut ranges, sizes, first, plan.reach.items())?;
    ranges.push(stack_want(sizes, stack_number(shape, first), plan))?;
    push_regions(&mut ranges, sizes, shape, first, plan.regions.items())?;
    Ok(ranges)
}

/// The want of a marked function.
fn plan_want(
    alloc: Global,
    sizes: &[PartSize],
    shape: &Shape,
    task: TaskId,
    first: u32,
    plan: &IntervalPlan,
) -> Result<Want, AllocError>
    requires first { first ≤ 100000 }
    requires shape { IsSmall shape.now }
    requires there { PlanStands sizes.now (shape_in shape.now) first (plan_of plan.now) }
    ensures { IfOk result (λ want. want_of want ≡ plan_want sizes.now (shape_in shape.now) task first (plan_of plan.now)) }
{
    Ok(Want {
        task,
        function: plan.function,
        ranges: plan_ranges(alloc, sizes, shape, first, plan)?,
    })
}

/// Puts the wants of a task's marked functions behind others, by the sizes of all parts and the number of the task's start. It fails only
/// for want of memory.
pub fn push_wants(
    alloc: Global,
    wants: &mut Sequence<Want>,
    sizes: &[PartSize],
    shape: &Shape,
    task: TaskId,
    first: u32,
    plans: &[IntervalPlan],
) -> Result<(), AllocError>
    requires first { first ≤ 100000 }
    requires shape { IsSmall shape.now }
    requires there { AllByRecursion (PlanStands sizes.now (shape_in shape.now) first) (map plan_of plans.now) }
    ensures { OnOk result (map want_of (items_of wants.new) ≡ map want_of (items_of wants.old) ++ map (plan_want sizes.now (shape_in shape.now) task first) (map plan_of plans.now)) }
{
    for plan in plans {
        wants.push(plan_want(alloc, sizes, shape, task, first, plan)?)?;
    }
    Ok(())
}
