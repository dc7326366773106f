// The longest interval of a task.
ghost use Rattle.std.specs.Prelude.{◌≡◌, ◌<◌, ◌≤◌, ◌*◌, ◌^◌, length, map, IfOk, OnOk, OnErr};
ghost use Rattle.prem_list.specs.Sequence.{items_of};
ghost use Rattle.prem_plant.specs.Ranges.{IsPlant};
ghost use Rattle.prem_layout.specs.Bounds.{job_bound_of, line_cost};
ghost use Rattle.prem_layout.specs.Stretch.Paths.{greatest_stated, longest_of};
ghost use Rattle.prem_layout.specs.Stretch.Sums.{job_sums, marked_sums_of, sums_at};
ghost use Rattle.prem_split.specs.PlanOf.{plan_of};
ghost use Rattle.prem_bounds.specs.Scale.{IsScale};
ghost use Rattle.prem_bounds.specs.TableOf.{IsTable, table_of};
ghost use Rattle.prem_bounds.specs.ToldSums.{TellsSums, sums_of};

use crate::bounds::BoundTooLarge;
use crate::reach::{Reach, start_sums, sums_through};
use crate::scale::{Scale, plus};
use crate::stretches::{Sums, greatest, taking};
use crate::table::CodeTable;
use prem_plant::Plant;
use prem_split::IntervalPlan;

/// What a line costs, which is brought in behind one that is written back.
pub fn line_cost(p: &Plant) -> u64
    requires { IsPlant p.now }
    ensures cost { result ≡ line_cost p.now }
    ensures small { result ≤ 2000 }
{
    u64::from(p.fill + p.back)
}

/// The sums of a call's way through a stub: up to `pm.mem`, and the way back.
pub fn marked_sums(p: &Plant) -> Sums
    requires { IsPlant p.now }
    ensures { sums_of result ≡ marked_sums_of p.now }
{
    let miss = line_cost(p);
    Sums {
        whole: None,
        before: Some(1 + miss),
        between: None,
        behind: Some(2 + miss),
    }
}

/// What instructions weigh outside predictable intervals.
fn outer_scale(count: u32, p: &Plant) -> Scale
    requires { IsPlant p.now }
    ensures access { result.access ≡ 2 * line_cost p.now }
    ensures other { result.other ≡ line_cost p.now }
    ensures scale { IsScale result }
    ensures count { result.count ≡ count }
{
    let miss = line_cost(p);
    Scale {
        access: 2 * miss,
        other: miss,
        count,
        functions: [0; 256],
        stubs: [0; 256],
    }
}

/// What is known of stretches, once those of all functions are.
fn reach_of(plans: &[IntervalPlan], table: &CodeTable, p: &Plant) -> Reach
    requires table { IsTable table.now }
    requires plant { IsPlant p.now }
    requires count { length plans.now ≤ 256 }
    ensures functions { TellsSums 256 result.functions (sums_at (job_sums p.now (map plan_of plans.now) (table_of table.now))) }
    ensures access { result.scale.access ≡ 2 * line_cost p.now }
    ensures other { result.scale.other ≡ line_cost p.now }
    ensures scale { IsScale result.scale }
    ensures count { result.scale.count ≡ length (items_of table.now.code) }
    ensures stubs { result.stubs ≡ length plans.now }
    ensures marked { sums_of result.marked ≡ marked_sums_of p.now }
{
    let code = table.code.items();
    let scale = outer_scale(code.len() as u32, p);
    let stubs = plans.len() as u32;
    let marked = marked_sums(p);
    let none = taking(0);
    let mut functions = [none; 256];
    for n in 0..code.len() {
        let reach = Reach {
            scale,
            functions,
            stubs,
            marked,
        };
        functions[n] = sums_through(code[n].items(), &reach);
    }
    Reach {
        scale,
        functions,
        stubs,
        marked,
    }
}

/// The greatest stated length.
fn greatest_stated(plans: &[IntervalPlan]) -> u64
    ensures stated { result ≡ greatest_stated (map plan_of plans.now) }
    ensures small { result < 2 ^ 32 }
{
    let mut greatest = 0;
    for plan in plans {
        let stated = u64::from(plan.stated);
        greatest = stated.max(greatest);
    }
    greatest
}

/// The longest interval of a task, with the switch before it.
///
/// An interval is a marked function's, of its stated length, or what the task takes between two marked calls. It refuses
/// exactly where the longest passes 2^40, which comes only where the bound of the job does.
pub fn longest(plans: &[IntervalPlan], code: &CodeTable, p: &Plant) -> Result<u64, BoundTooLarge>
    requires table { IsTable code.now }
    requires plant { IsPlant p.now }
    requires count { length plans.now ≤ 256 }
    ensures longest { IfOk result (λ n. n ≡ longest_of p.now (map plan_of plans.now) (table_of code.now)) }
    ensures small { OnOk result (longest_of p.now (map plan_of plans.now) (table_of code.now) ≤ 2 ^ 40) }
    ensures large { OnErr result (2 ^ 40 < longest_of p.now (map plan_of plans.now) (table_of code.now)) }
    ensures bounded { OnErr result (2 ^ 40 < job_bound_of p.now (map plan_of plans.now) (table_of code.now)) }
{
    let reach = reach_of(plans, code, p);
    let stretch = greatest(start_sums(code.job, &reach));
    let stated = greatest_stated(plans);
    let longest = plus(u64::from(p.switch), stretch.max(stated));
    if longest > 1 << 40 {
        Err(BoundTooLarge)
    } else {
        Ok(longest)
    }
}
