// Lines, bounds and stated lengths of marked functions.
ghost use Rattle.std.specs.Prelude.{◌≡◌, ◌<◌, ◌≤◌, ◌^◌, IsNone, IfSome, length, map, option_map};
ghost use Rattle.prem_list.specs.Sequence.{items_of};
ghost use Rattle.prem_plant.specs.Ranges.{IsPlant};
ghost use Rattle.prem_isa.specs.Decode.{cost_of};
ghost use Rattle.prem_layout.specs.Bounds.{bound_of, costs_of, stub_weight};
ghost use Rattle.prem_split.specs.PlanOf.{plan_of};
ghost use Rattle.prem_bounds.specs.TableOf.{IsTable, table_of};
ghost use Rattle.prem_bounds.specs.Told.{Tells};
ghost use Rattle.prem_bounds.specs.Facts.FactOf.{fact_of, fact_with, first_short};

use crate::{CodeTable, bound_by};
use prem_foot::{Lines, most};
use prem_plant::{FnId, Plant, TaskId};
use prem_split::IntervalPlan;

/// What is told of a marked function: how many lines it touches, the greatest number of them in one set of the cache, its
/// bound and its stated length in cycles.
#[derive(Clone, Copy, Debug, PartialEq, Eq)]
pub struct IntervalFact {
    pub task: TaskId,
    pub function: FnId,
    pub lines: u32,
    pub most: u32,
    pub bound: u64,
    pub stated: u32,
}

/// What is told of the marked function with the stub number k, by what the stubs of its task's code cost, or none where its bound passes
/// 2^40.
pub fn fact(
    task: TaskId,
    k: usize,
    plan: &IntervalPlan,
    lines: &Lines,
    stubs: &[u64; 256],
    table: &CodeTable,
    p: &Plant,
) -> Option<IntervalFact>
    requires table { IsTable table.now }
    requires costs { Tells 256 stubs.now (stub_weight cost_of (length (table_of table.now).code) (table_of table.now).stubs (costs_of (table_of table.now))) }
    requires plant { IsPlant p.now }
    requires stub { k < length (items_of table.now.stubs) }
    ensures fact { IfSome result (λ f. fact_of f ≡ fact_with p.now (table_of table.now) k (plan_of plan.now) lines.now) }
    ensures task { IfSome result (λ f. f.task ≡ task) }
    ensures small { IfSome result (λ f. f.bound ≤ 2 ^ 40) }
    ensures large { IsNone result → 2 ^ 40 < bound_of p.now (table_of table.now) k (length lines.now) }
{
    let count = lines.count();
    match bound_by(stubs, k, table, u64::from(count), p) {
        Ok(bound) => Some(IntervalFact {
            task,
            function: plan.function,
            lines: count,
            most: most(lines, p),
            bound,
            stated: plan.stated,
        }),
        Err(_) => None,
    }
}

/// The first of some marked functions whose stated length is less than its bound.
pub fn first_short(facts: &[IntervalFact]) -> Option<IntervalFact>
    ensures { option_map fact_of result ≡ first_short (map fact_of facts.now) }
{
    for fact in facts {
        if u64::from(fact.stated) < fact.bound {
            return Some(*fact);
        }
    }
    None
}
