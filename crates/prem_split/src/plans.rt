// The plans of the marked functions of a program.
ghost use Rattle.std.specs.Prelude.{◌≡◌, ◌<◌, ◌≤◌, ◌++◌, [], map, length, IfOk, OnOk, option_map};
ghost use Rattle.prem_list.specs.Sequence.{items_of};
ghost use Rattle.prem_syntax.specs.Name.{name_bytes};
ghost use Rattle.prem_syntax.specs.SyntaxOf.{global_of, region_of, mark_of};
ghost use Rattle.prem_layout.specs.Plans.{global_number, region_of as plan_region};
ghost use Rattle.prem_split.specs.PlanOf.{plan_of};
ghost use Rattle.prem_split.specs.PlansWith.{AreFacts, MayHavePlans, plan_with, plan_if, plans_in};

use crate::facts::FunctionFacts;
use crate::plan::IntervalPlan;
use crate::tables::{members, value_at};
use prem_analysis::marks::reach_set;
use prem_list::Sequence;
use prem_plant::FnId;
use prem_syntax::{Global as GlobalTree, Mark, Name, Region};
use prem_tree::resolve::Resolved;
use std::alloc::{AllocError, Global};

/// The number of the first global with a name, or 0 where there is none.
fn global_number(globals: &[&GlobalTree], name: &Name) -> usize
    ensures number { result ≡ global_number (map (λ g. global_of g.now) globals.now) (name_bytes name.now) }
    ensures within { result ≤ length globals.now }
{
    for (k, global) in globals.iter().enumerate() {
        if global.name.bytes() == name.bytes() {
            return k;
        }
    }
    0
}

/// The regions of a mark, with their globals by number.
fn regions_of(
    alloc: Global,
    globals: &[&GlobalTree],
    regions: &[Region],
) -> Result<Sequence<(u16, u32, u32)>, AllocError>
    requires { length globals.now ≤ 256 }
    ensures { IfOk result (λ rs. items_of rs ≡ map (plan_region (map (λ g. global_of g.now) globals.now)) (map region_of regions.now)) }
{
    let mut found = Sequence::new(alloc);
    for region in regions {
        let number = global_number(globals, &region.name);
        found.push((number as u16, region.low, region.high))?;
    }
    Ok(found)
}

/// The plan of a marked function.
pub fn plan(
    alloc: Global,
    f: FnId,
    mark: &Mark,
    depths: &[u32],
    table: &[Vec<usize>],
    base: u32,
    globals: &[&GlobalTree],
) -> Result<IntervalPlan, AllocError>
    requires function { f < length table.now }
    requires functions { length table.now ≤ 65536 }
    requires depths { f < length depths.now }
    requires globals { length globals.now ≤ 256 }
    ensures { IfOk result (λ p. plan_of p ≡ plan_with (record { depths = depths.now; table = map (λ cs. cs.items) table.now; base = base; globals = map (λ g. global_of g.now) globals.now }) f (mark_of mark.now)) }
{
    let set = reach_set(alloc, table, usize::from(f))?;
    let reach = members(alloc, &set)?;
    let regions = regions_of(alloc, globals, mark.regions.items())?;
    Ok(IntervalPlan {
        function: f,
        reach,
        depth: depths[usize::from(f)],
        base,
        regions,
        stated: mark.stated,
    })
}

/// Puts the plan of a function behind others, if it is marked.
fn push_plan(
    alloc: Global,
    plans: &mut Sequence<IntervalPlan>,
    f: FnId,
    mark: &Option<Mark>,
    depths: &[u32],
    table: &[Vec<usize>],
    base: u32,
    globals: &[&GlobalTree],
) -> Result<(), AllocError>
    requires function { f < length table.now }
    requires functions { length table.now ≤ 65536 }
    requires depths { f < length depths.now }
    requires globals { length globals.now ≤ 256 }
    ensures { OnOk result (map plan_of (items_of plans.new) ≡ map plan_of (items_of plans.old) ++ plan_if (record { depths = depths.now; table = map (λ cs. cs.items) table.now; base = base; globals = map (λ g. global_of g.now) globals.now }) f (option_map mark_of mark.now) []) }
{
    match mark {
        Some(mark) => {
            plans.push(plan(alloc, f, mark, depths, table, base, globals)?)?;
            Ok(())
        }
        None => Ok(()),
    }
}

/// The plans of the marked functions of a program whose names are resolved, by what is known of its functions, in the order of the text.
pub fn intervals_of(
    alloc: Global,
    r: &Resolved,
    facts: &FunctionFacts,
) -> Result<Sequence<IntervalPlan>, AllocError>
    requires may { MayHavePlans r.now }
    requires facts { AreFacts r.now facts.now }
    ensures { IfOk result (λ plans. map plan_of (items_of plans) ≡ plans_in r.now) }
{
    let fs = r.routines.items();
    let base = value_at(&facts.frames, r.job);
    let mut plans = Sequence::new(alloc);
    for n in 0..fs.len() {
        let text = fs[n].text;
        push_plan(
            alloc,
            &mut plans,
            n as u16,
            &text.mark,
            &facts.depths,
            &facts.calls,
            base,
            &r.globals,
        )?;
    }
    Ok(plans)
}
