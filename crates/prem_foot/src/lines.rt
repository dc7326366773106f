// The footprint of a marked function.
ghost use Rattle.std.specs.Prelude.{◌≡◌, ◌++◌, ◌<◌, map, length, IfOk, IfErr, OnOk};
ghost use Rattle.std.specs.List.{AllByRecursion};
ghost use Rattle.prem_plant.specs.Ranges.{IsPlant};
ghost use Rattle.prem_layout.specs.Footprint.{code_range, region_range, ranges_of, footprint_of, conflict_of, most_of};
ghost use Rattle.prem_split.specs.PlanOf.{plan_of};
ghost use Rattle.prem_foot.specs.PlacesOf.{IsRegionAt, IsPlanAt};
ghost use Rattle.prem_foot.specs.Told.{conflict_in};

use crate::places::TaskPlaces;
use crate::runs::lines_of;
use crate::sets::{Conflict, fits_in, most_in};
use prem_plant::{FnId, Plant};
use prem_split::IntervalPlan;
use std::alloc::{AllocError, Global};
use std::marker::Model;

/// Lines by number, in ascending order, each once.
#[derive(Debug, Drop)]
pub struct Lines {
    numbers: Vec<u32>,
}

impl Model for Lines {
    ghost use Rattle.std.specs.Prelude.{ℕ, List};
    ghost use Rattle.prem_foot.specs.PlacesOf.{AreLines};

    ghost Value = { List ℕ };

    ghost view = { λ l. l.numbers.items };

    ghost invariant = { λ l. AreLines l.numbers.items };
}

impl Lines {
    ghost use Rattle.std.specs.Prelude.{◌≡◌, length};

    /// How many lines there are.
    pub fn count(&self) -> u32
        ensures { result ≡ length self.now }
    {
        self.numbers.len() as u32
    }

    /// The line numbers.
    pub fn numbers(&self) -> &[u32]
        ensures { result.now ≡ self.now }
    {
        self.numbers.as_slice()
    }
}

/// Puts the code of functions behind other ranges.
fn push_code(ranges: &mut Vec<(u32, u32)>, fs: &[FnId], t: &TaskPlaces) -> Result<(), AllocError>
    ensures { OnOk result (ranges.new.items ≡ ranges.old.items ++ map (code_range t.now) fs.now) }
{
    for f in fs {
        ranges.push(t.code_range(*f))?;
    }
    Ok(())
}

/// Puts regions behind other ranges.
fn push_regions(
    ranges: &mut Vec<(u32, u32)>,
    regions: &[(u16, u32, u32)],
    t: &TaskPlaces,
) -> Result<(), AllocError>
    requires { AllByRecursion (IsRegionAt t.now) regions.now }
    ensures { OnOk result (ranges.new.items ≡ ranges.old.items ++ map (region_range t.now) regions.now) }
{
    for region in regions {
        ranges.push(t.region_range(*region))?;
    }
    Ok(())
}

/// The ranges of bytes of a marked function, in the order in which its stub prefetches them.
pub fn ranges_of(
    alloc: Global,
    plan: &IntervalPlan,
    t: &TaskPlaces,
) -> Result<Vec<(u32, u32)>, AllocError>
    requires { IsPlanAt t.now (plan_of plan.now) }
    ensures { IfOk result (λ ranges. ranges.items ≡ ranges_of t.now (plan_of plan.now)) }
{
    let mut ranges = Vec::new(alloc);
    ranges.push(t.stub_range(plan.function))?;
    push_code(&mut ranges, plan.reach.items(), t)?;
    ranges.push(t.stack_range(plan.base, plan.depth))?;
    push_regions(&mut ranges, plan.regions.items(), t)?;
    Ok(ranges)
}

/// The lines that the ranges of a marked function touch.
pub fn footprint(
    alloc: Global,
    plan: &IntervalPlan,
    t: &TaskPlaces,
    p: &Plant,
) -> Result<Lines, AllocError>
    requires plan { IsPlanAt t.now (plan_of plan.now) }
    requires plant { IsPlant p.now }
    ensures { IfOk result (λ lines. lines ≡ footprint_of p.now.line t.now (plan_of plan.now)) }
{
    let ranges = ranges_of(alloc, plan, t)?;
    let numbers = lines_of(alloc, &ranges, p.line)?;
    Ok(Lines { numbers })
}

/// Whether the lines fit the cache: no set is asked for more of them than it has ways. Else the least set that is.
pub fn fits(lines: &Lines, p: &Plant) -> Result<(), Conflict>
    requires { IsPlant p.now }
    ensures conflict { conflict_in result ≡ conflict_of p.now.sets p.now.«ways» lines.now }
    ensures ways { IfErr result (λ c. c.«ways» ≡ p.now.«ways») }
{
    fits_in(&lines.numbers, p.sets, p.ways)
}

/// The greatest number of the lines that go into one set of the cache.
pub fn most(lines: &Lines, p: &Plant) -> u32
    requires { IsPlant p.now }
    ensures { result ≡ most_of p.now.sets lines.now }
{
    most_in(&lines.numbers, p.sets)
}
