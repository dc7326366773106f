// The lines of marked functions, and the first that don't fit the cache.
ghost use Rattle.std.specs.Prelude.{◌≡◌, IfOk, IfSome, map, length};
ghost use Rattle.std.specs.List.{AllByRecursion};
ghost use Rattle.prem_plant.specs.Ranges.{IsPlant};
ghost use Rattle.prem_layout.specs.Footprint.{footprint_of};
ghost use Rattle.prem_split.specs.PlanOf.{plan_of};
ghost use Rattle.prem_foot.specs.PlacesOf.{IsPlanAt};
ghost use Rattle.prem_bounds.specs.Facts.Clashes.{clash_of, first_clash};

use prem_foot::{Conflict, Lines, TaskPlaces, fits, footprint};
use prem_plant::{FnId, Plant};
use prem_split::IntervalPlan;
use std::alloc::{AllocError, Global};

/// A marked function of which a set of the cache is asked for more lines than it has ways.
#[derive(Clone, Copy, Debug, PartialEq, Eq)]
pub struct Clash {
    pub function: FnId,
    pub conflict: Conflict,
}

/// The lines that each marked function touches.
pub fn footprints(
    alloc: Global,
    plans: &[IntervalPlan],
    t: &TaskPlaces,
    p: &Plant,
) -> Result<Vec<Lines>, AllocError>
    requires plans { AllByRecursion (IsPlanAt t.now) (map plan_of plans.now) }
    requires plant { IsPlant p.now }
    ensures { IfOk result (λ all. all.items ≡ map (footprint_of p.now.line t.now) (map plan_of plans.now)) }
{
    let mut all = Vec::new(alloc);
    for plan in plans {
        all.push(footprint(alloc, plan, t, p)?)?;
    }
    Ok(all)
}

/// The first marked function whose lines don't fit the cache.
pub fn first_clash(plans: &[IntervalPlan], lines: &[Lines], p: &Plant) -> Option<Clash>
    requires plant { IsPlant p.now }
    requires long { length lines.now ≡ length plans.now }
    ensures clash { clash_of result ≡ first_clash p.now (map plan_of plans.now) lines.now }
    ensures ways { IfSome result (λ c. c.conflict.«ways» ≡ p.now.«ways») }
{
    for k in 0..plans.len() {
        let plan = &plans[k];
        if let Err(conflict) = fits(&lines[k], p) {
            return Some(Clash {
                function: plan.function,
                conflict,
            });
        }
    }
    None
}
