// When the intervals of marked functions open the bus.
ghost use Rattle.std.specs.Prelude.{◌≡◌, ◌-◌, ◌≤◌, ◌<◌, ◌^◌, IfOk};
ghost use Rattle.std.specs.List.{AllByRecursion};
ghost use Rattle.prem_plant.specs.Ranges.{IsPlant};
ghost use Rattle.prem_isa.specs.Decode.{cost_of};
ghost use Rattle.prem_asm.specs.Pieces.{weighted};
ghost use Rattle.prem_asm.specs.PiecesOf.{pieces_of};
ghost use Rattle.prem_layout.specs.Parts.{stub_passes};
ghost use Rattle.prem_layout.specs.Stubs.{stub_of};
ghost use Rattle.prem_split.specs.PlanOf.{plan_of};
ghost use Rattle.prem_foot.specs.PlacesOf.{IsPlanAt};
ghost use Rattle.prem_bounds.specs.Scale.{clipped};
ghost use Rattle.prem_place.specs.Placed.PlacedOf.{IsPlacedTask};
ghost use Rattle.prem_wcet_laws.specs.Opens.{opens_of};
ghost use Rattle.prem_wcet.specs.Lengths.{IsOpening, opens_in};

use prem_asm::Piece;
use prem_bounds::line_cost;
use prem_bounds::scale::{Scale, plus, times};
use prem_bounds::weights::weight_in;
use prem_foot::{TaskPlaces, footprint};
use prem_place::placed::PlacedTask;
use prem_plant::Plant;
use prem_split::IntervalPlan;
use std::alloc::{AllocError, Global};

/// What the code of a stub costs between its `pm.mem` and its `pm.exec`: all of it but these, the jump to the function, `pm.end` and
/// the return.
fn opening_cost(stub: &[Piece]) -> u64
    ensures { result ≡ clipped (weighted cost_of (λ part. 0) (pieces_of stub.now)) - 7 }
{
    let bare = Scale {
        access: 0,
        other: 0,
        count: 0,
        functions: [0; 256],
        stubs: [0; 256],
    };
    weight_in(stub, &bare).saturating_sub(7)
}

/// The greatest number of cycles from the first one of a marked function's interval to the issue of its `pm.exec`.
fn opening_of(
    alloc: Global,
    plan: &IntervalPlan,
    stub: &[Piece],
    places: &TaskPlaces,
    p: &Plant,
) -> Result<u64, AllocError>
    requires plan { IsPlanAt places.now (plan_of plan.now) }
    requires stub { pieces_of stub.now ≡ stub_of (stub_passes p.now) p.now.line places.now (plan_of plan.now) }
    requires small { opens_of p.now places.now (plan_of plan.now) ≤ 2 ^ 40 }
    requires plant { IsPlant p.now }
    ensures { IfOk result (λ n. n ≡ opens_of p.now places.now (plan_of plan.now)) }
{
    let lines = footprint(alloc, plan, places, p)?;
    let count = lines.count();
    let fills = times(count, line_cost(p));
    let cost = opening_cost(stub);
    Ok(plus(cost, fills))
}

/// That of each marked function, in the order of the text.
pub fn opens(alloc: Global, t: &PlacedTask, p: &Plant) -> Result<Vec<u64>, AllocError>
    requires task { IsPlacedTask p.now t.now }
    requires small { AllByRecursion IsOpening (opens_in p.now t.now) }
    requires plant { IsPlant p.now }
    ensures { IfOk result (λ all. all.items ≡ opens_in p.now t.now) }
{
    let plans = t.plans.items();
    let stubs = t.table.stubs.items();
    let mut all = Vec::new(alloc);
    for k in 0..plans.len() {
        let opening = opening_of(alloc, &plans[k], stubs[k].items(), &t.places, p)?;
        all.push(opening)?;
    }
    Ok(all)
}
