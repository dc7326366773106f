// What a job of a task takes.
ghost use Rattle.std.specs.Prelude.{◌≡◌, ◌+◌, ◌≤◌, ◌<◌, ◌^◌, [], ◌∷◌, max, length, IfOk};
ghost use Rattle.prem_list.specs.Sequence.{items_of};
ghost use Rattle.prem_plant.specs.Ranges.{IsPlant};
ghost use Rattle.prem_isa.specs.declared.instr.Instr.TheVariants.{PmDone};
ghost use Rattle.prem_asm.specs.PiecesOf.{pieces_of};
ghost use Rattle.prem_layout.specs.Bounds.{job_bound_of, job_weight, start_code};
ghost use Rattle.prem_layout.specs.Footprint.{place_at};
ghost use Rattle.prem_bounds.specs.Scale.{clipped};
ghost use Rattle.prem_bounds.specs.TableOf.{table_of};
ghost use Rattle.prem_place.specs.Placed.PlacedOf.{placed_of, plans_of};
ghost use Rattle.prem_wcet_laws.specs.Scopes.{charge, extent_of, fact_of};
ghost use Rattle.prem_wcet_laws.specs.Wcet.{longest_wcet_of, own_start, wcet_of};
ghost use Rattle.prem_wcet.specs.JobTimes.{at_start, cut_stretch, greatest_length, job_by, job_span, stretch_by};
ghost use Rattle.prem_wcet.specs.KnownOf.{StandsWhole};
ghost use Rattle.prem_wcet.specs.Lengths.{with_lengths};
ghost use Rattle.prem_wcet.specs.Once.{with_ranges};
ghost use Rattle.prem_wcet.specs.SceneOf.{IsScene, scene_in};

use crate::facts::{known_of, rule_of};
use crate::least::{fact_least, own_jump};
use crate::parted::fact_parted;
use crate::scene::{Ranges, Scene, add_callee, fact_cuts};
use crate::scope::charge_with;
use prem_asm::{Instr, Piece, Sequence, put_call, put_code};
use prem_bounds::line_cost;
use prem_bounds::scale::plus;
use prem_bounds::stretches::{chained, greatest, taking};
use prem_place::placed::PlacedTask;
use prem_plant::Plant;
use std::alloc::{AllocError, Global};

/// What a job takes at most, and its longest stretch or interval with the switch before it, in cycles.
#[derive(Clone, Copy, Debug, PartialEq, Eq)]
pub struct Times {
    pub wcet: u64,
    pub longest: u64,
}

/// The pieces of the start: a call of `job`, and the job's end.
pub fn start_pieces(alloc: Global, job: u16) -> Result<Sequence<Piece>, AllocError>
    ensures { IfOk result (λ pieces. pieces_of (items_of pieces) ≡ start_code job) }
{
    let mut pieces = Sequence::new(alloc);
    put_call(&mut pieces, 1, 1 + u32::from(job))?;
    put_code(alloc, &mut pieces, &[Instr::PmDone])?;
    Ok(pieces)
}

/// The bytes that the start and `job` run and touch, each range once.
pub fn start_ranges(scene: &Scene, job: u16) -> Result<Ranges, AllocError>
    requires scene { IsScene scene.now }
    requires place { (place_at scene.now.places.now 0).0 + 8 < 2 ^ 32 }
    ensures code { IfOk result (λ r. r.code.items ≡ with_ranges (extent_of (place_at scene.now.places.now 0).0 (start_code job) ∷ []) (fact_of (scene_in scene.now) job).code) }
    ensures touched { IfOk result (λ r. r.touched.items ≡ with_ranges [] (fact_of (scene_in scene.now) job).touched) }
{
    let at = scene.places.place(0).0;
    let mut ranges = Ranges {
        code: Vec::new(scene.alloc),
        touched: Vec::new(scene.alloc),
    };
    ranges.code.push((at, at + 8))?;
    add_callee(scene, &mut ranges, usize::from(job))?;
    Ok(ranges)
}

/// The start with `job` as one scope.
fn start_charge(scene: &Scene, job: u16) -> Result<u64, AllocError>
    requires scene { IsScene scene.now }
    requires place { (place_at scene.now.places.now 0).0 + 8 < 2 ^ 32 }
    ensures { IfOk result (λ n. n ≡ clipped (charge (at_start (scene_in scene.now)) (place_at scene.now.places.now 0).0 (job_span job))) }
{
    let at = scene.places.place(0).0;
    let ranges = start_ranges(scene, job)?;
    let pieces = start_pieces(scene.alloc, job)?;
    charge_with(scene, at, pieces.items(), &[], &[], ranges)
}

/// The rule's weight of a job's end.
fn done_weight(scene: &Scene) -> u64
    requires { IsScene scene.now }
    ensures done { result ≡ job_weight scene.now.plant.now PmDone }
    ensures small { result ≤ 2001 }
{
    1 + line_cost(scene.plant)
}

/// The rule's weight of the start's jump and of a job's end.
fn own_start(scene: &Scene) -> u64
    requires { IsScene scene.now }
    ensures { result ≡ own_start (scene_in scene.now) }
{
    own_jump(scene) + done_weight(scene)
}

/// What the start and `job` take.
fn job_of(scene: &Scene, job: u16) -> Result<u64, AllocError>
    requires scene { IsScene scene.now }
    requires place { (place_at scene.now.places.now 0).0 + 8 < 2 ^ 32 }
    ensures { IfOk result (λ n. n ≡ clipped (job_by (at_start (scene_in scene.now)) job)) }
{
    let f = usize::from(job);
    let start = own_start(scene);
    if fact_cuts(scene, f) {
        let parted = fact_parted(scene, f);
        return Ok(plus(start, parted.total));
    }
    let whole = start_charge(scene, job)?;
    let part = plus(start, fact_least(scene, f));
    Ok(whole.min(part))
}

/// The longest stretch of the start and `job`, where a marked call is in them.
fn cut_stretch(scene: &Scene, job: u16) -> u64
    requires { IsScene scene.now }
    ensures { clipped result ≡ clipped (cut_stretch (at_start (scene_in scene.now)) job) }
{
    let first = taking(own_jump(scene));
    let last = taking(done_weight(scene));
    let parted = fact_parted(scene, usize::from(job));
    let inside = chained(parted.sums, last);
    let all = chained(first, inside);
    greatest(all)
}

/// Their longest stretch.
fn stretch_within(scene: &Scene, job: u16) -> Result<u64, AllocError>
    requires scene { IsScene scene.now }
    requires place { (place_at scene.now.places.now 0).0 + 8 < 2 ^ 32 }
    ensures { IfOk result (λ n. clipped n ≡ clipped (stretch_by (at_start (scene_in scene.now)) job)) }
{
    if fact_cuts(scene, usize::from(job)) {
        return Ok(cut_stretch(scene, job));
    }
    job_of(scene, job)
}

/// The greatest of some lengths.
fn greatest_of(lengths: &[u32]) -> u64
    ensures stated { result ≡ greatest_length lengths.now }
    ensures small { result < 2 ^ 32 }
{
    let mut most = 0;
    for length in lengths {
        most = u64::from(*length).max(most);
    }
    most
}

/// Both with the switch before it.
fn times_with(scene: &Scene, job: u16, lengths: &[u32]) -> Result<Times, AllocError>
    requires scene { IsScene scene.now }
    requires place { (place_at scene.now.places.now 0).0 + 8 < 2 ^ 32 }
    ensures wcet { IfOk result (λ x. x.wcet ≡ clipped (scene.now.plant.now.switch + job_by (at_start (scene_in scene.now)) job)) }
    ensures longest { IfOk result (λ x. x.longest ≡ clipped (scene.now.plant.now.switch + max (stretch_by (at_start (scene_in scene.now)) job) (greatest_length lengths.now))) }
    ensures short { IfOk result (λ x. greatest_length lengths.now < 2 ^ 32) }
{
    let switch = u64::from(scene.plant.switch);
    let whole = job_of(scene, job)?;
    let stretch = stretch_within(scene, job)?;
    let most = stretch.max(greatest_of(lengths));
    Ok(Times {
        wcet: plus(switch, whole),
        longest: plus(switch, most),
    })
}

/// What a job of a placed task takes, where its marked functions have such lengths. It fails only for want of memory.
pub fn times_in(
    alloc: Global,
    t: &PlacedTask,
    lengths: &[u32],
    p: &Plant,
) -> Result<Times, AllocError>
    requires whole { StandsWhole p.now t.now }
    requires plant { IsPlant p.now }
    requires count { length lengths.now ≡ length (plans_of t.now) }
    requires bound { job_bound_of p.now (with_lengths lengths.now (plans_of t.now)) (table_of t.now.table) ≤ 2 ^ 40 }
    ensures wcet { IfOk result (λ x. x.wcet ≡ wcet_of p.now (with_lengths lengths.now (plans_of t.now)) (placed_of t.now).task.program t.now.places) }
    ensures longest { IfOk result (λ x. x.longest ≡ longest_wcet_of p.now (with_lengths lengths.now (plans_of t.now)) (placed_of t.now).task.program t.now.places) }
    ensures some { IfOk result (λ x. 1 ≤ x.wcet) }
    ensures small { IfOk result (λ x. x.wcet ≤ 2 ^ 40) }
    ensures reach { IfOk result (λ x. x.longest ≤ 2 ^ 40) }
{
    let rule = rule_of(p);
    let known = known_of(alloc, t, lengths, &rule, p)?;
    let routines = t.program.routines.items();
    let plans = t.plans.items();
    let scene = Scene {
        alloc,
        plant: p,
        places: &t.places,
        code: t.table.code.items(),
        faces: &known.faces,
        costs: &known.costs,
        rule: &rule,
        stack: (0, 0),
        facts: &known.facts,
        globals: 1 + routines.len() + plans.len(),
    };
    let times = times_with(&scene, t.table.job, lengths)?;
    Ok(times)
}
