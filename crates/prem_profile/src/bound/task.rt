// The bill of a job: one switch, the start, and `job` with all that it calls.
ghost use Rattle.std.specs.Prelude.{◌≡◌, ◌+◌, ◌<◌, ◌≤◌, ◌^◌, ◌++◌, ◌∷◌, [], length, slice_set, IfOk};
ghost use Rattle.prem_list.specs.Sequence.{items_of};
ghost use Rattle.prem_plant.specs.Ranges.{IsPlant};
ghost use Rattle.prem_isa.specs.Decode.{cost_of};
ghost use Rattle.prem_asm.specs.Pieces.{size_of};
ghost use Rattle.prem_asm.specs.PiecesOf.{pieces_of};
ghost use Rattle.prem_layout.specs.Footprint.{place_at};
ghost use Rattle.prem_bounds.specs.TableOf.{listed};
ghost use Rattle.prem_place.specs.Placed.PlacedOf.{coded_of, plans_of, routines_of};
ghost use Rattle.prem_wcet_laws.specs.Wcet.{scene_of, stack_of, wcet_of};
ghost use Rattle.prem_wcet.specs.EdgesOf.{BelowFits};
ghost use Rattle.prem_wcet.specs.Fitting.{FitsAt};
ghost use Rattle.prem_wcet.specs.JobTimes.{at_start, greatest_length, job_span};
ghost use Rattle.prem_wcet.specs.Known.{TellsKnown};
ghost use Rattle.prem_wcet.specs.KnownOf.{AreKnown, IsRule, StandsWhole, faces_in};
ghost use Rattle.prem_wcet.specs.Lengths.{IsTimedTask, stated_in};
ghost use Rattle.prem_wcet.specs.Outlines.{code_of};
ghost use Rattle.prem_wcet.specs.PartsOf.{parts_of};
ghost use Rattle.prem_wcet.specs.SceneOf.{IsScene, scene_in};
ghost use Rattle.prem_profile.specs.Bound.Bills.{cheaper};
ghost use Rattle.prem_profile.specs.Bound.Scopes.{scope_bill};
ghost use Rattle.prem_profile.specs.Bound.Tasks.{bills_of, start_bill, stubs_of, task_bill};
ghost use Rattle.prem_profile.specs.Bound.Passages.{switch_item};
ghost use Rattle.prem_profile.specs.Bound.Memory.{EndsAt, IsNextCall, call_of, calls_of, function_calls, job_items, known_items, stubs_in};

use crate::bound::bill::{Item, append};
use crate::bound::gathering::gather;
use crate::bound::least::{CallItems, least_function, push_own_jump, rule_of as rule_prices};
use crate::bound::parted::{parted_function, push_switch};
use crate::bound::pieces::push_instr;
use crate::bound::scope::scope_or;
use prem_asm::{Instr, Piece};
use prem_bounds::scale::Scale;
use prem_place::placed::PlacedTask;
use prem_plant::{Plant, TaskId};
use prem_wcet::facts::{
    KnownFunctions, faces_of, frame_at, next_cost, next_fact, rule_of, stack_of, with_next,
};
use prem_wcet::outline::{Outline, outline_of};
use prem_wcet::scene::{Fact, Scene, fact_cuts};
use prem_wcet::task::{start_pieces, start_ranges};
use prem_wcet::timed::stated_of;
use std::alloc::{AllocError, Global};

/// What is known of the first functions of a task, and what calls of them are billed.
#[derive(Drop)]
struct BilledFunctions {
    known: KnownFunctions,
    calls: Vec<CallItems>,
}

// ---- functions

/// What a call of a function is billed whose code is at a place, with one item for each spot.
fn function_calls(
    scene: &Scene,
    known: &[CallItems],
    task: TaskId,
    at: u32,
    code: &[Piece],
    outline: &Outline<'_>,
) -> Result<CallItems, AllocError>
    requires scene { IsScene scene.now }
    requires place { at + size_of (pieces_of code.now) < 2 ^ 32 }
    requires ends { at + size_of (pieces_of outline.now.entry.now) + size_of (code_of (parts_of (items_of outline.now.body))) + size_of (pieces_of outline.now.leaving.now) < 2 ^ 32 }
    requires fits { FitsAt (at + size_of (pieces_of outline.now.entry.now)) (parts_of (items_of outline.now.body)) }
    requires turns { EndsAt (at + size_of (pieces_of outline.now.entry.now)) (parts_of (items_of outline.now.body)) }
    requires below { BelowFits (scene_in scene.now) (parts_of (items_of outline.now.body)) }
    ensures { IfOk result (λ call. call_of call ≡ function_calls (scene_in scene.now) (stubs_in scene.now task) (calls_of known.now) at (pieces_of code.now) outline.now) }
{
    let whole = least_function(scene, known, at, code, outline)?;
    let least = gather(scene.alloc, &whole)?;
    let cut = parted_function(scene, known, task, at, outline)?;
    let parted = gather(scene.alloc, &cut)?;
    Ok(CallItems { least, parted })
}

/// What a call of the function behind those that are known is billed.
fn next_call(
    alloc: Global,
    t: &PlacedTask,
    task: TaskId,
    billed: &BilledFunctions,
    rule: &Scale,
    p: &Plant,
) -> Result<CallItems, AllocError>
    requires whole { StandsWhole p.now t.now }
    requires plant { IsPlant p.now }
    requires rule { IsRule p.now rule.now }
    requires there { length billed.now.known.facts.items < length (items_of t.now.table.code) }
    requires costs { TellsKnown billed.now.known.costs (λ at. cost_of) t.now.places (listed (items_of t.now.table.code)) (length billed.now.known.facts.items) }
    ensures { IfOk result (IsNextCall p.now t.now task billed.now.known.faces.items billed.now.known.facts.items (calls_of billed.now.calls.items)) }
{
    let known = &billed.known;
    let n = known.facts.len();
    let code = t.table.code.items();
    let routines = t.program.routines.items();
    let base = frame_at(&known.faces, t.program.job);
    let scene = Scene {
        alloc,
        plant: p,
        places: &t.places,
        code,
        faces: &known.faces,
        costs: &known.costs,
        rule,
        stack: stack_of(&t.places, base, n == t.program.job),
        facts: &known.facts,
        globals: 1 + routines.len() + t.plans.items().len(),
    };
    let pieces = code[n].items();
    let outline = outline_of(alloc, &routines[n], pieces, p.target)?;
    function_calls(
        &scene,
        &billed.calls,
        task,
        t.places.place(1 + n).0,
        pieces,
        &outline,
    )
}

/// One more function is known.
fn with_call(
    billed: BilledFunctions,
    fact: Fact,
    cost: u64,
    call: CallItems,
) -> Result<BilledFunctions, AllocError>
    requires { length billed.known.facts.items < 256 }
    ensures faces { IfOk result (λ b. b.known.faces.items ≡ billed.known.faces.items) }
    ensures facts { IfOk result (λ b. b.known.facts.items ≡ billed.known.facts.items ++ fact ∷ []) }
    ensures costs { IfOk result (λ b. b.known.costs ≡ slice_set billed.known.costs (length billed.known.facts.items) cost) }
    ensures calls { IfOk result (λ b. calls_of b.calls.items ≡ calls_of billed.calls.items ++ call_of call ∷ []) }
{
    let BilledFunctions { known, mut calls } = billed;
    let known = with_next(known, fact, cost)?;
    calls.push(call)?;
    Ok(BilledFunctions { known, calls })
}

/// All functions of a placed task, with what calls of them are billed.
fn billed_of(
    alloc: Global,
    t: &PlacedTask,
    task: TaskId,
    rule: &Scale,
    p: &Plant,
) -> Result<BilledFunctions, AllocError>
    requires whole { StandsWhole p.now t.now }
    requires plant { IsPlant p.now }
    requires rule { IsRule p.now rule.now }
    ensures faces { IfOk result (λ b. b.known.faces.items ≡ faces_in (routines_of t.now) (stated_in t.now)) }
    ensures known { IfOk result (λ b. AreKnown p.now (plans_of t.now) (coded_of t.now).program t.now.places (items_of t.now.table.code) b.known.facts.items b.known.costs) }
    ensures calls { IfOk result (λ b. calls_of b.calls.items ≡ bills_of (scene_of p.now (plans_of t.now) (coded_of t.now).program t.now.places) (stubs_of task t.now.places)
        (stack_of (coded_of t.now).program t.now.places) [] [] (coded_of t.now).program.routines) }
{
    let lengths = stated_of(alloc, t)?;
    let faces = faces_of(alloc, t.program.routines.items(), &lengths)?;
    let mut billed = BilledFunctions {
        known: KnownFunctions {
            faces,
            facts: Vec::new(alloc),
            costs: [0; 256],
        },
        calls: Vec::new(alloc),
    };
    for _n in 0..t.table.code.items().len() {
        let call = next_call(alloc, t, task, &billed, rule, p)?;
        let fact = next_fact(alloc, t, &billed.known, rule, p)?;
        let cost = next_cost(t, &billed.known, p);
        billed = with_call(billed, fact, cost, call)?;
    }
    Ok(billed)
}

// ---- a job

/// The start by the rule.
fn start_items(scene: &Scene) -> Result<Vec<Item>, AllocError>
    requires scene { IsScene scene.now }
    requires place { (place_at scene.now.places.now 0).0 + 8 < 2 ^ 32 }
    ensures { IfOk result (λ bill. bill.items ≡ start_bill (scene_in scene.now)) }
{
    let at = scene.places.place(0).0;
    let mut bill = Vec::new(scene.alloc);
    push_own_jump(scene, &mut bill, at)?;
    push_instr(&mut bill, at + 4, &Instr::PmDone, &rule_prices(scene))?;
    Ok(bill)
}

/// The start with `job` as one scope, or another bill, whichever is cheaper.
fn start_or(scene: &Scene, job: u16, divided: Vec<Item>) -> Result<Vec<Item>, AllocError>
    requires scene { IsScene scene.now }
    requires place { (place_at scene.now.places.now 0).0 + 8 < 2 ^ 32 }
    ensures { IfOk result (λ bill. bill.items ≡ cheaper (scope_bill (at_start (scene_in scene.now)) (place_at scene.now.places.now 0).0 (job_span job)) divided.items) }
{
    let at = scene.places.place(0).0;
    let ranges = start_ranges(scene, job)?;
    let pieces = start_pieces(scene.alloc, job)?;
    scope_or(scene, at, pieces.items(), &[], &[], &ranges, divided)
}

/// The bill of a function that is known, where no marked call is in it, or where one is.
fn known_items(known: &[CallItems], f: usize, cuts: bool) -> &[Item]
    ensures { result.now ≡ known_items (calls_of known.now) f cuts }
{
    match known.get(f) {
        Some(call) => { if cuts { &call.parted } else { &call.least } }
        None => &[],
    }
}

/// The start and `job`.
fn job_items(scene: &Scene, known: &[CallItems], job: u16) -> Result<Vec<Item>, AllocError>
    requires scene { IsScene scene.now }
    requires place { (place_at scene.now.places.now 0).0 + 8 < 2 ^ 32 }
    ensures { IfOk result (λ bill. bill.items ≡ job_items (at_start (scene_in scene.now)) (calls_of known.now) job) }
{
    let f = usize::from(job);
    let cuts = fact_cuts(scene, f);
    let mut bill = start_items(scene)?;
    append(&mut bill, known_items(known, f, cuts))?;
    if cuts {
        Ok(bill)
    } else {
        start_or(scene, job, bill)
    }
}

/// One switch to a task before other items.
fn behind_switch(
    alloc: Global,
    p: &Plant,
    task: TaskId,
    job: &[Item],
) -> Result<Vec<Item>, AllocError>
    ensures { IfOk result (λ bill. bill.items ≡ switch_item p.now task ∷ job.now) }
{
    let mut bill = Vec::new(alloc);
    push_switch(&mut bill, p, task)?;
    append(&mut bill, job)?;
    Ok(bill)
}

/// The greatest of some lengths.
fn greatest_of(lengths: &[u32]) -> u64
    ensures greatest { result ≡ greatest_length lengths.now }
    ensures small { result < 2 ^ 32 }
{
    let mut most = 0;
    'lengths: for length in lengths {
        most = u64::from(*length).max(most);
    }
    most
}

/// That no stated length is too long, which is so since each has 32 bits.
fn are_short(alloc: Global, t: &PlacedTask) -> Result<(), AllocError>
    ensures { IfOk result (λ done. greatest_length (stated_in t.now) < 2 ^ 32) }
{
    let lengths = stated_of(alloc, t)?;
    let _most = greatest_of(&lengths);
    Ok(())
}

/// The bill of a job of a placed task that has such a number.
pub fn task_items(
    alloc: Global,
    t: &PlacedTask,
    task: TaskId,
    p: &Plant,
) -> Result<Vec<Item>, AllocError>
    requires timed { IsTimedTask p.now t.now }
    requires plant { IsPlant p.now }
    ensures bill { IfOk result (λ bill. bill.items ≡ task_bill p.now (plans_of t.now) task (coded_of t.now).program t.now.places) }
    ensures short { IfOk result (λ bill. wcet_of p.now (plans_of t.now) (coded_of t.now).program t.now.places ≤ 2 ^ 40) }
{
    are_short(alloc, t)?;
    let rule = rule_of(p);
    let BilledFunctions { known, calls } = billed_of(alloc, t, task, &rule, p)?;
    let routines = t.program.routines.items();
    let plans = t.plans.items();
    let scene = Scene {
        alloc,
        plant: p,
        places: &t.places,
        code: t.table.code.items(),
        faces: &known.faces,
        costs: &known.costs,
        rule: &rule,
        stack: (0, 0),
        facts: &known.facts,
        globals: 1 + routines.len() + plans.len(),
    };
    let job = job_items(&scene, &calls, t.table.job)?;
    behind_switch(alloc, p, task, &job)
}
