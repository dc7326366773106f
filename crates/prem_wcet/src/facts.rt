// The facts of the functions of a task, in the order of the text, each from those before it.
ghost use Rattle.std.specs.Prelude.{◌≡◌, ◌+◌, ◌<◌, ◌^◌, ◌++◌, ◌∷◌, [], IfOk, drop, is_some, length, option_map, slice_set};
ghost use Rattle.std.specs.List.{AllByRecursion};
ghost use Rattle.prem_list.specs.Sequence.{items_of};
ghost use Rattle.prem_plant.specs.Ranges.{IsPlant};
ghost use Rattle.prem_isa.specs.Decode.{cost_of};
ghost use Rattle.prem_syntax.specs.SyntaxOf.{mark_of};
ghost use Rattle.prem_asm.specs.Pieces.{size_of};
ghost use Rattle.prem_asm.specs.PiecesOf.{pieces_of};
ghost use Rattle.prem_split.specs.Walk.{HasFrame};
ghost use Rattle.prem_bounds.specs.TableOf.{listed};
ghost use Rattle.prem_place.specs.Placed.PlacedOf.{coded_of, plans_of, routines_of};
ghost use Rattle.prem_wcet.specs.EdgesOf.{BelowFits};
ghost use Rattle.prem_wcet.specs.Fitting.{FitsAt};
ghost use Rattle.prem_wcet.specs.Known.{TellsKnown};
ghost use Rattle.prem_wcet.specs.KnownOf.{AreKnown, IsFact, IsNextFact, IsRule, StandsWhole, face_if, faces_in, first_length, lengths_behind, next_cost_of, stack_by};
ghost use Rattle.prem_wcet.specs.Lengths.{with_lengths};
ghost use Rattle.prem_wcet.specs.Outlines.{code_of};
ghost use Rattle.prem_wcet.specs.PartsOf.{parts_of};
ghost use Rattle.prem_wcet.specs.SceneOf.{IsScene, face_at, scene_in};

use crate::crowd::no_crowd;
use crate::least::{function_ranges, least_function};
use crate::outline::{Outline, outline_of};
use crate::parted::parted_function;
use crate::scene::{Face, Fact, Ranges, Scene, any_cuts};
use crate::walk::{PlaceScale, walk};
use prem_asm::{Piece, size};
use prem_bounds::line_cost;
use prem_bounds::scale::Scale;
use prem_foot::TaskPlaces;
use prem_place::placed::PlacedTask;
use prem_plant::Plant;
use prem_split::frame;
use prem_syntax::Mark;
use prem_tree::resolve::Routine;
use std::alloc::{AllocError, Global};

/// What is known of the first functions of a task.
#[derive(Drop)]
pub struct KnownFunctions {
    /// All functions as their callers see them.
    pub faces: Vec<Face>,
    pub facts: Vec<Fact>,
    /// What they cost where all lines are found.
    pub costs: [u64; 256],
}

// ---- functions as their callers see them

/// The first of some lengths.
fn first_length(lengths: &[u32]) -> u32
    ensures { result ≡ first_length lengths.now }
{
    lengths.get(0).copied().unwrap_or(0)
}

/// Those behind it.
fn behind_first(lengths: &[u32]) -> &[u32]
    ensures { result.now ≡ drop 1 lengths.now }
{
    match lengths {
        [] => lengths,
        [_, rest @ ..] => rest,
    }
}

/// A function that has such a mark. A marked one has the first of these lengths.
fn face_of(frame: u32, mark: &Option<Mark>, lengths: &[u32]) -> Face
    ensures { result ≡ face_if (is_some (option_map mark_of mark.now)) frame lengths.now }
{
    match mark {
        Some(_) => Face {
            frame,
            stated: Some(first_length(lengths)),
        },
        None => Face {
            frame,
            stated: None,
        },
    }
}

/// The lengths of those behind it.
fn lengths_behind<'a>(mark: &Option<Mark>, lengths: &'a [u32]) -> &'a [u32]
    ensures { result.now ≡ lengths_behind (is_some (option_map mark_of mark.now)) lengths.now }
{
    match mark {
        Some(_) => behind_first(lengths),
        None => lengths,
    }
}

/// Functions as their callers see them, where the marked ones have such lengths.
pub fn faces_of(
    alloc: Global,
    routines: &[Routine<'_>],
    lengths: &[u32],
) -> Result<Vec<Face>, AllocError>
    requires { AllByRecursion HasFrame routines.now }
    ensures { IfOk result (λ faces. faces.items ≡ faces_in routines.now lengths.now) }
{
    let mut faces = Vec::new(alloc);
    let mut rest = lengths;
    for routine in routines {
        let bytes = frame(routine) as u32;
        let text = routine.text;
        faces.push(face_of(bytes, &text.mark, rest))?;
        rest = lengths_behind(&text.mark, rest);
    }
    Ok(faces)
}

/// The frame of a function by its number.
pub fn frame_at(faces: &[Face], f: usize) -> u32
    ensures { result ≡ (face_at faces.now f).frame }
{
    match faces.get(f) {
        Some(face) => face.frame,
        None => 0,
    }
}

// ---- facts

/// What instructions weigh by the rule, where nothing is called.
pub fn rule_of(p: &Plant) -> Scale
    requires { IsPlant p.now }
    ensures { IsRule p.now result }
{
    let miss = line_cost(p);
    Scale {
        access: 2 * miss,
        other: miss,
        count: 0,
        functions: [0; 256],
        stubs: [0; 256],
    }
}

/// The bytes of the stack that a function's own code may touch: `job` has its frame of so many bytes, each other one a frame below it.
pub fn stack_of(places: &TaskPlaces, base: u32, is_job: bool) -> (u32, u32)
    ensures { result ≡ stack_by places.now base is_job }
{
    let (low, high) = places.stack_place();
    let top = high.saturating_sub(base);
    if is_job { (top, high) } else { (low, top) }
}

/// The fact of a function at a place.
fn fact_of(
    scene: &Scene,
    at: u32,
    code: &[Piece],
    outline: &Outline<'_>,
) -> Result<Fact, AllocError>
    requires scene { IsScene scene.now }
    requires place { at + size_of (pieces_of code.now) < 2 ^ 32 }
    requires ends { at + size_of (pieces_of outline.now.entry.now) + size_of (code_of (parts_of (items_of outline.now.body))) + size_of (pieces_of outline.now.leaving.now) < 2 ^ 32 }
    requires fits { FitsAt (at + size_of (pieces_of outline.now.entry.now)) (parts_of (items_of outline.now.body)) }
    requires below { BelowFits (scene_in scene.now) (parts_of (items_of outline.now.body)) }
    ensures { IfOk result (IsFact (scene_in scene.now) at (pieces_of code.now) outline.now) }
{
    let Ranges { code: run, touched } = function_ranges(
        scene,
        (at, at + size(code) as u32),
        outline,
    )?;
    let cuts = any_cuts(scene, outline.body.items());
    let least = least_function(scene, at, code, outline)?;
    let parted = parted_function(scene, at, outline)?;
    Ok(Fact {
        code: run,
        touched,
        cuts,
        least,
        parted,
    })
}

/// The fact of the function behind those that are known.
pub fn next_fact(
    alloc: Global,
    t: &PlacedTask,
    known: &KnownFunctions,
    rule: &Scale,
    p: &Plant,
) -> Result<Fact, AllocError>
    requires task { StandsWhole p.now t.now }
    requires plant { IsPlant p.now }
    requires rule { IsRule p.now rule.now }
    requires there { length known.now.facts.items < length (items_of t.now.table.code) }
    requires costs { TellsKnown known.now.costs (λ at. cost_of) t.now.places (listed (items_of t.now.table.code)) (length known.now.facts.items) }
    ensures { IfOk result (IsNextFact p.now t.now known.now.faces.items known.now.facts.items) }
{
    let n = known.facts.len();
    let code = t.table.code.items();
    let routines = t.program.routines.items();
    let base = frame_at(&known.faces, t.program.job);
    let scene = Scene {
        alloc,
        plant: p,
        places: &t.places,
        code,
        faces: &known.faces,
        costs: &known.costs,
        rule,
        stack: stack_of(&t.places, base, n == t.program.job),
        facts: &known.facts,
        globals: 1 + routines.len() + t.plans.items().len(),
    };
    let pieces = code[n].items();
    let outline = outline_of(alloc, &routines[n], pieces, p.target)?;
    fact_of(&scene, t.places.place(1 + n).0, pieces, &outline)
}

/// What it costs where all lines are found.
pub fn next_cost(t: &PlacedTask, known: &KnownFunctions, p: &Plant) -> u64
    requires task { StandsWhole p.now t.now }
    requires plant { IsPlant p.now }
    requires there { length known.now.facts.items < length (items_of t.now.table.code) }
    ensures { result ≡ next_cost_of t.now known.now.costs (length known.now.facts.items) }
{
    let n = known.facts.len();
    let code = t.table.code.items();
    let alone = no_crowd(p);
    let scale = PlaceScale {
        crowd: &alone,
        count: code.len() as u32,
        functions: known.costs,
    };
    walk(code[n].items(), t.places.place(1 + n).0, &scale).sum
}

/// What is known of one more function.
pub fn with_next(known: KnownFunctions, fact: Fact, cost: u64) -> Result<KnownFunctions, AllocError>
    requires { length known.facts.items < 256 }
    ensures faces { IfOk result (λ k. k.faces.items ≡ known.faces.items) }
    ensures facts { IfOk result (λ k. k.facts.items ≡ known.facts.items ++ fact ∷ []) }
    ensures costs { IfOk result (λ k. k.costs ≡ slice_set known.costs (length known.facts.items) cost) }
{
    let KnownFunctions {
        faces,
        facts: mut all,
        mut costs,
    } = known;
    costs[all.len()] = cost;
    all.push(fact)?;
    Ok(KnownFunctions {
        faces,
        facts: all,
        costs,
    })
}

/// What is known of all functions of a placed task, where its marked functions have such lengths.
pub fn known_of(
    alloc: Global,
    t: &PlacedTask,
    lengths: &[u32],
    rule: &Scale,
    p: &Plant,
) -> Result<KnownFunctions, AllocError>
    requires task { StandsWhole p.now t.now }
    requires plant { IsPlant p.now }
    requires rule { IsRule p.now rule.now }
    requires count { length lengths.now ≡ length (plans_of t.now) }
    ensures faces { IfOk result (λ k. k.faces.items ≡ faces_in (routines_of t.now) lengths.now) }
    ensures known { IfOk result (λ k. AreKnown p.now (with_lengths lengths.now (plans_of t.now)) (coded_of t.now).program t.now.places (items_of t.now.table.code) k.facts.items k.costs) }
{
    let faces = faces_of(alloc, t.program.routines.items(), lengths)?;
    let mut known = KnownFunctions {
        faces,
        facts: Vec::new(alloc),
        costs: [0; 256],
    };
    for _n in 0..t.table.code.items().len() {
        let fact = next_fact(alloc, t, &known, rule, p)?;
        let cost = next_cost(t, &known, p);
        known = with_next(known, fact, cost)?;
    }
    Ok(known)
}
