// What is known of a task at the code of a function.
ghost use Rattle.std.specs.Prelude.{◌≡◌, IfOk, OnOk, [], ◌∷◌};
ghost use Rattle.std.specs.List.{list_any};
ghost use Rattle.prem_layout.specs.Footprint.{global_range};
ghost use Rattle.prem_wcet_laws.specs.Scopes.{fact_of};
ghost use Rattle.prem_wcet_laws.specs.Parted.{cuts};
ghost use Rattle.prem_wcet.specs.Once.{is_range, with_code, with_names, with_range, with_ranges, with_some, with_touched};
ghost use Rattle.prem_wcet.specs.Outlines.{cut_in};
ghost use Rattle.prem_wcet.specs.PartsOf.{part_of, parts_of};
ghost use Rattle.prem_wcet.specs.SceneOf.{IsScene, scene_in};

use crate::count::PathCount;
use crate::outline::Part;
use prem_asm::{Piece, Sequence};
use prem_bounds::scale::Scale;
use prem_foot::TaskPlaces;
use prem_plant::Plant;
use std::alloc::{AllocError, Global};

/// What is known of a function whose calls are no marked ones.
#[derive(Drop)]
pub struct Fact {
    /// The bytes of the code that a call of it runs, each range once.
    pub code: Vec<(u32, u32)>,
    /// The bytes of globals and of the stack that it may touch, each range once.
    pub touched: Vec<(u32, u32)>,
    /// Whether a marked call is in it.
    pub cuts: bool,
    /// What a call counts, where no marked call is in it.
    pub least: u64,
    /// What a call counts, where one is.
    pub parted: PathCount,
}

/// A function as its callers see it.
#[derive(Clone, Copy)]
pub struct Face {
    /// The bytes of its frame.
    pub frame: u32,
    /// The length of its interval in cycles, where it is marked.
    pub stated: Option<u32>,
}

/// A task at the code of a function, where the functions before it are known.
#[derive(Clone, Copy)]
pub struct Scene<'s> {
    pub alloc: Global,
    pub plant: &'s Plant,
    pub places: &'s TaskPlaces,
    pub code: &'s [Sequence<Piece>],
    pub faces: &'s [Face],
    /// What functions cost that find all their lines.
    pub costs: &'s [u64; 256],
    /// What instructions weigh by the rule, where nothing is called.
    pub rule: &'s Scale,
    /// The bytes of the stack that the function's own code may touch.
    pub stack: (u32, u32),
    pub facts: &'s [Fact],
    /// The number of the part that the first global is.
    pub globals: usize,
}

/// The bytes of code and of data that code may touch, each range once.
#[derive(Drop)]
pub struct Ranges {
    pub code: Vec<(u32, u32)>,
    pub touched: Vec<(u32, u32)>,
}

/// Whether a range is one of some.
fn is_there(ranges: &[(u32, u32)], range: (u32, u32)) -> bool
    ensures { result ≡ list_any (is_range range) ranges.now }
{
    for other in ranges {
        if other.0 == range.0 && other.1 == range.1 {
            return true;
        }
    }
    false
}

/// Puts a range behind others, if it isn't there.
fn add_range(ranges: &mut Vec<(u32, u32)>, range: (u32, u32)) -> Result<(), AllocError>
    ensures { OnOk result (ranges.new.items ≡ with_range ranges.old.items range) }
{
    if !is_there(ranges, range) {
        ranges.push(range)?;
    }
    Ok(())
}

/// Puts ranges behind others, those that aren't there.
fn add_ranges(ranges: &mut Vec<(u32, u32)>, more: &[(u32, u32)]) -> Result<(), AllocError>
    ensures { OnOk result (ranges.new.items ≡ with_ranges ranges.old.items more.now) }
{
    for range in more {
        add_range(ranges, *range)?;
    }
    Ok(())
}

/// The bytes of a global.
fn global_place(scene: &Scene, g: usize) -> (u32, u32)
    requires { IsScene scene.now }
    ensures { result ≡ global_range scene.now.places.now g }
{
    match scene.globals.checked_add(g) {
        Some(part) => scene.places.place(part),
        None => (0, 0),
    }
}

/// Puts the bytes of globals behind others.
fn add_names(scene: &Scene, ranges: &mut Vec<(u32, u32)>, names: &[usize]) -> Result<(), AllocError>
    requires { IsScene scene.now }
    ensures { OnOk result (ranges.new.items ≡ with_names (scene_in scene.now) ranges.old.items names.now) }
{
    for g in names {
        add_range(ranges, global_place(scene, *g))?;
    }
    Ok(())
}

/// Puts what a call of a function runs and touches behind others.
pub fn add_callee(scene: &Scene, ranges: &mut Ranges, f: usize) -> Result<(), AllocError>
    requires { IsScene scene.now }
    ensures code { OnOk result (ranges.new.code.items ≡ with_ranges ranges.old.code.items (fact_of (scene_in scene.now) f).code) }
    ensures touched { OnOk result (ranges.new.touched.items ≡ with_ranges ranges.old.touched.items (fact_of (scene_in scene.now) f).touched) }
{
    match scene.facts.get(f) {
        Some(fact) => {
            add_ranges(&mut ranges.code, &fact.code)?;
            add_ranges(&mut ranges.touched, &fact.touched)
        }
        None => Ok(()),
    }
}

/// Puts what a statement names and calls behind others.
#[cycle(ranges)]
fn add_part(scene: &Scene, ranges: &mut Ranges, part: &Part<'_>) -> Result<(), AllocError>
    requires { IsScene scene.now }
    ensures code { OnOk result (ranges.new.code.items ≡ with_code (scene_in scene.now) ranges.old.code.items (part_of part.now)) }
    ensures touched { OnOk result (ranges.new.touched.items ≡ with_touched (scene_in scene.now) ranges.old.touched.items (part_of part.now)) }
{
    match part {
        Part::Plain { names, .. } => add_names(scene, &mut ranges.touched, names.items()),
        Part::Calling { names, callee, .. } => {
            add_names(scene, &mut ranges.touched, names.items())?;
            add_callee(scene, ranges, *callee)
        }
        Part::Choice {
            names,
            taken,
            other,
            ..
        } => {
            add_names(scene, &mut ranges.touched, names.items())?;
            add_parts(scene, ranges, taken.items())?;
            add_parts(scene, ranges, other.items())
        }
        Part::Turning { names, body, .. } => {
            add_names(scene, &mut ranges.touched, names.items())?;
            add_parts(scene, ranges, body.items())
        }
    }
}

#[cycle(ranges)]
fn add_parts(scene: &Scene, ranges: &mut Ranges, parts: &[Part<'_>]) -> Result<(), AllocError>
    requires { IsScene scene.now }
    ensures code { OnOk result (ranges.new.code.items ≡ with_code (scene_in scene.now) ranges.old.code.items (parts_of parts.now)) }
    ensures touched { OnOk result (ranges.new.touched.items ≡ with_touched (scene_in scene.now) ranges.old.touched.items (parts_of parts.now)) }
{
    for part in parts {
        add_part(scene, ranges, part)?;
    }
    Ok(())
}

/// What code with such statements may touch: its own bytes, and the stack at hand.
pub fn ranges_of(scene: &Scene, own: (u32, u32), parts: &[Part<'_>]) -> Result<Ranges, AllocError>
    requires { IsScene scene.now }
    ensures code { IfOk result (λ ranges. ranges.code.items ≡ with_code (scene_in scene.now) (own ∷ []) (parts_of parts.now)) }
    ensures touched { IfOk result (λ ranges. ranges.touched.items ≡ with_touched (scene_in scene.now) (scene.now.stack ∷ []) (parts_of parts.now)) }
{
    let mut ranges = Ranges {
        code: Vec::new(scene.alloc),
        touched: Vec::new(scene.alloc),
    };
    ranges.code.push(own)?;
    ranges.touched.push(scene.stack)?;
    add_parts(scene, &mut ranges, parts)?;
    Ok(ranges)
}

/// Puts the globals behind them that the edges of code name, and other bytes.
pub fn with_edge(
    scene: &Scene,
    ranges: &mut Ranges,
    names: &[usize],
    below: Option<(u32, u32)>,
) -> Result<(), AllocError>
    requires { IsScene scene.now }
    ensures code { OnOk result (ranges.new.code.items ≡ ranges.old.code.items) }
    ensures touched { OnOk result (ranges.new.touched.items ≡ with_some (with_names (scene_in scene.now) ranges.old.touched.items names.now) below) }
{
    add_names(scene, &mut ranges.touched, names)?;
    match below {
        Some(range) => add_range(&mut ranges.touched, range),
        None => Ok(()),
    }
}

// ---- marked calls

/// Whether a function is marked.
pub fn is_marked(scene: &Scene, f: usize) -> bool
    ensures { result ≡ (scene_in scene.now).marked f }
{
    match scene.faces.get(f) {
        Some(face) => face.stated.is_some(),
        None => false,
    }
}

/// Whether a call of a function that isn't marked has a marked one in it. One that isn't known has.
pub fn fact_cuts(scene: &Scene, f: usize) -> bool
    requires { IsScene scene.now }
    ensures { result ≡ (fact_of (scene_in scene.now) f).cuts }
{
    match scene.facts.get(f) {
        Some(fact) => fact.cuts,
        None => true,
    }
}

/// Whether a call of a function is a marked one, or has one in it.
fn call_cuts(scene: &Scene, f: usize) -> bool
    requires { IsScene scene.now }
    ensures { result ≡ cuts (scene_in scene.now) f }
{
    is_marked(scene, f) || fact_cuts(scene, f)
}

/// Whether a statement has a marked call in it.
#[cycle(cuts)]
pub fn cuts(scene: &Scene, part: &Part<'_>) -> bool
    requires { IsScene scene.now }
    ensures { result ≡ cut_in (scene_in scene.now) (part_of part.now) }
{
    match part {
        Part::Plain { .. } => false,
        Part::Calling { callee, .. } => call_cuts(scene, *callee),
        Part::Choice { taken, other, .. } => {
            any_cuts(scene, taken.items()) || any_cuts(scene, other.items())
        }
        Part::Turning { body, .. } => any_cuts(scene, body.items()),
    }
}

#[cycle(cuts)]
pub fn any_cuts(scene: &Scene, parts: &[Part<'_>]) -> bool
    requires { IsScene scene.now }
    ensures { result ≡ cut_in (scene_in scene.now) (parts_of parts.now) }
{
    for part in parts {
        if cuts(scene, part) {
            return true;
        }
    }
    false
}
