// The bill of code as one scope, which has the lines that it brings in at its first word.
ghost use Rattle.std.specs.Prelude.{◌≡◌, ◌+◌, ◌<◌, ◌^◌, ◌++◌, ◌∷◌, [], true, get_or, length, IfOk, OnOk};
ghost use Rattle.prem_asm.specs.Pieces.{followed, no_pieces, size_of};
ghost use Rattle.prem_asm.specs.PiecesOf.{pieces_of};
ghost use Rattle.prem_plant.specs.Ranges.{IsPlant};
ghost use Rattle.prem_layout.specs.Footprint.{lines_of, place_at};
ghost use Rattle.prem_layout.specs.Parts.{code_part};
ghost use Rattle.prem_bounds.specs.Scale.{clipped};
ghost use Rattle.prem_bounds.specs.TableOf.{listed};
ghost use Rattle.prem_wcet.specs.Crowds.{IsCache};
ghost use Rattle.prem_wcet.specs.Known.{bare_span};
ghost use Rattle.prem_wcet.specs.Outlines.{code_of};
ghost use Rattle.prem_wcet.specs.PartsOf.{parts_of};
ghost use Rattle.prem_wcet.specs.SceneOf.{IsScene, facts_in, scene_in};
ghost use Rattle.prem_profile.specs.Bound.Bills.{cheaper, cycles_on};
ghost use Rattle.prem_profile.specs.Bound.Pieces.{bill_from, part_bill};
ghost use Rattle.prem_profile.specs.Bound.Scopes.{bills_behind, cycles_of, lines_item, scope_bill_with};
ghost use Rattle.prem_profile.specs.Bound.Priced.{IsPriced, bills_in, calls_by, costs_by, crowd_bill, crowd_cost};

use crate::bound::bill::{Item, Spot, cycles_on, push_item};
use crate::bound::calling::code_calls;
use crate::bound::pieces::{Costing, Prices, push_pieces};
use crate::bound::spreading::push_spread;
use crate::cost::Cost;
use prem_asm::Piece;
use prem_bounds::line_cost;
use prem_plant::Plant;
use prem_wcet::crowd::{Crowd, crowd_of};
use prem_wcet::outline::Part;
use prem_wcet::scene::{Ranges, Scene};
use prem_wcet::scope::charge_with;
use std::alloc::{AllocError, Global};

/// The paths of the first functions of a task, and the cycles on each.
#[derive(Drop)]
struct Paths {
    bills: Vec<Vec<Item>>,
    cycles: Vec<u64>,
}

/// Those of no functions.
fn no_paths(alloc: Global) -> Paths
    ensures bills { result.bills.items ≡ [] }
    ensures cycles { result.cycles.items ≡ [] }
{
    Paths {
        bills: Vec::new(alloc),
        cycles: Vec::new(alloc),
    }
}

/// The path of the function of a number, where the cycles of those before it are known.
fn function_at(
    scene: &Scene,
    crowd: &Crowd,
    cycles: &[u64],
    n: usize,
) -> Result<Vec<Item>, AllocError>
    requires scene { IsScene scene.now }
    requires cache { IsCache crowd.now }
    requires there { n < length scene.now.code.now }
    ensures { IfOk result (λ bill. bill.items ≡ bill_from (crowd_cost crowd.now) (part_bill (length scene.now.code.now) cycles.now)
        (place_at scene.now.places.now (code_part n)).0 (get_or (listed scene.now.code.now) n no_pieces)) }
{
    let prices = Prices {
        costing: Costing::Scope(crowd),
        count: scene.code.len() as u32,
        cycles,
    };
    let mut bill = Vec::new(scene.alloc);
    let code = scene.code[n].items();
    push_pieces(
        scene.alloc,
        &mut bill,
        code,
        scene.places.place(1 + n).0,
        &prices,
    )?;
    Ok(bill)
}

/// One path more.
fn with_path(paths: Paths, bill: Vec<Item>) -> Result<Paths, AllocError>
    ensures bills { IfOk result (λ all. bills_in all.bills.items ≡ bills_in paths.bills.items ++ bill.items ∷ []) }
    ensures cycles { IfOk result (λ all. all.cycles.items ≡ paths.cycles.items ++ clipped (cycles_on bill.items) ∷ []) }
{
    let Paths {
        mut bills,
        mut cycles,
    } = paths;
    cycles.push(cycles_on(&bill))?;
    bills.push(bill)?;
    Ok(Paths { bills, cycles })
}

/// The paths of the functions that are known, each at its place.
fn paths_of(scene: &Scene, crowd: &Crowd) -> Result<Paths, AllocError>
    requires scene { IsScene scene.now }
    requires cache { IsCache crowd.now }
    ensures bills { IfOk result (λ all. bills_in all.bills.items ≡ bills_behind (crowd_cost crowd.now) (length scene.now.code.now) (λ part. (place_at scene.now.places.now part).0) []
        (facts_in scene.now.facts.now scene.now.code.now)) }
    ensures cycles { IfOk result (λ all. all.cycles.items ≡ cycles_of (bills_in all.bills.items)) }
{
    let mut all = no_paths(scene.alloc);
    for n in 0..scene.facts.len() {
        let bill = function_at(scene, crowd, &all.cycles, n)?;
        all = with_path(all, bill)?;
    }
    Ok(all)
}

/// The same where code calls them, and else none.
fn paths_for(scene: &Scene, crowd: &Crowd, calls: bool) -> Result<Paths, AllocError>
    requires scene { IsScene scene.now }
    requires cache { IsCache crowd.now }
    ensures bills { IfOk result (λ all. calls ≡ true → bills_in all.bills.items ≡ bills_behind (crowd_cost crowd.now) (length scene.now.code.now) (λ part. (place_at scene.now.places.now part).0) []
        (facts_in scene.now.facts.now scene.now.code.now)) }
    ensures cycles { IfOk result (λ all. all.cycles.items ≡ cycles_of (bills_in all.bills.items)) }
{
    if calls {
        paths_of(scene, crowd)
    } else {
        Ok(no_paths(scene.alloc))
    }
}

/// The bill of statements between other pieces.
fn push_parts(
    alloc: Global,
    bill: &mut Vec<Item>,
    before: &[Piece],
    parts: &[Part<'_>],
    last: &[Piece],
    at: u32,
    prices: &Prices,
) -> Result<(), AllocError>
    requires priced { IsPriced prices.now.costing }
    requires place { at + size_of (followed (pieces_of before.now) (followed (code_of (parts_of parts.now)) (pieces_of last.now))) < 2 ^ 32 }
    ensures { OnOk result (bill.new.items ≡ bill.old.items ++ bill_from (costs_by prices.now) (calls_by prices.now) at (followed (pieces_of before.now) (followed (code_of (parts_of parts.now)) (pieces_of last.now)))) }
{
    let mut end = push_pieces(alloc, bill, before, at, prices)?;
    for part in parts {
        end = push_pieces(alloc, bill, part.code(), end, prices)?;
    }
    push_pieces(alloc, bill, last, end, prices)?;
    Ok(())
}

/// Puts so many lines that are brought in at a place behind a bill.
fn push_lines(bill: &mut Vec<Item>, at: u32, lines: u64, plant: &Plant) -> Result<(), AllocError>
    requires plant { IsPlant plant.now }
    requires few { lines < 2 ^ 32 }
    ensures { OnOk result (bill.new.items ≡ bill.old.items ++ lines_item plant.now at lines ∷ []) }
{
    let cost = Cost {
        instructions: 0,
        cycles: lines * line_cost(plant),
        misses: lines,
        backs: lines,
    };
    push_item(bill, Spot::At(at), cost)
}

/// The bill of code whose lines are such a collection.
fn crowd_bill(
    scene: &Scene,
    at: u32,
    before: &[Piece],
    parts: &[Part<'_>],
    last: &[Piece],
    crowd: &Crowd,
) -> Result<Vec<Item>, AllocError>
    requires scene { IsScene scene.now }
    requires cache { IsCache crowd.now }
    requires few { crowd.now.held < 2 ^ 32 }
    requires place { at + size_of (followed (pieces_of before.now) (followed (code_of (parts_of parts.now)) (pieces_of last.now))) < 2 ^ 32 }
    ensures { IfOk result (λ bill. bill.items ≡ crowd_bill (scene_in scene.now) crowd.now at (followed (pieces_of before.now) (followed (code_of (parts_of parts.now)) (pieces_of last.now)))) }
{
    let functions = paths_for(scene, crowd, code_calls(before, parts, last))?;
    let prices = Prices {
        costing: Costing::Scope(crowd),
        count: scene.code.len() as u32,
        cycles: &functions.cycles,
    };
    let mut path = Vec::new(scene.alloc);
    push_parts(scene.alloc, &mut path, before, parts, last, at, &prices)?;
    let mut bill = Vec::new(scene.alloc);
    push_lines(&mut bill, at, crowd.held, scene.plant)?;
    push_spread(scene.alloc, &mut bill, &path, &functions.bills)?;
    Ok(bill)
}

/// The same ranges once more.
fn copy_of(alloc: Global, ranges: &[(u32, u32)]) -> Result<Vec<(u32, u32)>, AllocError>
    ensures { IfOk result (λ copy. copy.items ≡ ranges.now) }
{
    let mut copy = Vec::new(alloc);
    for range in ranges {
        copy.push(*range)?;
    }
    Ok(copy)
}

/// The bill of code that touches such ranges as one scope.
fn scope_bill(
    scene: &Scene,
    at: u32,
    before: &[Piece],
    parts: &[Part<'_>],
    last: &[Piece],
    ranges: &Ranges,
) -> Result<Vec<Item>, AllocError>
    requires scene { IsScene scene.now }
    requires place { at + size_of (followed (pieces_of before.now) (followed (code_of (parts_of parts.now)) (pieces_of last.now))) < 2 ^ 32 }
    ensures { IfOk result (λ bill. bill.items ≡ scope_bill_with (scene_in scene.now) at (bare_span (followed (pieces_of before.now) (followed (code_of (parts_of parts.now)) (pieces_of last.now))))
        (lines_of scene.now.plant.now.line (ranges.now.code.items ++ ranges.now.touched.items)) (lines_of scene.now.plant.now.line ranges.now.touched.items)) }
{
    let code = copy_of(scene.alloc, &ranges.code)?;
    let crowd = crowd_of(scene.alloc, code, &ranges.touched, scene.plant)?;
    crowd_bill(scene, at, before, parts, last, &crowd)
}

/// What it counts as one scope.
fn scope_charge(
    scene: &Scene,
    at: u32,
    before: &[Piece],
    parts: &[Part<'_>],
    last: &[Piece],
    ranges: &Ranges,
) -> Result<u64, AllocError>
    requires scene { IsScene scene.now }
    requires place { at + size_of (followed (pieces_of before.now) (followed (code_of (parts_of parts.now)) (pieces_of last.now))) < 2 ^ 32 }
    ensures { IfOk result (λ n. n ≡ clipped (cycles_on (scope_bill_with (scene_in scene.now) at (bare_span (followed (pieces_of before.now) (followed (code_of (parts_of parts.now)) (pieces_of last.now))))
        (lines_of scene.now.plant.now.line (ranges.now.code.items ++ ranges.now.touched.items)) (lines_of scene.now.plant.now.line ranges.now.touched.items)))) }
{
    let code = copy_of(scene.alloc, &ranges.code)?;
    let touched = copy_of(scene.alloc, &ranges.touched)?;
    let copy = Ranges { code, touched };
    charge_with(scene, at, before, parts, last, copy)
}

/// The bill of code that touches such ranges: as one scope, or another one, whichever is cheaper.
pub fn scope_or(
    scene: &Scene,
    at: u32,
    before: &[Piece],
    parts: &[Part<'_>],
    last: &[Piece],
    ranges: &Ranges,
    divided: Vec<Item>,
) -> Result<Vec<Item>, AllocError>
    requires scene { IsScene scene.now }
    requires place { at + size_of (followed (pieces_of before.now) (followed (code_of (parts_of parts.now)) (pieces_of last.now))) < 2 ^ 32 }
    ensures { IfOk result (λ bill. bill.items ≡ cheaper (scope_bill_with (scene_in scene.now) at (bare_span (followed (pieces_of before.now) (followed (code_of (parts_of parts.now)) (pieces_of last.now))))
        (lines_of scene.now.plant.now.line (ranges.now.code.items ++ ranges.now.touched.items)) (lines_of scene.now.plant.now.line ranges.now.touched.items)) divided.items) }
{
    let whole = scope_charge(scene, at, before, parts, last, ranges)?;
    if whole <= cycles_on(&divided) {
        scope_bill(scene, at, before, parts, last, ranges)
    } else {
        Ok(divided)
    }
}
