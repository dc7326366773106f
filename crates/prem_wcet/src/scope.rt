// The charge of code that runs as one scope.
ghost use Rattle.std.specs.Prelude.{◌≡◌, ◌+◌, ◌≤◌, ◌<◌, ◌^◌, ◌++◌, [], true, IfOk, length};
ghost use Rattle.prem_asm.specs.Pieces.{followed, size_of};
ghost use Rattle.prem_asm.specs.PiecesOf.{pieces_of};
ghost use Rattle.prem_isa.specs.Decode.{cost_of};
ghost use Rattle.prem_layout.specs.Footprint.{lines_of};
ghost use Rattle.prem_bounds.specs.Scale.{clipped};
ghost use Rattle.prem_bounds.specs.TableOf.{listed};
ghost use Rattle.prem_wcet_laws.specs.Scopes.{charge, charge_with};
ghost use Rattle.prem_wcet_laws.specs.Weights.{weighted_from};
ghost use Rattle.prem_wcet.specs.Crowds.{IsCache, place_weight};
ghost use Rattle.prem_wcet.specs.Known.{EndsWithin, TellsKnown, bare_span};
ghost use Rattle.prem_wcet.specs.Outlines.{code_of, span_in};
ghost use Rattle.prem_wcet.specs.PartsOf.{parts_of};
ghost use Rattle.prem_wcet.specs.SceneOf.{IsScene, scene_in};
ghost use Rattle.prem_wcet.specs.Walks.{calls_by, weight_by};

use crate::crowd::{Crowd, crowd_of};
use crate::outline::Part;
use crate::scene::{Ranges, Scene, ranges_of};
use crate::walk::{PlaceScale, Weighed, walk, walk_on};
use prem_asm::{Piece, Sequence, size};
use prem_bounds::scale::plus;
use prem_foot::TaskPlaces;
use std::alloc::AllocError;

/// Statements between other pieces.
fn walk_parts(
    before: &[Piece],
    parts: &[Part<'_>],
    last: &[Piece],
    at: u32,
    scale: &PlaceScale,
) -> Weighed
    requires cache { IsCache scale.now.crowd.now }
    requires place { at + size_of (followed (pieces_of before.now) (followed (code_of (parts_of parts.now)) (pieces_of last.now))) < 2 ^ 32 }
    ensures { result.sum ≡ clipped (weighted_from (weight_by scale.now) (calls_by scale.now) at (followed (pieces_of before.now) (followed (code_of (parts_of parts.now)) (pieces_of last.now)))) }
{
    let mut all = walk(before, at, scale);
    for part in parts {
        all = walk_on(all, part.code(), scale);
    }
    walk_on(all, last, scale)
}

/// The weights of functions, each at its place.
fn weights_of<'c>(
    crowd: &'c Crowd,
    code: &[Sequence<Piece>],
    known: usize,
    places: &TaskPlaces,
) -> PlaceScale<'c>
    requires cache { IsCache crowd.now }
    requires few { length code.now ≤ 256 }
    requires known { known ≤ length code.now }
    requires ends { EndsWithin places.now (listed code.now) }
    ensures crowd { result.crowd.now ≡ crowd.now }
    ensures count { result.count ≡ length code.now }
    ensures functions { TellsKnown result.functions (place_weight crowd.now) places.now (listed code.now) known }
{
    let count = code.len() as u32;
    let mut functions = [0; 256];
    for n in 0..known {
        let scale = PlaceScale {
            crowd,
            count,
            functions,
        };
        functions[n] = walk(code[n].items(), places.place(1 + n).0, &scale).sum;
    }
    PlaceScale {
        crowd,
        count,
        functions,
    }
}

/// The weights of functions where lines have such room.
pub fn scale_of<'c>(scene: &Scene, crowd: &'c Crowd) -> PlaceScale<'c>
    requires scene { IsScene scene.now }
    requires cache { IsCache crowd.now }
    requires alone { crowd.now.alone ≡ true → place_weight crowd.now ≡ (λ at. cost_of) }
    ensures crowd { result.crowd.now ≡ crowd.now }
    ensures count { result.count ≡ length scene.now.code.now }
    ensures functions { TellsKnown result.functions (place_weight crowd.now) scene.now.places.now (listed scene.now.code.now) (length scene.now.facts.now) }
{
    if crowd.alone {
        return PlaceScale {
            crowd,
            count: scene.code.len() as u32,
            functions: *scene.costs,
        };
    }
    weights_of(crowd, scene.code, scene.facts.len(), scene.places)
}

/// The charge of code that touches such ranges: statements between other pieces.
pub fn charge_with(
    scene: &Scene,
    at: u32,
    before: &[Piece],
    parts: &[Part<'_>],
    last: &[Piece],
    ranges: Ranges,
) -> Result<u64, AllocError>
    requires scene { IsScene scene.now }
    requires place { at + size_of (followed (pieces_of before.now) (followed (code_of (parts_of parts.now)) (pieces_of last.now))) < 2 ^ 32 }
    ensures { IfOk result (λ n. n ≡ clipped (charge_with (scene_in scene.now) at (bare_span (followed (pieces_of before.now) (followed (code_of (parts_of parts.now)) (pieces_of last.now))))
        (lines_of scene.now.plant.now.line (ranges.code.items ++ ranges.touched.items)) (lines_of scene.now.plant.now.line ranges.touched.items))) }
{
    let Ranges { code, touched } = ranges;
    let crowd = crowd_of(scene.alloc, code, &touched, scene.plant)?;
    let scale = scale_of(scene, &crowd);
    let path = walk_parts(before, parts, last, at, &scale).sum;
    let fills = crowd.held * u64::from(scene.plant.fill + scene.plant.back);
    Ok(plus(fills, path))
}

/// How many bytes statements have.
pub fn parts_size(parts: &[Part<'_>]) -> u32
    requires { size_of (code_of (parts_of parts.now)) < 2 ^ 32 }
    ensures { result ≡ size_of (code_of (parts_of parts.now)) }
{
    let mut sum = 0;
    for part in parts {
        sum += size(part.code()) as u32;
    }
    sum
}

/// The charge of statements.
pub fn charge(scene: &Scene, at: u32, parts: &[Part<'_>]) -> Result<u64, AllocError>
    requires scene { IsScene scene.now }
    requires place { at + size_of (code_of (parts_of parts.now)) < 2 ^ 32 }
    ensures { IfOk result (λ n. n ≡ clipped (charge (scene_in scene.now) at (span_in (parts_of parts.now)))) }
{
    let ranges = ranges_of(scene, (at, at + parts_size(parts)), parts)?;
    charge_with(scene, at, &[], parts, &[], ranges)
}
