// Charges of statements with marked calls: what stands between two of these is one passage, and counts its least charge.
ghost use Rattle.std.specs.Prelude.{◌≡◌, ◌+◌, ◌-◌, ◌*◌, ◌<◌, ◌≤◌, ◌^◌, IfOk};
ghost use Rattle.prem_list.specs.Sequence.{items_of};
ghost use Rattle.prem_asm.specs.Pieces.{size_of};
ghost use Rattle.prem_asm.specs.PiecesOf.{pieces_of};
ghost use Rattle.prem_layout.specs.Template.Terms.{nonzero};
ghost use Rattle.prem_bounds.specs.Scale.{clipped};
ghost use Rattle.prem_wcet_laws.specs.Scopes.{fact_of};
ghost use Rattle.prem_wcet_laws.specs.Counts.{quiet, then_count};
ghost use Rattle.prem_wcet_laws.specs.Least.{own};
ghost use Rattle.prem_wcet_laws.specs.Parted.{called_parted, no_edge, turn_count};
ghost use Rattle.prem_wcet.specs.Alike.{AreAlike};
ghost use Rattle.prem_wcet.specs.CountOf.{count_in};
ghost use Rattle.prem_wcet.specs.EdgesOf.{BelowFits, alone_in, below_of, cut_count_in, edge_of, function_parted, landing_edge, landing_place, passing_edge, whole_in};
ghost use Rattle.prem_wcet.specs.Fitting.{FitsAt};
ghost use Rattle.prem_wcet.specs.Outlines.{below_in, between, call_parted, choice_parted, code_of, first_place, inner_place, parted_in, passage_in, second_place};
ghost use Rattle.prem_wcet.specs.PartsOf.{part_code, part_of, parts_of};
ghost use Rattle.prem_wcet.specs.SceneOf.{IsScene, face_at, scene_in};

use crate::count::{
    PathCount, either_count, marked_count, no_count, quiet, then_count, turned_count,
};
use crate::least::{first_place, inner_place, least, own, own_jump, second_place};
use crate::outline::{Outline, Part};
use crate::scene::{Scene, cuts, ranges_of, with_edge};
use crate::scope::{charge_with, parts_size};
use prem_asm::{Piece, size};
use prem_bounds::scale::{plus, times};
use std::alloc::AllocError;

/// Code that calls nothing, before or behind the statements of a passage, with the globals that it names, and the bytes below
/// the frame that it writes.
#[derive(Clone, Copy)]
pub struct Edge<'a> {
    pub pieces: &'a [Piece],
    pub names: &'a [usize],
    pub below: Option<(u32, u32)>,
}

/// No code.
pub fn no_edge<'a>() -> Edge<'a>
    ensures { edge_of result ≡ no_edge }
{
    Edge {
        pieces: &[],
        names: &[],
        below: None,
    }
}

/// A passage as one scope.
fn whole_passage(
    scene: &Scene,
    at: u32,
    before: &Edge<'_>,
    parts: &[Part<'_>],
    last: &Edge<'_>,
) -> Result<u64, AllocError>
    requires scene { IsScene scene.now }
    requires place { at + size_of (between (edge_of before.now) (parts_of parts.now) (edge_of last.now)).pieces < 2 ^ 32 }
    ensures { IfOk result (λ n. n ≡ clipped (whole_in (scene_in scene.now) at (edge_of before.now) (parts_of parts.now) (edge_of last.now))) }
{
    let first = size(before.pieces) as u32;
    let inner = parts_size(parts);
    let end = at + first + inner + size(last.pieces) as u32;
    let mut ranges = ranges_of(scene, (at, end), parts)?;
    with_edge(scene, &mut ranges, before.names, before.below)?;
    with_edge(scene, &mut ranges, last.names, last.below)?;
    let charged = charge_with(scene, at, before.pieces, parts, last.pieces, ranges)?;
    Ok(charged)
}

/// Statements without marked calls between two edges, of which the first one begins at a place.
fn passage(
    scene: &Scene,
    at: u32,
    before: &Edge<'_>,
    parts: &[Part<'_>],
    last: &Edge<'_>,
) -> Result<u64, AllocError>
    requires scene { IsScene scene.now }
    requires place { at + size_of (between (edge_of before.now) (parts_of parts.now) (edge_of last.now)).pieces < 2 ^ 32 }
    requires fits { FitsAt (at + size_of (pieces_of before.now.pieces.now)) (parts_of parts.now) }
    ensures { IfOk result (λ n. n ≡ clipped (passage_in (scene_in scene.now) at (edge_of before.now) (parts_of parts.now) (edge_of last.now))) }
{
    let whole = whole_passage(scene, at, before, parts, last)?;
    let statements = least(scene, at + size(before.pieces) as u32, parts)?;
    let first = own(scene, before.pieces);
    let behind = own(scene, last.pieces);
    let divided = plus(plus(first, statements), behind);
    Ok(whole.min(divided))
}

/// What a call counts of a function that isn't marked.
pub fn fact_parted(scene: &Scene, f: usize) -> PathCount
    requires { IsScene scene.now }
    ensures { count_in result ≡ (fact_of (scene_in scene.now) f).parted }
{
    match scene.facts.get(f) {
        Some(fact) => fact.parted,
        None => no_count(),
    }
}

/// The stated length of a function that is marked.
pub fn stated_of(scene: &Scene, f: usize) -> Option<u32>
    ensures { result ≡ (face_at scene.now.faces.now f).stated }
{
    match scene.faces.get(f) {
        Some(face) => face.stated,
        None => None,
    }
}

/// What a call counts in which a marked one is, or which is one.
fn called_parted(scene: &Scene, f: usize) -> PathCount
    requires { IsScene scene.now }
    ensures { count_in result ≡ called_parted (scene_in scene.now) f }
{
    match stated_of(scene, f) {
        Some(stated) => marked_count(stated, scene.plant),
        None => fact_parted(scene, f),
    }
}

/// The bytes of a function's frame.
fn frame_of(scene: &Scene, f: usize) -> u32
    ensures { result ≡ (face_at scene.now.faces.now f).frame }
{
    match scene.faces.get(f) {
        Some(face) => face.frame,
        None => 0,
    }
}

/// The bytes of so many arguments, below a frame.
fn argument_range(low: u32, frame: u32, count: usize) -> Option<(u32, u32)>
    requires { low - frame + 4 + 4 * count < 2 ^ 32 }
    ensures { below_of result ≡ below_in low frame count }
{
    if count == 0 {
        return None;
    }
    let first = low.saturating_sub(frame) + 4;
    let bytes = 4 * count as u32;
    Some((first, first + bytes))
}

/// What stands before a statement with marked calls: the arguments, where it is a call itself.
pub fn passing<'a>(scene: &Scene, part: &'a Part<'_>) -> Edge<'a>
    requires { BelowFits (scene_in scene.now) (part_of part.now) }
    ensures { edge_of result ≡ passing_edge (scene_in scene.now) (part_of part.now) }
{
    match part {
        Part::Calling {
            arguments,
            names,
            count,
            callee,
            ..
        } => {
            let frame = frame_of(scene, *callee);
            let below = argument_range(scene.stack.0, frame, *count);
            let names = names.items();
            Edge {
                pieces: arguments,
                names,
                below,
            }
        }
        Part::Plain { .. } | Part::Choice { .. } | Part::Turning { .. } => no_edge(),
    }
}

/// Where the passage behind a statement with marked calls begins.
pub fn landing_place(at: u32, part: &Part<'_>) -> u32
    requires { landing_place at (part_of part.now) < 2 ^ 32 }
    ensures { result ≡ landing_place at (part_of part.now) }
{
    match part {
        Part::Calling { arguments, .. } => at + size(arguments) as u32 + 4,
        Part::Plain { code, .. } | Part::Choice { code, .. } | Part::Turning { code, .. } => {
            at + size(code) as u32
        }
    }
}

/// What stands behind a statement with marked calls: what brings the result to its target, where it is a call itself.
pub fn landing<'a>(part: &'a Part<'_>) -> Edge<'a>
    ensures { edge_of result ≡ landing_edge (part_of part.now) }
{
    match part {
        Part::Calling { landing, .. } => Edge {
            pieces: landing,
            names: &[],
            below: None,
        },
        Part::Plain { .. } | Part::Choice { .. } | Part::Turning { .. } => no_edge(),
    }
}

/// A call that is a marked one or has one in it, from its jump on.
fn call_count(scene: &Scene, callee: usize) -> PathCount
    requires { IsScene scene.now }
    ensures { AreAlike (count_in result) (call_parted (scene_in scene.now) callee) }
{
    let jump = own_jump(scene);
    let over = quiet(jump);
    let called = called_parted(scene, callee);
    then_count(over, called)
}

/// A choice with what its sides count.
fn choice_count(scene: &Scene, skips: u32, taken: PathCount, other: PathCount) -> PathCount
    requires { IsScene scene.now }
    ensures { AreAlike (count_in result) (choice_parted (scene_in scene.now) skips (count_in taken) (count_in other)) }
{
    let jump = own_jump(scene);
    let over = times(skips, jump);
    let skip = quiet(over);
    let back = quiet(jump);
    let first = then_count(taken, skip);
    let second = then_count(back, other);
    let sides = either_count(first, second);
    then_count(back, sides)
}

/// A loop with what its head and its body count.
fn turn_count(scene: &Scene, turns: u32, head: u64, body: PathCount) -> PathCount
    requires { IsScene scene.now }
    ensures { AreAlike (count_in result) (turn_count (scene_in scene.now) turns (nonzero 10) head (count_in body)) }
{
    let jump = own_jump(scene);
    let start = plus(head, jump);
    let leave = plus(start, jump);
    let over = quiet(jump);
    let begin = quiet(start);
    let back = then_count(body, over);
    let turn = then_count(begin, back);
    let out = quiet(leave);
    turned_count(turns, turn, out)
}

/// A choice that has marked calls in it.
#[cycle(parted)]
fn cut_choice(
    scene: &Scene,
    at: u32,
    condition: &[Piece],
    skips: u32,
    taken: &[Part<'_>],
    other: &[Part<'_>],
) -> Result<PathCount, AllocError>
    requires scene { IsScene scene.now }
    requires taken { FitsAt (first_place at (pieces_of condition.now)) (parts_of taken.now) }
    requires other { FitsAt (second_place at (pieces_of condition.now) (parts_of taken.now) skips) (parts_of other.now) }
    requires below { BelowFits (scene_in scene.now) (parts_of taken.now) }
    requires below_other { BelowFits (scene_in scene.now) (parts_of other.now) }
    ensures { IfOk result (λ c. AreAlike (count_in c) (then_count (quiet (own (scene_in scene.now) (pieces_of condition.now))) (choice_parted (scene_in scene.now) skips
        (alone_in (scene_in scene.now) (first_place at (pieces_of condition.now)) (parts_of taken.now))
        (alone_in (scene_in scene.now) (second_place at (pieces_of condition.now) (parts_of taken.now) skips) (parts_of other.now))))) }
{
    let first = alone(scene, first_place(at, condition), taken)?;
    let second = alone(scene, second_place(at, condition, taken, skips), other)?;
    let sides = choice_count(scene, skips, first, second);
    let test = own(scene, condition);
    let start = quiet(test);
    Ok(then_count(start, sides))
}

/// A loop that has marked calls in it.
#[cycle(parted)]
fn cut_turns(
    scene: &Scene,
    at: u32,
    first: &[Piece],
    turns: u32,
    head: &[Piece],
    before: &[Piece],
    body: &[Part<'_>],
    behind: &[Piece],
) -> Result<PathCount, AllocError>
    requires scene { IsScene scene.now }
    requires body { FitsAt (inner_place at (pieces_of first.now) (pieces_of head.now) (pieces_of before.now)) (parts_of body.now) }
    requires below { BelowFits (scene_in scene.now) (parts_of body.now) }
    ensures { IfOk result (λ c. AreAlike (count_in c) (then_count (quiet (own (scene_in scene.now) (pieces_of first.now))) (turn_count (scene_in scene.now) turns (nonzero 10) (own (scene_in scene.now) (pieces_of head.now))
        (then_count (quiet (own (scene_in scene.now) (pieces_of before.now)))
        (then_count (alone_in (scene_in scene.now) (inner_place at (pieces_of first.now) (pieces_of head.now) (pieces_of before.now)) (parts_of body.now)) (quiet (own (scene_in scene.now) (pieces_of behind.now)))))))) }
{
    let inside = alone(scene, inner_place(at, first, head, before), body)?;
    let last = own(scene, behind);
    let leave = quiet(last);
    let ended = then_count(inside, leave);
    let start = own(scene, before);
    let begin = quiet(start);
    let turn = then_count(begin, ended);
    let top = own(scene, head);
    let all = turn_count(scene, turns, top, turn);
    let outside = own(scene, first);
    let entry = quiet(outside);
    Ok(then_count(entry, all))
}

/// A statement that has marked calls in it, between the edges of the passages around it.
#[cycle(parted)]
fn cut_count(scene: &Scene, at: u32, part: &Part<'_>) -> Result<PathCount, AllocError>
    requires scene { IsScene scene.now }
    requires fits { FitsAt at (part_of part.now) }
    requires below { BelowFits (scene_in scene.now) (part_of part.now) }
    ensures { IfOk result (λ c. AreAlike (count_in c) (cut_count_in (scene_in scene.now) at (part_of part.now))) }
{
    match part {
        Part::Plain { .. } => Ok(quiet(0)),
        Part::Calling { callee, .. } => Ok(call_count(scene, *callee)),
        Part::Choice {
            condition,
            skips,
            taken,
            other,
            ..
        } => cut_choice(scene, at, condition, *skips, taken.items(), other.items()),
        Part::Turning {
            first,
            turns,
            head,
            before,
            body,
            behind,
            ..
        } => cut_turns(scene, at, first, *turns, head, before, body.items(), behind),
    }
}

/// A statement that has marked calls in it and what is counted behind it: a passage up to the next such statement, and the
/// rest from that one on.
fn behind_cut(
    scene: &Scene,
    at: u32,
    part: &Part<'_>,
    front: &[Part<'_>],
    edge: &Edge<'_>,
    cut: PathCount,
    rest: PathCount,
) -> Result<PathCount, AllocError>
    requires scene { IsScene scene.now }
    requires place { landing_place at (part_of part.now) + size_of (between (landing_edge (part_of part.now)) (parts_of front.now) (edge_of edge.now)).pieces < 2 ^ 32 }
    requires fits { FitsAt (landing_place at (part_of part.now) + size_of (landing_edge (part_of part.now)).pieces) (parts_of front.now) }
    ensures { IfOk result (λ c. AreAlike (count_in c) (then_count (count_in cut)
        (then_count (quiet (passage_in (scene_in scene.now) (landing_place at (part_of part.now)) (landing_edge (part_of part.now)) (parts_of front.now) (edge_of edge.now))) (count_in rest)))) }
{
    let first = landing(part);
    let from = landing_place(at, part);
    let most = passage(scene, from, &first, front, edge)?;
    let next = quiet(most);
    let tail = then_count(next, rest);
    Ok(then_count(cut, tail))
}

/// Where statements end that stand behind other code.
pub fn end_of(at: u32, before: &Edge<'_>, parts: &[Part<'_>]) -> u32
    requires { at + size_of (pieces_of before.now.pieces.now) + size_of (code_of (parts_of parts.now)) < 2 ^ 32 }
    ensures { result ≡ at + size_of (pieces_of before.now.pieces.now) + size_of (code_of (parts_of parts.now)) }
{
    at + size(before.pieces) as u32 + parts_size(parts)
}

/// Where a statement begins that ends at a place.
pub fn start_of(end: u32, part: &Part<'_>) -> u32
    requires { size_of (part_code part.now) ≤ end }
    ensures { result ≡ end - size_of (part_code part.now) }
{
    end - size(part.code()) as u32
}

/// Statements between two edges, of which the first one begins at a place. They are counted from the last one on: behind a
/// statement that has marked calls in it stands a passage up to the next such one.
#[cycle(parted)]
fn parted<'a>(
    scene: &Scene,
    at: u32,
    before: &Edge<'_>,
    parts: &'a [Part<'_>],
    last: &Edge<'a>,
) -> Result<PathCount, AllocError>
    requires scene { IsScene scene.now }
    requires place { at + size_of (between (edge_of before.now) (parts_of parts.now) (edge_of last.now)).pieces < 2 ^ 32 }
    requires fits { FitsAt (at + size_of (pieces_of before.now.pieces.now)) (parts_of parts.now) }
    requires below { BelowFits (scene_in scene.now) (parts_of parts.now) }
    ensures { IfOk result (λ c. AreAlike (count_in c) (parted_in (scene_in scene.now) at (edge_of before.now) (edge_of last.now) (parts_of parts.now))) }
{
    let mut place = end_of(at, before, parts);
    let mut count = quiet(0);
    let mut edge = *last;
    let mut until = parts.len();
    let mut n = parts.len();
    'back: while n > 0 {
        n -= 1;
        let part = &parts[n];
        place = start_of(place, part);
        if cuts(scene, part) {
            let cut = cut_count(scene, place, part)?;
            count = behind_cut(scene, place, part, &parts[n + 1..until], &edge, cut, count)?;
            edge = passing(scene, part);
            until = n;
        }
    }
    let first = passage(scene, at, before, &parts[..until], &edge)?;
    let start = quiet(first);
    Ok(then_count(start, count))
}

/// Statements that other code stands around, which is counted apart.
#[cycle(parted)]
fn alone(scene: &Scene, at: u32, parts: &[Part<'_>]) -> Result<PathCount, AllocError>
    requires scene { IsScene scene.now }
    requires fits { FitsAt at (parts_of parts.now) }
    requires below { BelowFits (scene_in scene.now) (parts_of parts.now) }
    ensures { IfOk result (λ c. AreAlike (count_in c) (alone_in (scene_in scene.now) at (parts_of parts.now))) }
{
    let edge = no_edge();
    parted(scene, at, &edge, parts, &edge)
}

/// The code of a function.
pub fn parted_function(
    scene: &Scene,
    at: u32,
    outline: &Outline<'_>,
) -> Result<PathCount, AllocError>
    requires scene { IsScene scene.now }
    requires place { at + size_of (pieces_of outline.now.entry.now) + size_of (code_of (parts_of (items_of outline.now.body))) + size_of (pieces_of outline.now.leaving.now) < 2 ^ 32 }
    requires fits { FitsAt (at + size_of (pieces_of outline.now.entry.now)) (parts_of (items_of outline.now.body)) }
    requires below { BelowFits (scene_in scene.now) (parts_of (items_of outline.now.body)) }
    ensures { IfOk result (λ c. AreAlike (count_in c) (function_parted (scene_in scene.now) at outline.now)) }
{
    let before = Edge {
        pieces: outline.entry,
        names: outline.entry_names.items(),
        below: None,
    };
    let last = Edge {
        pieces: outline.leaving,
        names: outline.leaving_names.items(),
        below: None,
    };
    parted(scene, at, &before, outline.body.items(), &last)
}
