// Least charges of statements without marked calls: as one scope, or one by one.
ghost use Rattle.std.specs.Prelude.{◌≡◌, ◌+◌, ◌*◌, ◌<◌, ◌≤◌, ◌^◌, [], ◌∷◌, take, drop, IfOk, length};
ghost use Rattle.prem_list.specs.Sequence.{items_of};
ghost use Rattle.prem_asm.specs.Pieces.{size_of};
ghost use Rattle.prem_asm.specs.PiecesOf.{pieces_of};
ghost use Rattle.prem_layout.specs.Template.Terms.{nonzero};
ghost use Rattle.prem_bounds.specs.Scale.{clipped};
ghost use Rattle.prem_wcet_laws.specs.Scopes.{charge, fact_of};
ghost use Rattle.prem_wcet_laws.specs.Least.{called_least, own, own_jump, own_turns};
ghost use Rattle.prem_wcet.specs.Fitting.{FitsAt, divided_in};
ghost use Rattle.prem_wcet.specs.Functions.{function_least, function_span_in};
ghost use Rattle.prem_wcet.specs.Once.{with_code, with_names, with_touched};
ghost use Rattle.prem_wcet.specs.Outlines.{apart_in, choice_by, code_of, first_place, inner_place, least_in, second_place, span_in};
ghost use Rattle.prem_wcet.specs.PartsOf.{part_code, part_of, parts_of};
ghost use Rattle.prem_wcet.specs.SceneOf.{IsScene, scene_in};

use crate::outline::{Outline, Part};
use crate::scene::{Ranges, Scene, is_marked, ranges_of, with_edge};
use crate::scope::{charge, charge_with, parts_size};
use prem_asm::{Piece, size};
use prem_bounds::scale::{plus, times};
use prem_bounds::weights::{jump_weight, weight_in};
use std::alloc::AllocError;

/// The rule's weight of code that calls nothing.
pub fn own(scene: &Scene, pieces: &[Piece]) -> u64
    requires { IsScene scene.now }
    ensures { result ≡ clipped (own (scene_in scene.now) (pieces_of pieces.now)) }
{
    weight_in(pieces, scene.rule)
}

/// The rule's weight of a jump, or of a branch.
pub fn own_jump(scene: &Scene) -> u64
    requires { IsScene scene.now }
    ensures jump { result ≡ own_jump (scene_in scene.now) }
    ensures small { result ≤ 2 ^ 41 }
{
    jump_weight(scene.rule)
}

/// A choice by the rule, with what its sides count.
fn own_choice(scene: &Scene, skips: u32, taken: u64, other: u64) -> u64
    requires { IsScene scene.now }
    ensures { result ≡ clipped (choice_by (scene_in scene.now) skips taken other) }
{
    let jump = own_jump(scene);
    let first = plus(taken, times(skips, jump));
    plus(jump, first.max(plus(jump, other)))
}

/// A loop by the rule, with what a turn of its head and its body count.
fn own_turns(scene: &Scene, turns: u32, head: u64, body: u64) -> u64
    requires { IsScene scene.now }
    ensures { result ≡ clipped (own_turns (scene_in scene.now) turns (nonzero 10) head body) }
{
    let jump = own_jump(scene);
    let start = plus(head, jump);
    let turn = plus(plus(start, body), jump);
    plus(times(turns, turn), plus(start, jump))
}

/// What a call counts of a function that isn't marked.
pub fn fact_least(scene: &Scene, f: usize) -> u64
    requires { IsScene scene.now }
    ensures { result ≡ (fact_of (scene_in scene.now) f).least }
{
    match scene.facts.get(f) {
        Some(fact) => fact.least,
        None => 0,
    }
}

/// What a call counts, where it isn't a marked one.
fn called_least(scene: &Scene, f: usize) -> u64
    requires { IsScene scene.now }
    ensures { result ≡ called_least (scene_in scene.now) f }
{
    if is_marked(scene, f) {
        0
    } else {
        fact_least(scene, f)
    }
}

/// Where the first side of a choice stands behind its condition.
pub fn first_place(at: u32, condition: &[Piece]) -> u32
    requires { first_place at (pieces_of condition.now) < 2 ^ 32 }
    ensures { result ≡ first_place at (pieces_of condition.now) }
{
    at + size(condition) as u32 + 8
}

/// Where its other side stands.
pub fn second_place(at: u32, condition: &[Piece], taken: &[Part<'_>], skips: u32) -> u32
    requires { second_place at (pieces_of condition.now) (parts_of taken.now) skips < 2 ^ 32 }
    ensures { result ≡ second_place at (pieces_of condition.now) (parts_of taken.now) skips }
{
    first_place(at, condition) + parts_size(taken) + 4 * skips
}

/// Where the statements of a loop's body stand.
pub fn inner_place(at: u32, first: &[Piece], head: &[Piece], before: &[Piece]) -> u32
    requires { inner_place at (pieces_of first.now) (pieces_of head.now) (pieces_of before.now) < 2 ^ 32 }
    ensures { result ≡ inner_place at (pieces_of first.now) (pieces_of head.now) (pieces_of before.now) }
{
    at + size(first) as u32 + size(head) as u32 + 8 + size(before) as u32
}

/// Where code stands that follows other code.
pub fn behind_code(at: u32, code: &[Piece]) -> u32
    requires { at + size_of (pieces_of code.now) < 2 ^ 32 }
    ensures { result ≡ at + size_of (pieces_of code.now) }
{
    at + size(code) as u32
}

/// Where the next statement stands.
pub fn next_statement_place(at: u32, part: &Part<'_>) -> u32
    requires { at + size_of (part_code part.now) < 2 ^ 32 }
    ensures { result ≡ at + size_of (part_code part.now) }
{
    at + size(part.code()) as u32
}

/// A call by its parts.
fn by_call(scene: &Scene, arguments: &[Piece], callee: usize, landing: &[Piece]) -> u64
    requires { IsScene scene.now }
    ensures { result ≡ clipped (own (scene_in scene.now) (pieces_of arguments.now) + own_jump (scene_in scene.now) + called_least (scene_in scene.now) callee + own (scene_in scene.now) (pieces_of landing.now)) }
{
    let before = plus(own(scene, arguments), own_jump(scene));
    let called = plus(before, called_least(scene, callee));
    plus(called, own(scene, landing))
}

/// A choice by its parts.
#[cycle(least)]
fn by_choice(
    scene: &Scene,
    at: u32,
    condition: &[Piece],
    skips: u32,
    taken: &[Part<'_>],
    other: &[Part<'_>],
) -> Result<u64, AllocError>
    requires scene { IsScene scene.now }
    requires taken { FitsAt (first_place at (pieces_of condition.now)) (parts_of taken.now) }
    requires other { FitsAt (second_place at (pieces_of condition.now) (parts_of taken.now) skips) (parts_of other.now) }
    ensures { IfOk result (λ n. n ≡ clipped (own (scene_in scene.now) (pieces_of condition.now) + choice_by (scene_in scene.now) skips
        (least_in (scene_in scene.now) (first_place at (pieces_of condition.now)) (parts_of taken.now))
        (least_in (scene_in scene.now) (second_place at (pieces_of condition.now) (parts_of taken.now) skips) (parts_of other.now)))) }
{
    let first = least(scene, first_place(at, condition), taken)?;
    let second = least(scene, second_place(at, condition, taken, skips), other)?;
    Ok(plus(
        own(scene, condition),
        own_choice(scene, skips, first, second),
    ))
}

/// A loop by its parts.
#[cycle(least)]
fn by_turns(
    scene: &Scene,
    at: u32,
    first: &[Piece],
    turns: u32,
    head: &[Piece],
    before: &[Piece],
    body: &[Part<'_>],
    behind: &[Piece],
) -> Result<u64, AllocError>
    requires scene { IsScene scene.now }
    requires body { FitsAt (inner_place at (pieces_of first.now) (pieces_of head.now) (pieces_of before.now)) (parts_of body.now) }
    ensures { IfOk result (λ n. n ≡ clipped (own (scene_in scene.now) (pieces_of first.now) + own_turns (scene_in scene.now) turns (nonzero 10) (own (scene_in scene.now) (pieces_of head.now))
        (own (scene_in scene.now) (pieces_of before.now) + least_in (scene_in scene.now) (inner_place at (pieces_of first.now) (pieces_of head.now) (pieces_of before.now)) (parts_of body.now)
        + own (scene_in scene.now) (pieces_of behind.now)))) }
{
    let inside = least(scene, inner_place(at, first, head, before), body)?;
    let start = own(scene, before);
    let last = own(scene, behind);
    let most = plus(start, inside);
    let turn = plus(most, last);
    let top = own(scene, head);
    let all = own_turns(scene, turns, top, turn);
    let entry = own(scene, first);
    Ok(plus(entry, all))
}

/// A statement by its parts.
#[cycle(least)]
fn by_parts(scene: &Scene, at: u32, part: &Part<'_>) -> Result<u64, AllocError>
    requires scene { IsScene scene.now }
    requires fits { FitsAt at (part_of part.now) }
    ensures { IfOk result (λ n. n ≡ clipped (divided_in (scene_in scene.now) at (part_of part.now))) }
{
    match part {
        Part::Plain { code, .. } => Ok(own(scene, code)),
        Part::Calling {
            arguments,
            callee,
            landing,
            ..
        } => Ok(by_call(scene, arguments, *callee, landing)),
        Part::Choice {
            condition,
            skips,
            taken,
            other,
            ..
        } => by_choice(scene, at, condition, *skips, taken.items(), other.items()),
        Part::Turning {
            first,
            turns,
            head,
            before,
            body,
            behind,
            ..
        } => by_turns(scene, at, first, *turns, head, before, body.items(), behind),
    }
}

/// The statement of this number as one scope.
fn charge_one(scene: &Scene, at: u32, parts: &[Part<'_>], n: usize) -> Result<u64, AllocError>
    requires scene { IsScene scene.now }
    requires inside { n < length parts.now }
    requires place { at + size_of (code_of (parts_of (take 1 (drop n parts.now)))) < 2 ^ 32 }
    ensures { IfOk result (λ k. k ≡ clipped (charge (scene_in scene.now) at (span_in (parts_of (take 1 (drop n parts.now)))))) }
{
    charge(scene, at, &parts[n..n + 1])
}

/// Statements one by one, each as one scope or by its parts.
#[cycle(least)]
fn apart(scene: &Scene, at: u32, parts: &[Part<'_>]) -> Result<u64, AllocError>
    requires scene { IsScene scene.now }
    requires fits { FitsAt at (parts_of parts.now) }
    ensures { IfOk result (λ n. n ≡ clipped (apart_in (scene_in scene.now) at (parts_of parts.now))) }
{
    let mut sum = 0;
    let mut place = at;
    for n in 0..parts.len() {
        let whole = charge_one(scene, place, parts, n)?;
        let divided = by_parts(scene, place, &parts[n])?;
        sum = plus(sum, whole.min(divided));
        place = next_statement_place(place, &parts[n]);
    }
    Ok(sum)
}

/// Statements as one scope, or one by one.
#[cycle(least)]
pub fn least(scene: &Scene, at: u32, parts: &[Part<'_>]) -> Result<u64, AllocError>
    requires scene { IsScene scene.now }
    requires fits { FitsAt at (parts_of parts.now) }
    ensures { IfOk result (λ n. n ≡ clipped (least_in (scene_in scene.now) at (parts_of parts.now))) }
{
    let whole = charge(scene, at, parts)?;
    let divided = apart(scene, at, parts)?;
    Ok(whole.min(divided))
}

/// What the code of a function touches, its result and its return aside.
fn entry_ranges(scene: &Scene, own: (u32, u32), outline: &Outline<'_>) -> Result<Ranges, AllocError>
    requires { IsScene scene.now }
    ensures code { IfOk result (λ ranges. ranges.code.items ≡ with_code (scene_in scene.now) (own ∷ []) (parts_of (items_of outline.now.body))) }
    ensures touched { IfOk result (λ ranges. ranges.touched.items ≡ with_names (scene_in scene.now) (with_touched (scene_in scene.now) (scene.now.stack ∷ []) (parts_of (items_of outline.now.body))) (items_of outline.now.entry_names)) }
{
    let mut ranges = ranges_of(scene, own, outline.body.items())?;
    with_edge(scene, &mut ranges, outline.entry_names.items(), None)?;
    Ok(ranges)
}

/// What it touches in all.
pub fn function_ranges(
    scene: &Scene,
    own: (u32, u32),
    outline: &Outline<'_>,
) -> Result<Ranges, AllocError>
    requires { IsScene scene.now }
    ensures code { IfOk result (λ ranges. ranges.code.items ≡ with_code (scene_in scene.now) (own ∷ []) (parts_of (items_of outline.now.body))) }
    ensures touched { IfOk result (λ ranges. ranges.touched.items ≡ with_names (scene_in scene.now) (with_names (scene_in scene.now) (with_touched (scene_in scene.now) (scene.now.stack ∷ []) (parts_of (items_of outline.now.body))) (items_of outline.now.entry_names)) (items_of outline.now.leaving_names)) }
{
    let mut ranges = entry_ranges(scene, own, outline)?;
    with_edge(scene, &mut ranges, outline.leaving_names.items(), None)?;
    Ok(ranges)
}

/// The code of a function as one scope.
fn charge_function(
    scene: &Scene,
    at: u32,
    code: &[Piece],
    outline: &Outline<'_>,
) -> Result<u64, AllocError>
    requires scene { IsScene scene.now }
    requires place { at + size_of (pieces_of code.now) < 2 ^ 32 }
    ensures { IfOk result (λ n. n ≡ clipped (charge (scene_in scene.now) at (function_span_in (pieces_of code.now) outline.now))) }
{
    let ranges = function_ranges(scene, (at, at + size(code) as u32), outline)?;
    charge_with(scene, at, code, &[], &[], ranges)
}

/// The code of a function.
pub fn least_function(
    scene: &Scene,
    at: u32,
    code: &[Piece],
    outline: &Outline<'_>,
) -> Result<u64, AllocError>
    requires scene { IsScene scene.now }
    requires place { at + size_of (pieces_of code.now) < 2 ^ 32 }
    requires fits { FitsAt (at + size_of (pieces_of outline.now.entry.now)) (parts_of (items_of outline.now.body)) }
    ensures { IfOk result (λ n. n ≡ clipped (function_least (scene_in scene.now) at (pieces_of code.now) outline.now)) }
{
    let whole = charge_function(scene, at, code, outline)?;
    let inside = least(scene, behind_code(at, outline.entry), outline.body.items())?;
    let entry = own(scene, outline.entry);
    let leaving = own(scene, outline.leaving);
    let around = plus(entry, leaving);
    let divided = plus(around, inside);
    Ok(whole.min(divided))
}
