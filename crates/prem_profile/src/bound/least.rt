// The bills of statements without marked calls: as one scope, or one by one.
ghost use Rattle.std.specs.Prelude.{◌≡◌, ◌+◌, ◌<◌, ◌^◌, ◌++◌, ◌∷◌, [], drop, length, take, IfOk, OnOk};
ghost use Rattle.prem_list.specs.Sequence.{items_of};
ghost use Rattle.prem_asm.specs.Pieces.{size_of};
ghost use Rattle.prem_asm.specs.PiecesOf.{pieces_of};
ghost use Rattle.prem_layout.specs.Bounds.{line_cost};
ghost use Rattle.prem_wcet.specs.Fitting.{FitsAt};
ghost use Rattle.prem_wcet.specs.Outlines.{code_of, first_place, inner_place, second_place, span_in};
ghost use Rattle.prem_wcet.specs.PartsOf.{part_of, parts_of};
ghost use Rattle.prem_wcet.specs.SceneOf.{IsScene, scene_in};
ghost use Rattle.prem_profile.specs.Bound.Bills.{cheaper};
ghost use Rattle.prem_profile.specs.Bound.Scopes.{own_bill, own_jump_item, own_test_item, scope_bill};
ghost use Rattle.prem_profile.specs.Bound.Statements.{apart_bill, called_bill, choice_bill, head_end, inner_end, least_bill, over_place, turns_bill};
ghost use Rattle.prem_profile.specs.declared.bound.pieces.Costing.TheVariants.{Rule};
ghost use Rattle.prem_profile.specs.Bound.Priced.{IsPriced};
ghost use Rattle.prem_profile.specs.Bound.Memory.{EndsAt, calls_of, divided_bill, function_least_bill};

use crate::bound::bill::{Item, append, append_times, dearer};
use crate::bound::pieces::{Costing, Prices, push_jump, push_pieces, push_skips, push_test};
use crate::bound::scope::scope_or;
use prem_asm::{BranchOp, Piece, Test, size};
use prem_bounds::line_cost;
use prem_wcet::least::{
    behind_code, first_place, function_ranges, inner_place, next_statement_place, second_place,
};
use prem_wcet::outline::{Outline, Part};
use prem_wcet::scene::{Scene, is_marked, ranges_of};
use prem_wcet::scope::parts_size;
use std::alloc::AllocError;

/// What a call of a function is billed that isn't a marked one: where no marked call is in it, and where one is.
#[derive(Drop)]
pub struct CallItems {
    pub least: Vec<Item>,
    pub parted: Vec<Item>,
}

// ---- by the rule

/// What instructions cost by the rule.
pub fn rule_of(scene: &Scene) -> Costing<'static>
    requires { IsScene scene.now }
    ensures rule { result ≡ Rule (line_cost scene.now.plant.now) }
    ensures priced { IsPriced result }
{
    Costing::Rule(line_cost(scene.plant))
}

/// Puts code that calls nothing behind a bill.
pub fn push_own(
    scene: &Scene,
    bill: &mut Vec<Item>,
    at: u32,
    pieces: &[Piece],
) -> Result<(), AllocError>
    requires scene { IsScene scene.now }
    requires place { at + size_of (pieces_of pieces.now) < 2 ^ 32 }
    ensures { OnOk result (bill.new.items ≡ bill.old.items ++ own_bill (scene_in scene.now) at (pieces_of pieces.now)) }
{
    let prices = Prices {
        costing: rule_of(scene),
        count: 0,
        cycles: &[],
    };
    push_pieces(scene.alloc, bill, pieces, at, &prices)?;
    Ok(())
}

/// Puts a jump behind a bill.
pub fn push_own_jump(scene: &Scene, bill: &mut Vec<Item>, at: u32) -> Result<(), AllocError>
    requires { IsScene scene.now }
    ensures { OnOk result (bill.new.items ≡ bill.old.items ++ own_jump_item (scene_in scene.now) at ∷ []) }
{
    let rule = rule_of(scene);
    push_jump(bill, at, &rule)
}

/// Puts the test of a choice or of a loop behind a bill.
fn push_own_test(scene: &Scene, bill: &mut Vec<Item>, at: u32) -> Result<(), AllocError>
    requires { IsScene scene.now }
    ensures { OnOk result (bill.new.items ≡ bill.old.items ++ own_test_item (scene_in scene.now) at ∷ []) }
{
    let test = Test {
        op: BranchOp::Bne,
        rs1: 10,
        rs2: 0,
    };
    let rule = rule_of(scene);
    push_test(bill, at, test, &rule)
}

/// The bill of a function's least charge, where it isn't a marked one.
fn called_items<'k>(scene: &Scene, known: &'k [CallItems], f: usize) -> &'k [Item]
    requires { IsScene scene.now }
    ensures { result.now ≡ called_bill (scene_in scene.now) (calls_of known.now) f }
{
    if is_marked(scene, f) {
        return &[];
    }
    match known.get(f) {
        Some(call) => &call.least,
        None => &[],
    }
}

/// The other side of a choice behind the jump to it.
fn jumped_to(scene: &Scene, at: u32, other: &[Item]) -> Result<Vec<Item>, AllocError>
    requires { IsScene scene.now }
    ensures { IfOk result (λ bill. bill.items ≡ own_jump_item (scene_in scene.now) at ∷ other.now) }
{
    let mut bill = Vec::new(scene.alloc);
    push_own_jump(scene, &mut bill, at)?;
    append(&mut bill, other)?;
    Ok(bill)
}

/// Puts a choice behind a bill whose test stands at a place, with the bills of its sides, and so many jumps over the other side.
pub fn push_choice(
    scene: &Scene,
    bill: &mut Vec<Item>,
    at: u32,
    skip_at: u32,
    skips: u32,
    taken: Vec<Item>,
    other: &[Item],
) -> Result<(), AllocError>
    requires scene { IsScene scene.now }
    requires place { at + 4 < 2 ^ 32 }
    ensures { OnOk result (bill.new.items ≡ bill.old.items ++ choice_bill (scene_in scene.now) at skip_at skips taken.items other.now) }
{
    let mut first = taken;
    let rule = rule_of(scene);
    push_skips(scene.alloc, &mut first, skips, skip_at, &rule)?;
    let second = jumped_to(scene, at + 4, other)?;
    push_own_test(scene, bill, at)?;
    append(bill, &dearer(first, second))
}

/// A turn of a loop whose test stands at a place.
fn one_turn(
    scene: &Scene,
    at: u32,
    back_at: u32,
    head: &[Item],
    body: &[Item],
) -> Result<Vec<Item>, AllocError>
    requires { IsScene scene.now }
    ensures { IfOk result (λ turn. turn.items ≡ head.now ++ (own_test_item (scene_in scene.now) at ∷ (body.now ++ own_jump_item (scene_in scene.now) back_at ∷ []))) }
{
    let mut turn = Vec::new(scene.alloc);
    append(&mut turn, head)?;
    push_own_test(scene, &mut turn, at)?;
    append(&mut turn, body)?;
    push_own_jump(scene, &mut turn, back_at)?;
    Ok(turn)
}

/// Puts a loop behind a bill whose test stands at a place, with the bills of its head and of its body.
pub fn push_turns(
    scene: &Scene,
    bill: &mut Vec<Item>,
    at: u32,
    back_at: u32,
    turns: u32,
    head: &[Item],
    body: &[Item],
) -> Result<(), AllocError>
    requires scene { IsScene scene.now }
    requires place { at + 4 < 2 ^ 32 }
    ensures { OnOk result (bill.new.items ≡ bill.old.items ++ turns_bill (scene_in scene.now) at back_at turns head.now body.now) }
{
    let turn = one_turn(scene, at, back_at, head, body)?;
    append_times(bill, turns, &turn)?;
    append(bill, head)?;
    push_own_test(scene, bill, at)?;
    push_own_jump(scene, bill, at + 4)
}

/// The bill of code that calls nothing.
pub fn own_items(scene: &Scene, at: u32, pieces: &[Piece]) -> Result<Vec<Item>, AllocError>
    requires scene { IsScene scene.now }
    requires place { at + size_of (pieces_of pieces.now) < 2 ^ 32 }
    ensures { IfOk result (λ bill. bill.items ≡ own_bill (scene_in scene.now) at (pieces_of pieces.now)) }
{
    let mut bill = Vec::new(scene.alloc);
    push_own(scene, &mut bill, at, pieces)?;
    Ok(bill)
}

/// The bill of other items between code that calls nothing: before them at a place, and behind them at another one.
pub fn around(
    scene: &Scene,
    at: u32,
    before: &[Piece],
    inside: &[Item],
    end: u32,
    behind: &[Piece],
) -> Result<Vec<Item>, AllocError>
    requires scene { IsScene scene.now }
    requires place { at + size_of (pieces_of before.now) < 2 ^ 32 }
    requires behind { end + size_of (pieces_of behind.now) < 2 ^ 32 }
    ensures { IfOk result (λ bill. bill.items ≡ own_bill (scene_in scene.now) at (pieces_of before.now) ++ (inside.now ++ own_bill (scene_in scene.now) end (pieces_of behind.now))) }
{
    let mut bill = own_items(scene, at, before)?;
    append(&mut bill, inside)?;
    push_own(scene, &mut bill, end, behind)?;
    Ok(bill)
}

// ---- statements

/// A call by its parts.
fn by_call(
    scene: &Scene,
    known: &[CallItems],
    at: u32,
    arguments: &[Piece],
    callee: usize,
    landing: &[Piece],
) -> Result<Vec<Item>, AllocError>
    requires scene { IsScene scene.now }
    requires place { at + size_of (pieces_of arguments.now) + 4 + size_of (pieces_of landing.now) < 2 ^ 32 }
    ensures { IfOk result (λ bill. bill.items ≡ own_bill (scene_in scene.now) at (pieces_of arguments.now) ++ (own_jump_item (scene_in scene.now) (at + size_of (pieces_of arguments.now))
        ∷ (called_bill (scene_in scene.now) (calls_of known.now) callee ++ own_bill (scene_in scene.now) (at + size_of (pieces_of arguments.now) + 4) (pieces_of landing.now)))) }
{
    let jump = behind_code(at, arguments);
    let mut bill = own_items(scene, at, arguments)?;
    push_own_jump(scene, &mut bill, jump)?;
    append(&mut bill, called_items(scene, known, callee))?;
    push_own(scene, &mut bill, jump + 4, landing)?;
    Ok(bill)
}

/// A choice by its parts.
#[cycle(least)]
fn by_choice(
    scene: &Scene,
    known: &[CallItems],
    at: u32,
    condition: &[Piece],
    skips: u32,
    taken: &[Part<'_>],
    other: &[Part<'_>],
) -> Result<Vec<Item>, AllocError>
    requires scene { IsScene scene.now }
    requires taken { FitsAt (first_place at (pieces_of condition.now)) (parts_of taken.now) }
    requires other { FitsAt (second_place at (pieces_of condition.now) (parts_of taken.now) skips) (parts_of other.now) }
    requires ends { EndsAt (first_place at (pieces_of condition.now)) (parts_of taken.now) }
    requires ends_other { EndsAt (second_place at (pieces_of condition.now) (parts_of taken.now) skips) (parts_of other.now) }
    ensures { IfOk result (λ bill. bill.items ≡ own_bill (scene_in scene.now) at (pieces_of condition.now)
        ++ choice_bill (scene_in scene.now) (at + size_of (pieces_of condition.now)) (over_place at (pieces_of condition.now) (parts_of taken.now)) skips
        (least_bill (scene_in scene.now) (calls_of known.now) (first_place at (pieces_of condition.now)) (parts_of taken.now))
        (least_bill (scene_in scene.now) (calls_of known.now) (second_place at (pieces_of condition.now) (parts_of taken.now) skips) (parts_of other.now))) }
{
    let one = first_place(at, condition);
    let first = least(scene, known, one, taken)?;
    let second = least(
        scene,
        known,
        second_place(at, condition, taken, skips),
        other,
    )?;
    let over = one + parts_size(taken);
    let mut bill = own_items(scene, at, condition)?;
    push_choice(scene, &mut bill, one - 8, over, skips, first, &second)?;
    Ok(bill)
}

/// A loop by its parts.
#[cycle(least)]
fn by_turns(
    scene: &Scene,
    known: &[CallItems],
    at: u32,
    first: &[Piece],
    turns: u32,
    head: &[Piece],
    before: &[Piece],
    body: &[Part<'_>],
    behind: &[Piece],
) -> Result<Vec<Item>, AllocError>
    requires scene { IsScene scene.now }
    requires body { FitsAt (inner_place at (pieces_of first.now) (pieces_of head.now) (pieces_of before.now)) (parts_of body.now) }
    requires ends { EndsAt (inner_place at (pieces_of first.now) (pieces_of head.now) (pieces_of before.now)) (parts_of body.now) }
    requires end { inner_end at (pieces_of first.now) (pieces_of head.now) (pieces_of before.now) (parts_of body.now) + size_of (pieces_of behind.now) < 2 ^ 32 }
    ensures { IfOk result (λ bill. bill.items ≡ own_bill (scene_in scene.now) at (pieces_of first.now)
        ++ turns_bill (scene_in scene.now) (head_end at (pieces_of first.now) (pieces_of head.now))
        (inner_end at (pieces_of first.now) (pieces_of head.now) (pieces_of before.now) (parts_of body.now) + size_of (pieces_of behind.now)) turns
        (own_bill (scene_in scene.now) (at + size_of (pieces_of first.now)) (pieces_of head.now))
        (own_bill (scene_in scene.now) (head_end at (pieces_of first.now) (pieces_of head.now) + 8) (pieces_of before.now)
        ++ (least_bill (scene_in scene.now) (calls_of known.now) (inner_place at (pieces_of first.now) (pieces_of head.now) (pieces_of before.now)) (parts_of body.now)
        ++ own_bill (scene_in scene.now) (inner_end at (pieces_of first.now) (pieces_of head.now) (pieces_of before.now) (parts_of body.now)) (pieces_of behind.now)))) }
{
    let inner = inner_place(at, first, head, before);
    let inside = least(scene, known, inner, body)?;
    let end = inner + parts_size(body);
    let test = behind_code(behind_code(at, first), head);
    let turn = around(scene, test + 8, before, &inside, end, behind)?;
    let top = own_items(scene, behind_code(at, first), head)?;
    let mut bill = own_items(scene, at, first)?;
    push_turns(
        scene,
        &mut bill,
        test,
        behind_code(end, behind),
        turns,
        &top,
        &turn,
    )?;
    Ok(bill)
}

/// A statement by its parts.
#[cycle(least)]
fn by_parts(
    scene: &Scene,
    known: &[CallItems],
    at: u32,
    part: &Part<'_>,
) -> Result<Vec<Item>, AllocError>
    requires scene { IsScene scene.now }
    requires fits { FitsAt at (part_of part.now) }
    requires ends { EndsAt at (part_of part.now) }
    ensures { IfOk result (λ bill. bill.items ≡ divided_bill (scene_in scene.now) (calls_of known.now) at (part_of part.now)) }
{
    match part {
        Part::Plain { code, .. } => own_items(scene, at, code),
        Part::Calling {
            arguments,
            callee,
            landing,
            ..
        } => by_call(scene, known, at, arguments, *callee, landing),
        Part::Choice {
            condition,
            skips,
            taken,
            other,
            ..
        } => by_choice(
            scene,
            known,
            at,
            condition,
            *skips,
            taken.items(),
            other.items(),
        ),
        Part::Turning {
            first,
            turns,
            head,
            before,
            body,
            behind,
            ..
        } => by_turns(
            scene,
            known,
            at,
            first,
            *turns,
            head,
            before,
            body.items(),
            behind,
        ),
    }
}

/// Statements as one scope, or another bill, whichever is cheaper.
fn parts_or(
    scene: &Scene,
    at: u32,
    parts: &[Part<'_>],
    divided: Vec<Item>,
) -> Result<Vec<Item>, AllocError>
    requires scene { IsScene scene.now }
    requires place { at + size_of (code_of (parts_of parts.now)) < 2 ^ 32 }
    ensures { IfOk result (λ bill. bill.items ≡ cheaper (scope_bill (scene_in scene.now) at (span_in (parts_of parts.now))) divided.items) }
{
    let ranges = ranges_of(scene, (at, at + parts_size(parts)), parts)?;
    scope_or(scene, at, &[], parts, &[], &ranges, divided)
}

/// The statement of this number as one scope, or another bill.
fn one_or(
    scene: &Scene,
    at: u32,
    parts: &[Part<'_>],
    n: usize,
    divided: Vec<Item>,
) -> Result<Vec<Item>, AllocError>
    requires scene { IsScene scene.now }
    requires inside { n < length parts.now }
    requires place { at + size_of (code_of (parts_of (take 1 (drop n parts.now)))) < 2 ^ 32 }
    ensures { IfOk result (λ bill. bill.items ≡ cheaper (scope_bill (scene_in scene.now) at (span_in (parts_of (take 1 (drop n parts.now))))) divided.items) }
{
    parts_or(scene, at, &parts[n..n + 1], divided)
}

/// Statements one by one, each as one scope or by its parts.
#[cycle(least)]
fn apart(
    scene: &Scene,
    known: &[CallItems],
    at: u32,
    parts: &[Part<'_>],
) -> Result<Vec<Item>, AllocError>
    requires scene { IsScene scene.now }
    requires fits { FitsAt at (parts_of parts.now) }
    requires ends { EndsAt at (parts_of parts.now) }
    ensures { IfOk result (λ bill. bill.items ≡ apart_bill (scene_in scene.now) (calls_of known.now) at (parts_of parts.now)) }
{
    let mut bill = Vec::new(scene.alloc);
    let mut place = at;
    for n in 0..parts.len() {
        let divided = by_parts(scene, known, place, &parts[n])?;
        let one = one_or(scene, place, parts, n, divided)?;
        append(&mut bill, &one)?;
        place = next_statement_place(place, &parts[n]);
    }
    Ok(bill)
}

/// Statements as one scope, or one by one.
#[cycle(least)]
pub fn least(
    scene: &Scene,
    known: &[CallItems],
    at: u32,
    parts: &[Part<'_>],
) -> Result<Vec<Item>, AllocError>
    requires scene { IsScene scene.now }
    requires fits { FitsAt at (parts_of parts.now) }
    requires ends { EndsAt at (parts_of parts.now) }
    ensures { IfOk result (λ bill. bill.items ≡ least_bill (scene_in scene.now) (calls_of known.now) at (parts_of parts.now)) }
{
    let divided = apart(scene, known, at, parts)?;
    parts_or(scene, at, parts, divided)
}

/// The code of a function.
pub fn least_function(
    scene: &Scene,
    known: &[CallItems],
    at: u32,
    code: &[Piece],
    outline: &Outline<'_>,
) -> Result<Vec<Item>, AllocError>
    requires scene { IsScene scene.now }
    requires place { at + size_of (pieces_of code.now) < 2 ^ 32 }
    requires fits { FitsAt (at + size_of (pieces_of outline.now.entry.now)) (parts_of (items_of outline.now.body)) }
    requires turns { EndsAt (at + size_of (pieces_of outline.now.entry.now)) (parts_of (items_of outline.now.body)) }
    requires ends { at + size_of (pieces_of outline.now.entry.now) + size_of (code_of (parts_of (items_of outline.now.body))) + size_of (pieces_of outline.now.leaving.now) < 2 ^ 32 }
    ensures { IfOk result (λ bill. bill.items ≡ function_least_bill (scene_in scene.now) (calls_of known.now) at (pieces_of code.now) outline.now) }
{
    let begin = behind_code(at, outline.entry);
    let body = outline.body.items();
    let inside = least(scene, known, begin, body)?;
    let end = begin + parts_size(body);
    let divided = around(scene, at, outline.entry, &inside, end, outline.leaving)?;
    let ranges = function_ranges(scene, (at, at + size(code) as u32), outline)?;
    scope_or(scene, at, code, &[], &[], &ranges, divided)
}
