// The bills of statements with marked calls: each passage between two of these is the cheaper of one scope and its parts.
ghost use Rattle.std.specs.Prelude.{◌≡◌, ◌+◌, ◌-◌, ◌<◌, ◌≤◌, ◌^◌, ◌++◌, ◌∷◌, [], length, Some, IfOk, OnOk};
ghost use Rattle.prem_list.specs.Sequence.{items_of};
ghost use Rattle.prem_asm.specs.Pieces.{size_of};
ghost use Rattle.prem_asm.specs.PiecesOf.{pieces_of};
ghost use Rattle.prem_layout.specs.Footprint.{place_at};
ghost use Rattle.prem_layout.specs.Parts.{stub_part};
ghost use Rattle.prem_wcet.specs.EdgesOf.{BelowFits, edge_of, landing_edge, landing_place};
ghost use Rattle.prem_wcet.specs.Fitting.{FitsAt};
ghost use Rattle.prem_wcet.specs.Once.{with_code, with_names, with_some, with_touched};
ghost use Rattle.prem_wcet.specs.Outlines.{between, code_of, first_place, inner_place, second_place};
ghost use Rattle.prem_wcet.specs.PartsOf.{part_of, parts_of};
ghost use Rattle.prem_wcet.specs.SceneOf.{IsScene, plan_stating, scene_in};
ghost use Rattle.prem_profile.specs.Bound.Scopes.{own_bill, own_jump_item};
ghost use Rattle.prem_profile.specs.Bound.Statements.{call_at, choice_bill, head_end, inner_end, over_place, turns_bill};
ghost use Rattle.prem_profile.specs.Bound.Passages.{cut_bill, cycles_item, marked_call, parted_bill, passage_bill, switch_item};
ghost use Rattle.prem_profile.specs.Bound.Priced.{bills_in};
ghost use Rattle.prem_profile.specs.Bound.Memory.{EndsAt, alone_bill, calls_of, cut_part_bill, from_last, function_parted_bill, marked_faces, marked_in, stubs_in};

use crate::bound::bill::{Item, Spot, append, push_item};
use crate::bound::least::{
    CallItems, around, least, own_items, push_choice, push_own_jump, push_turns, rule_of,
};
use crate::bound::pieces::push_instr;
use crate::bound::scope::scope_or;
use crate::cost::Cost;
use prem_asm::{Instr, Piece, size};
use prem_plant::{Plant, TaskId};
use prem_wcet::least::{behind_code, first_place, inner_place, second_place};
use prem_wcet::outline::{Outline, Part};
use prem_wcet::parted::{
    Edge, end_of, landing, landing_place, no_edge, passing, start_of, stated_of,
};
use prem_wcet::scene::{Face, Ranges, Scene, cuts, ranges_of, with_edge};
use prem_wcet::scope::parts_size;
use std::alloc::AllocError;

// ---- passages

/// What a passage may touch.
fn passage_ranges(
    scene: &Scene,
    at: u32,
    before: &Edge<'_>,
    parts: &[Part<'_>],
    last: &Edge<'_>,
) -> Result<Ranges, AllocError>
    requires scene { IsScene scene.now }
    requires place { at + size_of (between (edge_of before.now) (parts_of parts.now) (edge_of last.now)).pieces < 2 ^ 32 }
    ensures code { IfOk result (λ ranges. ranges.code.items ≡ with_code (scene_in scene.now) ((at, at + size_of (between (edge_of before.now) (parts_of parts.now) (edge_of last.now)).pieces) ∷ []) (parts_of parts.now)) }
    ensures touched { IfOk result (λ ranges. ranges.touched.items ≡ with_some (with_names (scene_in scene.now) (with_some (with_names (scene_in scene.now) (with_touched (scene_in scene.now) (scene.now.stack ∷ []) (parts_of parts.now))
        before.now.names.now) before.now.below) last.now.names.now) last.now.below) }
{
    let first = size(before.pieces) as u32;
    let inner = parts_size(parts);
    let end = at + first + inner + size(last.pieces) as u32;
    let mut ranges = ranges_of(scene, (at, end), parts)?;
    with_edge(scene, &mut ranges, before.names, before.below)?;
    with_edge(scene, &mut ranges, last.names, last.below)?;
    Ok(ranges)
}

/// Statements without marked calls between two edges, of which the first one begins at a place.
fn passage(
    scene: &Scene,
    known: &[CallItems],
    at: u32,
    before: &Edge<'_>,
    parts: &[Part<'_>],
    last: &Edge<'_>,
) -> Result<Vec<Item>, AllocError>
    requires scene { IsScene scene.now }
    requires place { at + size_of (between (edge_of before.now) (parts_of parts.now) (edge_of last.now)).pieces < 2 ^ 32 }
    requires fits { FitsAt (at + size_of (pieces_of before.now.pieces.now)) (parts_of parts.now) }
    requires ends { EndsAt (at + size_of (pieces_of before.now.pieces.now)) (parts_of parts.now) }
    ensures { IfOk result (λ bill. bill.items ≡ passage_bill (scene_in scene.now) (calls_of known.now) at (edge_of before.now) (parts_of parts.now) (edge_of last.now)) }
{
    let begin = behind_code(at, before.pieces);
    let inside = least(scene, known, begin, parts)?;
    let end = begin + parts_size(parts);
    let divided = around(scene, at, before.pieces, &inside, end, last.pieces)?;
    let ranges = passage_ranges(scene, at, before, parts, last)?;
    scope_or(
        scene,
        at,
        before.pieces,
        parts,
        last.pieces,
        &ranges,
        divided,
    )
}

// ---- marked calls

/// Puts cycles in which no instruction is counted behind a bill.
fn push_cycles(bill: &mut Vec<Item>, spot: Spot, cycles: u64) -> Result<(), AllocError>
    ensures { OnOk result (bill.new.items ≡ bill.old.items ++ cycles_item spot cycles ∷ []) }
{
    let cost = Cost {
        instructions: 0,
        cycles,
        misses: 0,
        backs: 0,
    };
    push_item(bill, spot, cost)
}

/// Puts one switch to a task behind a bill.
pub fn push_switch(bill: &mut Vec<Item>, plant: &Plant, task: TaskId) -> Result<(), AllocError>
    ensures { OnOk result (bill.new.items ≡ bill.old.items ++ switch_item plant.now task ∷ []) }
{
    push_cycles(bill, Spot::Switch(task), u64::from(plant.switch))
}

/// Puts a marked call of such a length behind a bill, whose stub stands at a place.
fn push_marked(
    scene: &Scene,
    bill: &mut Vec<Item>,
    task: TaskId,
    at: u32,
    stated: u32,
) -> Result<(), AllocError>
    requires { IsScene scene.now }
    ensures { OnOk result (bill.new.items ≡ bill.old.items ++ marked_call scene.now.plant.now task at (plan_stating (record { frame = 0; stated = Some stated }))) }
{
    let rule = rule_of(scene);
    let back = Instr::Jalr {
        rd: 0,
        rs1: 4,
        offset: 0,
    };
    push_instr(bill, at, &Instr::PmMem, &rule)?;
    push_switch(bill, scene.plant, task)?;
    push_cycles(bill, Spot::At(at), u64::from(stated))?;
    push_switch(bill, scene.plant, task)?;
    push_instr(bill, at, &back, &rule)
}

/// How many functions are marked.
fn marked_in(faces: &[Face]) -> usize
    ensures marked { result ≡ marked_in faces.now }
    ensures few { result ≤ length faces.now }
{
    let mut count = 0;
    'faces: for face in faces {
        if face.stated.is_some() {
            count += 1;
        }
    }
    count
}

/// How many of the first n functions are marked.
#[tactic(auto, using(crate::proofs::BillLemmas::Marked::take_min))]
fn marked_faces(faces: &[Face], n: usize) -> usize
    ensures marked { result ≡ marked_faces faces.now n }
    ensures few { result ≤ length faces.now }
{
    marked_in(&faces[..n.min(faces.len())])
}

/// Where the stub of a function stands, if it is marked.
fn stub_place(scene: &Scene, f: usize) -> u32
    requires { IsScene scene.now }
    ensures { result ≡ (place_at scene.now.places.now (stub_part (length scene.now.code.now) (marked_faces scene.now.faces.now f))).0 }
{
    let part = 1 + scene.code.len() + marked_faces(scene.faces, f);
    scene.places.place(part).0
}

/// The bill of a call that has a marked one in it; nothing where the function isn't known.
fn parted_at(known: &[CallItems], f: usize) -> &[Item]
    ensures { result.now ≡ (call_at (calls_of known.now) f).parted }
{
    match known.get(f) {
        Some(call) => &call.parted,
        None => &[],
    }
}

/// Puts a call in which a marked one is, or which is one, behind a bill.
fn push_cut(
    scene: &Scene,
    known: &[CallItems],
    task: TaskId,
    bill: &mut Vec<Item>,
    f: usize,
) -> Result<(), AllocError>
    requires { IsScene scene.now }
    ensures { OnOk result (bill.new.items ≡ bill.old.items ++ cut_bill (scene_in scene.now) (stubs_in scene.now task) (calls_of known.now) f) }
{
    match stated_of(scene, f) {
        Some(stated) => push_marked(scene, bill, task, stub_place(scene, f), stated),
        None => append(bill, parted_at(known, f)),
    }
}

// ---- statements with marked calls

/// A call that is a marked one or has one in it, from its jump on.
fn cut_call(
    scene: &Scene,
    known: &[CallItems],
    task: TaskId,
    at: u32,
    arguments: &[Piece],
    callee: usize,
) -> Result<Vec<Item>, AllocError>
    requires scene { IsScene scene.now }
    requires place { at + size_of (pieces_of arguments.now) < 2 ^ 32 }
    ensures { IfOk result (λ bill. bill.items ≡ own_jump_item (scene_in scene.now) (at + size_of (pieces_of arguments.now)) ∷ cut_bill (scene_in scene.now) (stubs_in scene.now task) (calls_of known.now) callee) }
{
    let mut bill = Vec::new(scene.alloc);
    push_own_jump(scene, &mut bill, behind_code(at, arguments))?;
    push_cut(scene, known, task, &mut bill, callee)?;
    Ok(bill)
}

/// A choice that has marked calls in it.
#[cycle(parted)]
fn cut_choice(
    scene: &Scene,
    known: &[CallItems],
    task: TaskId,
    at: u32,
    condition: &[Piece],
    skips: u32,
    taken: &[Part<'_>],
    other: &[Part<'_>],
) -> Result<Vec<Item>, AllocError>
    requires scene { IsScene scene.now }
    requires taken { FitsAt (first_place at (pieces_of condition.now)) (parts_of taken.now) }
    requires other { FitsAt (second_place at (pieces_of condition.now) (parts_of taken.now) skips) (parts_of other.now) }
    requires ends { EndsAt (first_place at (pieces_of condition.now)) (parts_of taken.now) }
    requires ends_other { EndsAt (second_place at (pieces_of condition.now) (parts_of taken.now) skips) (parts_of other.now) }
    requires below { BelowFits (scene_in scene.now) (parts_of taken.now) }
    requires below_other { BelowFits (scene_in scene.now) (parts_of other.now) }
    ensures { IfOk result (λ bill. bill.items ≡ own_bill (scene_in scene.now) at (pieces_of condition.now)
        ++ choice_bill (scene_in scene.now) (at + size_of (pieces_of condition.now)) (over_place at (pieces_of condition.now) (parts_of taken.now)) skips
        (alone_bill (scene_in scene.now) (stubs_in scene.now task) (calls_of known.now) (first_place at (pieces_of condition.now)) (parts_of taken.now))
        (alone_bill (scene_in scene.now) (stubs_in scene.now task) (calls_of known.now) (second_place at (pieces_of condition.now) (parts_of taken.now) skips) (parts_of other.now))) }
{
    let one = first_place(at, condition);
    let first = alone(scene, known, task, one, taken)?;
    let two = second_place(at, condition, taken, skips);
    let second = alone(scene, known, task, two, other)?;
    let over = one + parts_size(taken);
    let mut bill = own_items(scene, at, condition)?;
    push_choice(scene, &mut bill, one - 8, over, skips, first, &second)?;
    Ok(bill)
}

/// A loop that has marked calls in it.
#[cycle(parted)]
fn cut_turns(
    scene: &Scene,
    known: &[CallItems],
    task: TaskId,
    at: u32,
    first: &[Piece],
    turns: u32,
    head: &[Piece],
    before: &[Piece],
    body: &[Part<'_>],
    behind: &[Piece],
) -> Result<Vec<Item>, AllocError>
    requires scene { IsScene scene.now }
    requires body { FitsAt (inner_place at (pieces_of first.now) (pieces_of head.now) (pieces_of before.now)) (parts_of body.now) }
    requires ends { EndsAt (inner_place at (pieces_of first.now) (pieces_of head.now) (pieces_of before.now)) (parts_of body.now) }
    requires end { inner_end at (pieces_of first.now) (pieces_of head.now) (pieces_of before.now) (parts_of body.now) + size_of (pieces_of behind.now) < 2 ^ 32 }
    requires below { BelowFits (scene_in scene.now) (parts_of body.now) }
    ensures { IfOk result (λ bill. bill.items ≡ own_bill (scene_in scene.now) at (pieces_of first.now)
        ++ turns_bill (scene_in scene.now) (head_end at (pieces_of first.now) (pieces_of head.now))
        (inner_end at (pieces_of first.now) (pieces_of head.now) (pieces_of before.now) (parts_of body.now) + size_of (pieces_of behind.now)) turns
        (own_bill (scene_in scene.now) (at + size_of (pieces_of first.now)) (pieces_of head.now))
        (own_bill (scene_in scene.now) (head_end at (pieces_of first.now) (pieces_of head.now) + 8) (pieces_of before.now)
        ++ (alone_bill (scene_in scene.now) (stubs_in scene.now task) (calls_of known.now) (inner_place at (pieces_of first.now) (pieces_of head.now) (pieces_of before.now)) (parts_of body.now)
        ++ own_bill (scene_in scene.now) (inner_end at (pieces_of first.now) (pieces_of head.now) (pieces_of before.now) (parts_of body.now)) (pieces_of behind.now)))) }
{
    let inner = inner_place(at, first, head, before);
    let inside = alone(scene, known, task, inner, body)?;
    let end = inner + parts_size(body);
    let test = behind_code(behind_code(at, first), head);
    let turn = around(scene, test + 8, before, &inside, end, behind)?;
    let top = own_items(scene, behind_code(at, first), head)?;
    let mut bill = own_items(scene, at, first)?;
    push_turns(
        scene,
        &mut bill,
        test,
        behind_code(end, behind),
        turns,
        &top,
        &turn,
    )?;
    Ok(bill)
}

/// A statement that has marked calls in it, between the edges of the passages around it.
#[cycle(parted)]
fn cut_part(
    scene: &Scene,
    known: &[CallItems],
    task: TaskId,
    at: u32,
    part: &Part<'_>,
) -> Result<Vec<Item>, AllocError>
    requires scene { IsScene scene.now }
    requires fits { FitsAt at (part_of part.now) }
    requires ends { EndsAt at (part_of part.now) }
    requires below { BelowFits (scene_in scene.now) (part_of part.now) }
    ensures { IfOk result (λ bill. bill.items ≡ cut_part_bill (scene_in scene.now) (stubs_in scene.now task) (calls_of known.now) at (part_of part.now)) }
{
    match part {
        Part::Plain { .. } => Ok(Vec::new(scene.alloc)),
        Part::Calling {
            arguments,
            callee,
            ..
        } => cut_call(scene, known, task, at, arguments, *callee),
        Part::Choice {
            condition,
            skips,
            taken,
            other,
            ..
        } => cut_choice(
            scene,
            known,
            task,
            at,
            condition,
            *skips,
            taken.items(),
            other.items(),
        ),
        Part::Turning {
            first,
            turns,
            head,
            before,
            body,
            behind,
            ..
        } => cut_turns(
            scene,
            known,
            task,
            at,
            first,
            *turns,
            head,
            before,
            body.items(),
            behind,
        ),
    }
}

/// A statement that has marked calls in it, and the passage behind it, up to the next such statement.
fn behind_cut(
    scene: &Scene,
    known: &[CallItems],
    at: u32,
    part: &Part<'_>,
    front: &[Part<'_>],
    edge: &Edge<'_>,
    cut: Vec<Item>,
) -> Result<Vec<Item>, AllocError>
    requires scene { IsScene scene.now }
    requires place { landing_place at (part_of part.now) + size_of (between (landing_edge (part_of part.now)) (parts_of front.now) (edge_of edge.now)).pieces < 2 ^ 32 }
    requires fits { FitsAt (landing_place at (part_of part.now) + size_of (landing_edge (part_of part.now)).pieces) (parts_of front.now) }
    requires ends { EndsAt (landing_place at (part_of part.now) + size_of (landing_edge (part_of part.now)).pieces) (parts_of front.now) }
    ensures { IfOk result (λ bill. bill.items ≡ cut.items
        ++ passage_bill (scene_in scene.now) (calls_of known.now) (landing_place at (part_of part.now)) (landing_edge (part_of part.now)) (parts_of front.now) (edge_of edge.now)) }
{
    let first = landing(part);
    let from = landing_place(at, part);
    let most = passage(scene, known, from, &first, front, edge)?;
    let mut bill = cut;
    append(&mut bill, &most)?;
    Ok(bill)
}

/// Puts bills behind another one, from the last one to the first one.
fn append_back(bill: &mut Vec<Item>, bills: &[Vec<Item>]) -> Result<(), AllocError>
    ensures { OnOk result (bill.new.items ≡ bill.old.items ++ from_last (bills_in bills.now)) }
{
    let mut n = bills.len();
    'back: while n > 0 {
        n -= 1;
        append(bill, &bills[n])?;
    }
    Ok(())
}

/// Statements between two edges, of which the first one begins at a place. They are billed from the last one on: behind a
/// statement that has marked calls in it stands a passage up to the next such one. What is billed there is put together
/// once, so that many such statements take no more than their bills.
#[cycle(parted)]
fn parted<'a>(
    scene: &Scene,
    known: &[CallItems],
    task: TaskId,
    at: u32,
    before: &Edge<'_>,
    parts: &'a [Part<'_>],
    last: &Edge<'a>,
) -> Result<Vec<Item>, AllocError>
    requires scene { IsScene scene.now }
    requires place { at + size_of (between (edge_of before.now) (parts_of parts.now) (edge_of last.now)).pieces < 2 ^ 32 }
    requires fits { FitsAt (at + size_of (pieces_of before.now.pieces.now)) (parts_of parts.now) }
    requires ends { EndsAt (at + size_of (pieces_of before.now.pieces.now)) (parts_of parts.now) }
    requires below { BelowFits (scene_in scene.now) (parts_of parts.now) }
    ensures { IfOk result (λ bill. bill.items ≡ parted_bill (scene_in scene.now) (stubs_in scene.now task) (calls_of known.now) at (edge_of before.now) (edge_of last.now) (parts_of parts.now)) }
{
    let mut place = end_of(at, before, parts);
    let mut behind = Vec::new(scene.alloc);
    let mut edge = *last;
    let mut until = parts.len();
    let mut n = parts.len();
    'back: while n > 0 {
        n -= 1;
        let part = &parts[n];
        place = start_of(place, part);
        if cuts(scene, part) {
            let cut = cut_part(scene, known, task, place, part)?;
            let bill = behind_cut(scene, known, place, part, &parts[n + 1..until], &edge, cut)?;
            behind.push(bill)?;
            edge = passing(scene, part);
            until = n;
        }
    }
    let mut all = passage(scene, known, at, before, &parts[..until], &edge)?;
    append_back(&mut all, &behind)?;
    Ok(all)
}

/// Statements that other code stands around, which is billed apart.
#[cycle(parted)]
fn alone(
    scene: &Scene,
    known: &[CallItems],
    task: TaskId,
    at: u32,
    parts: &[Part<'_>],
) -> Result<Vec<Item>, AllocError>
    requires scene { IsScene scene.now }
    requires fits { FitsAt at (parts_of parts.now) }
    requires ends { EndsAt at (parts_of parts.now) }
    requires below { BelowFits (scene_in scene.now) (parts_of parts.now) }
    ensures { IfOk result (λ bill. bill.items ≡ alone_bill (scene_in scene.now) (stubs_in scene.now task) (calls_of known.now) at (parts_of parts.now)) }
{
    let edge = no_edge();
    parted(scene, known, task, at, &edge, parts, &edge)
}

/// The code of a function.
pub fn parted_function(
    scene: &Scene,
    known: &[CallItems],
    task: TaskId,
    at: u32,
    outline: &Outline<'_>,
) -> Result<Vec<Item>, AllocError>
    requires scene { IsScene scene.now }
    requires place { at + size_of (pieces_of outline.now.entry.now) + size_of (code_of (parts_of (items_of outline.now.body))) + size_of (pieces_of outline.now.leaving.now) < 2 ^ 32 }
    requires fits { FitsAt (at + size_of (pieces_of outline.now.entry.now)) (parts_of (items_of outline.now.body)) }
    requires ends { EndsAt (at + size_of (pieces_of outline.now.entry.now)) (parts_of (items_of outline.now.body)) }
    requires below { BelowFits (scene_in scene.now) (parts_of (items_of outline.now.body)) }
    ensures { IfOk result (λ bill. bill.items ≡ function_parted_bill (scene_in scene.now) (stubs_in scene.now task) (calls_of known.now) at outline.now) }
{
    let before = Edge {
        pieces: outline.entry,
        names: outline.entry_names.items(),
        below: None,
    };
    let last = Edge {
        pieces: outline.leaving,
        names: outline.leaving_names.items(),
        below: None,
    };
    parted(scene, known, task, at, &before, outline.body.items(), &last)
}
