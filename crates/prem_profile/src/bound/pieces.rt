// The bill of pieces at a place: the greatest weight over their paths, word by word.
ghost use Rattle.std.specs.Prelude.{◌≡◌, ◌≤◌, ◌<◌, ◌+◌, ◌*◌, ◌^◌, ◌++◌, ◌∷◌, [], length, IfOk, OnOk};
ghost use Rattle.prem_asm.specs.Pieces.{address_of, back_at, branch_of, either, either_end, no_pieces, repeat, repeat_end, size_of, skip_words, test_at};
ghost use Rattle.prem_asm.specs.PiecesOf.{piece_of, pieces_of};
ghost use Rattle.prem_layout.specs.Bounds.{weight_at};
ghost use Rattle.prem_profile.specs.Bound.Bills.{bill_times};
ghost use Rattle.prem_profile.specs.Bound.Pieces.{bill_from, call_items, item, jump_item, straight_bill};
ghost use Rattle.prem_wcet.specs.Crowds.{IsCache};
ghost use Rattle.prem_profile.specs.Bound.Scopes.{crowd_lines, rule_misses};
ghost use Rattle.prem_profile.specs.Bound.Priced.{IsPriced, calls_by, cost_by, costs_by, crowd_misses, miss_by, misses_by};

use crate::bound::bill::{Item, Spot, append, append_times, dearer, push_item};
use crate::cost::Cost;
use prem_asm::{Instr, Piece, Test};
use prem_isa::{AluOp, cost};
use prem_wcet::crowd::Crowd;
use std::alloc::{AllocError, Global};

/// By what instructions bring lines in.
#[derive(Clone, Copy)]
pub enum Costing<'c> {
    /// By the rule, each time, for so many cycles.
    Rule(u64),
    /// Where the lines of a collection don't have room.
    Scope(&'c Crowd),
}

/// What instructions cost, and the cycles on the bills of functions, of which there are so many.
#[derive(Clone, Copy)]
pub struct Prices<'c> {
    pub costing: Costing<'c>,
    pub count: u32,
    pub cycles: &'c [u64],
}

/// One line, unless there is room.
fn crowd_lines(roomy: bool) -> u64
    ensures lines { result ≡ crowd_lines roomy }
    ensures few { result ≤ 1 }
{
    if roomy { 0 } else { 1 }
}

/// How many lines an instruction at a place may bring in, where sets of a collection have room or haven't.
fn crowd_misses(crowd: &Crowd, at: u32, i: &Instr) -> u64
    requires { IsCache crowd.now }
    ensures lines { result ≡ crowd_misses crowd.now at i.now }
    ensures few { result ≤ 2 }
{
    let fetched = crowd_lines(crowd.has_room(at / crowd.line));
    match i {
        Instr::Load { .. } | Instr::Store { .. } => fetched + crowd_lines(crowd.roomy),
        _ => fetched,
    }
}

/// How many lines an instruction brings in by the rule.
fn rule_misses(i: &Instr) -> u64
    ensures lines { result ≡ rule_misses i.now }
    ensures few { result ≤ 2 }
{
    match i {
        Instr::Load { .. } | Instr::Store { .. } => 2,
        _ => 1,
    }
}

/// How many lines an instruction at a place may bring in.
fn misses_at(costing: &Costing, at: u32, i: &Instr) -> u64
    requires { IsPriced costing.now }
    ensures lines { result ≡ misses_by costing.now at i.now }
    ensures few { result ≤ 2 }
{
    match costing {
        Costing::Rule(_) => rule_misses(i),
        Costing::Scope(crowd) => crowd_misses(crowd, at, i),
    }
}

/// What a line costs that is brought in.
fn miss_of(costing: &Costing) -> u64
    requires { IsPriced costing.now }
    ensures miss { result ≡ miss_by costing.now }
    ensures small { result ≤ 2000 }
{
    match costing {
        Costing::Rule(miss) => *miss,
        Costing::Scope(crowd) => crowd.miss,
    }
}

/// What an instruction at a place costs.
fn cost_at(costing: &Costing, at: u32, i: &Instr) -> Cost
    requires { IsPriced costing.now }
    ensures { result ≡ cost_by costing.now at i.now }
{
    let lines = misses_at(costing, at, i);
    let miss = miss_of(costing);
    Cost {
        instructions: 1,
        cycles: u64::from(cost(i)) + lines * miss,
        misses: lines,
        backs: lines,
    }
}

/// Puts an instruction at a place behind a bill.
pub fn push_instr(
    bill: &mut Vec<Item>,
    at: u32,
    i: &Instr,
    costing: &Costing,
) -> Result<(), AllocError>
    requires { IsPriced costing.now }
    ensures { OnOk result (bill.new.items ≡ bill.old.items ++ item (cost_by costing.now) at i.now ∷ []) }
{
    push_item(bill, Spot::At(at), cost_at(costing, at, i))
}

/// Puts a jump behind a bill.
pub fn push_jump(bill: &mut Vec<Item>, at: u32, costing: &Costing) -> Result<(), AllocError>
    requires { IsPriced costing.now }
    ensures { OnOk result (bill.new.items ≡ bill.old.items ++ jump_item (cost_by costing.now) at ∷ []) }
{
    push_instr(bill, at, &Instr::Jal { rd: 0, offset: 0 }, costing)
}

/// Puts the branch of a test behind a bill.
pub fn push_test(
    bill: &mut Vec<Item>,
    at: u32,
    test: Test,
    costing: &Costing,
) -> Result<(), AllocError>
    requires { IsPriced costing.now }
    ensures { OnOk result (bill.new.items ≡ bill.old.items ++ item (cost_by costing.now) at (branch_of test) ∷ []) }
{
    let branch = Instr::Branch {
        op: test.op,
        rs1: test.rs1,
        rs2: test.rs2,
        offset: 8,
    };
    push_instr(bill, at, &branch, costing)
}

/// The cycles of a function of this number; 0 where it isn't known.
fn cycles_at(cycles: &[u64], n: u32) -> u64
    ensures { result ≡ weight_at cycles.now n }
{
    cycles.get(n as usize).copied().unwrap_or(0)
}

/// Puts a call of a function behind a bill that takes so many cycles.
fn push_call_of(bill: &mut Vec<Item>, function: u32, cycles: u64) -> Result<(), AllocError>
    ensures { OnOk result (bill.new.items ≡ bill.old.items ++ call_items function cycles) }
{
    if cycles == 0 {
        return Ok(());
    }
    let cost = Cost {
        instructions: 1,
        cycles,
        misses: 0,
        backs: 0,
    };
    push_item(bill, Spot::Call(function), cost)
}

/// Puts what is billed for a called part behind a bill: for functions alone.
fn push_called(bill: &mut Vec<Item>, part: u32, prices: &Prices) -> Result<(), AllocError>
    ensures { OnOk result (bill.new.items ≡ bill.old.items ++ calls_by prices.now part) }
{
    if part == 0 || part - 1 >= prices.count {
        return Ok(());
    }
    push_call_of(bill, part - 1, cycles_at(prices.cycles, part - 1))
}

/// Instructions one behind another.
fn push_straight(
    bill: &mut Vec<Item>,
    code: &[Instr],
    at: u32,
    costing: &Costing,
) -> Result<u32, AllocError>
    requires priced { IsPriced costing.now }
    requires place { at + 4 * length code.now < 2 ^ 32 }
    ensures bill { OnOk result (bill.new.items ≡ bill.old.items ++ straight_bill (cost_by costing.now) at code.now) }
    ensures end { IfOk result (λ end. end ≡ at + 4 * length code.now) }
{
    let mut end = at;
    'code: for i in code {
        push_instr(bill, end, i, costing)?;
        end += 4;
    }
    Ok(end)
}

/// A register gets the address of a part.
fn push_address(bill: &mut Vec<Item>, at: u32, costing: &Costing) -> Result<u32, AllocError>
    requires priced { IsPriced costing.now }
    requires place { at + 8 < 2 ^ 32 }
    ensures bill { OnOk result (bill.new.items ≡ bill.old.items ++ bill_from (cost_by costing.now) (λ part. []) at (address_of 0 0 0 no_pieces)) }
    ensures end { IfOk result (λ end. end ≡ at + 8) }
{
    let upper = Instr::Lui { rd: 0, imm: 0 };
    let lower = Instr::OpImm {
        op: AluOp::Add,
        rd: 0,
        rs1: 0,
        imm: 0,
    };
    push_instr(bill, at, &upper, costing)?;
    push_instr(bill, at + 4, &lower, costing)?;
    Ok(at + 8)
}

/// How many jumps there are over the other side of a choice.
fn skip_words(other: &[Piece]) -> u32
    ensures words { result ≡ skip_words (pieces_of other.now) }
    ensures few { result ≤ 1 }
{
    match other {
        [] => 0,
        [_, ..] => 1,
    }
}

/// Puts so many times a jump behind a bill.
pub fn push_skips(
    alloc: Global,
    bill: &mut Vec<Item>,
    skips: u32,
    at: u32,
    costing: &Costing,
) -> Result<(), AllocError>
    requires { IsPriced costing.now }
    ensures { OnOk result (bill.new.items ≡ bill.old.items ++ bill_times skips (jump_item (cost_by costing.now) at ∷ [])) }
{
    let mut jump = Vec::new(alloc);
    push_jump(&mut jump, at, costing)?;
    append_times(bill, skips, &jump)
}

/// The bill of the first side of a choice, with the jump over the other one; and where it ends.
#[cycle(bills)]
fn taken_side(
    alloc: Global,
    taken: &[Piece],
    skips: u32,
    at: u32,
    prices: &Prices,
) -> Result<(Vec<Item>, u32), AllocError>
    requires priced { IsPriced prices.now.costing }
    requires place { at + size_of (pieces_of taken.now) + 4 * skips < 2 ^ 32 }
    ensures bill { IfOk result (λ side. side.0.items ≡ bill_from (costs_by prices.now) (calls_by prices.now) at (pieces_of taken.now) ++ bill_times skips (jump_item (costs_by prices.now) (at + size_of (pieces_of taken.now)) ∷ [])) }
    ensures end { IfOk result (λ side. side.1 ≡ at + size_of (pieces_of taken.now) + 4 * skips) }
{
    let mut bill = Vec::new(alloc);
    let end = push_pieces(alloc, &mut bill, taken, at, prices)?;
    push_skips(alloc, &mut bill, skips, end, &prices.costing)?;
    Ok((bill, end + 4 * skips))
}

/// The bill of its other side behind the jump at a place; and where it ends.
#[cycle(bills)]
fn other_side(
    alloc: Global,
    other: &[Piece],
    jump: u32,
    at: u32,
    prices: &Prices,
) -> Result<(Vec<Item>, u32), AllocError>
    requires priced { IsPriced prices.now.costing }
    requires place { at + size_of (pieces_of other.now) < 2 ^ 32 }
    ensures bill { IfOk result (λ side. side.0.items ≡ jump_item (costs_by prices.now) jump ∷ bill_from (costs_by prices.now) (calls_by prices.now) at (pieces_of other.now)) }
    ensures end { IfOk result (λ side. side.1 ≡ at + size_of (pieces_of other.now)) }
{
    let mut bill = Vec::new(alloc);
    push_jump(&mut bill, jump, &prices.costing)?;
    let end = push_pieces(alloc, &mut bill, other, at, prices)?;
    Ok((bill, end))
}

#[cycle(bills)]
fn push_either(
    alloc: Global,
    bill: &mut Vec<Item>,
    test: Test,
    taken: &[Piece],
    other: &[Piece],
    at: u32,
    prices: &Prices,
) -> Result<u32, AllocError>
    requires priced { IsPriced prices.now.costing }
    requires place { either_end at (pieces_of taken.now) (pieces_of other.now) < 2 ^ 32 }
    ensures bill { OnOk result (bill.new.items ≡ bill.old.items ++ bill_from (costs_by prices.now) (calls_by prices.now) at (either test (pieces_of taken.now) (pieces_of other.now) no_pieces)) }
    ensures end { IfOk result (λ end. end ≡ either_end at (pieces_of taken.now) (pieces_of other.now)) }
{
    let (first, middle) = taken_side(alloc, taken, skip_words(other), at + 8, prices)?;
    let (second, end) = other_side(alloc, other, at + 4, middle, prices)?;
    push_test(bill, at, test, &prices.costing)?;
    append(bill, &dearer(first, second))?;
    Ok(end)
}

/// The bill of a turn of a loop, and where it ends.
#[cycle(bills)]
fn turn(
    alloc: Global,
    head: &[Piece],
    test: Test,
    body: &[Piece],
    at: u32,
    prices: &Prices,
) -> Result<(Vec<Item>, u32), AllocError>
    requires priced { IsPriced prices.now.costing }
    requires place { repeat_end at (pieces_of head.now) (pieces_of body.now) < 2 ^ 32 }
    ensures bill { IfOk result (λ turn. turn.0.items ≡ bill_from (costs_by prices.now) (calls_by prices.now) at (pieces_of head.now)
        ++ (item (costs_by prices.now) (test_at at (pieces_of head.now)) (branch_of test) ∷ (bill_from (costs_by prices.now) (calls_by prices.now) (test_at at (pieces_of head.now) + 8) (pieces_of body.now)
        ++ jump_item (costs_by prices.now) (back_at at (pieces_of head.now) (pieces_of body.now)) ∷ []))) }
    ensures end { IfOk result (λ turn. turn.1 ≡ repeat_end at (pieces_of head.now) (pieces_of body.now)) }
{
    let mut bill = Vec::new(alloc);
    let there = push_pieces(alloc, &mut bill, head, at, prices)?;
    push_test(&mut bill, there, test, &prices.costing)?;
    let back = push_pieces(alloc, &mut bill, body, there + 8, prices)?;
    push_jump(&mut bill, back, &prices.costing)?;
    Ok((bill, back + 4))
}

/// Puts the way out of a loop behind a bill.
#[cycle(bills)]
fn push_out(
    alloc: Global,
    bill: &mut Vec<Item>,
    head: &[Piece],
    test: Test,
    at: u32,
    prices: &Prices,
) -> Result<(), AllocError>
    requires priced { IsPriced prices.now.costing }
    requires place { test_at at (pieces_of head.now) + 8 < 2 ^ 32 }
    ensures { OnOk result (bill.new.items ≡ bill.old.items ++ (bill_from (costs_by prices.now) (calls_by prices.now) at (pieces_of head.now)
        ++ item (costs_by prices.now) (test_at at (pieces_of head.now)) (branch_of test) ∷ jump_item (costs_by prices.now) (test_at at (pieces_of head.now) + 4) ∷ [])) }
{
    let there = push_pieces(alloc, bill, head, at, prices)?;
    push_test(bill, there, test, &prices.costing)?;
    push_jump(bill, there + 4, &prices.costing)
}

#[cycle(bills)]
fn push_repeat(
    alloc: Global,
    bill: &mut Vec<Item>,
    turns: u32,
    head: &[Piece],
    test: Test,
    body: &[Piece],
    at: u32,
    prices: &Prices,
) -> Result<u32, AllocError>
    requires priced { IsPriced prices.now.costing }
    requires place { repeat_end at (pieces_of head.now) (pieces_of body.now) < 2 ^ 32 }
    ensures bill { OnOk result (bill.new.items ≡ bill.old.items ++ bill_from (costs_by prices.now) (calls_by prices.now) at (repeat turns (pieces_of head.now) test (pieces_of body.now) no_pieces)) }
    ensures end { IfOk result (λ end. end ≡ repeat_end at (pieces_of head.now) (pieces_of body.now)) }
{
    let (once, end) = turn(alloc, head, test, body, at, prices)?;
    append_times(bill, turns, &once)?;
    push_out(alloc, bill, head, test, at, prices)?;
    Ok(end)
}

/// A call of a part, and what it is billed.
fn push_call(bill: &mut Vec<Item>, part: u32, at: u32, prices: &Prices) -> Result<u32, AllocError>
    requires priced { IsPriced prices.now.costing }
    requires place { at + 4 < 2 ^ 32 }
    ensures bill { OnOk result (bill.new.items ≡ bill.old.items ++ (jump_item (costs_by prices.now) at ∷ calls_by prices.now part)) }
    ensures end { IfOk result (λ end. end ≡ at + 4) }
{
    push_jump(bill, at, &prices.costing)?;
    push_called(bill, part, prices)?;
    Ok(at + 4)
}

#[cycle(bills)]
fn push_piece(
    alloc: Global,
    bill: &mut Vec<Item>,
    piece: &Piece,
    at: u32,
    prices: &Prices,
) -> Result<u32, AllocError>
    requires priced { IsPriced prices.now.costing }
    requires place { at + size_of (piece_of piece.now) < 2 ^ 32 }
    ensures bill { OnOk result (bill.new.items ≡ bill.old.items ++ bill_from (costs_by prices.now) (calls_by prices.now) at (piece_of piece.now)) }
    ensures end { IfOk result (λ end. end ≡ at + size_of (piece_of piece.now)) }
{
    match piece {
        Piece::Straight(code) => push_straight(bill, code.items(), at, &prices.costing),
        Piece::Address { .. } => push_address(bill, at, &prices.costing),
        Piece::Either { test, taken, other } => {
            push_either(alloc, bill, *test, taken.items(), other.items(), at, prices)
        }
        Piece::Repeat {
            turns,
            head,
            test,
            body,
        } => push_repeat(
            alloc,
            bill,
            *turns,
            head.items(),
            *test,
            body.items(),
            at,
            prices,
        ),
        Piece::CallTo { part, .. } => push_call(bill, *part, at, prices),
    }
}

/// Puts the bill of pieces at a place behind another one, and tells where they end.
#[cycle(bills)]
pub fn push_pieces(
    alloc: Global,
    bill: &mut Vec<Item>,
    pieces: &[Piece],
    at: u32,
    prices: &Prices,
) -> Result<u32, AllocError>
    requires priced { IsPriced prices.now.costing }
    requires place { at + size_of (pieces_of pieces.now) < 2 ^ 32 }
    ensures bill { OnOk result (bill.new.items ≡ bill.old.items ++ bill_from (costs_by prices.now) (calls_by prices.now) at (pieces_of pieces.now)) }
    ensures end { IfOk result (λ end. end ≡ at + size_of (pieces_of pieces.now)) }
{
    let mut end = at;
    'pieces: for piece in pieces {
        end = push_piece(alloc, bill, piece, end, prices)?;
    }
    Ok(end)
}
