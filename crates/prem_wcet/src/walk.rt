// The greatest weight over the paths of pieces at a place, where the place of an instruction adds to its weight. It is told up to
// 2^41.
ghost use Rattle.std.specs.Prelude.{◌≡◌, ◌+◌, ◌*◌, ◌≤◌, ◌<◌, ◌^◌, length};
ghost use Rattle.prem_isa.specs.declared.instr.Instr.TheVariants.{PmDone};
ghost use Rattle.prem_asm.specs.Pieces.{no_pieces, either, repeat, either_end, repeat_end, size_of, skip_words};
ghost use Rattle.prem_asm.specs.PiecesOf.{piece_of, pieces_of};
ghost use Rattle.prem_bounds.specs.Scale.{clipped};
ghost use Rattle.prem_layout.specs.Bounds.{weight_at};
ghost use Rattle.prem_wcet_laws.specs.Weights.{address_from, weight_from, weighted_from};
ghost use Rattle.prem_wcet.specs.Crowds.{IsCache, fetch_by, place_weight};
ghost use Rattle.prem_wcet.specs.Walks.{calls_by, weight_by};

use crate::crowd::Crowd;
use prem_asm::{Instr, Piece, Test};
use prem_bounds::scale::{plus, times};
use prem_isa::cost;

/// What pieces weigh, and where they end.
#[derive(Clone, Copy)]
pub struct Weighed {
    pub sum: u64,
    pub end: u32,
}

/// What the lines of a collection add to instructions, and the weights of functions, of which there are so many.
#[derive(Clone, Copy)]
pub struct PlaceScale<'c> {
    pub crowd: &'c Crowd,
    pub count: u32,
    pub functions: [u64; 256],
}

/// The weight of an instruction at a place.
fn instr_at(i: &Instr, at: u32, crowd: &Crowd) -> u64
    requires { IsCache crowd.now }
    ensures { result ≡ place_weight crowd.now at i.now }
{
    let fetched = u64::from(cost(i)) + crowd.fetch(at);
    if matches!(i, Instr::Load { .. } | Instr::Store { .. }) {
        fetched + crowd.access()
    } else {
        fetched
    }
}

/// The weight of a branch or a jump at a place.
pub fn jump_at(at: u32, scale: &PlaceScale) -> u64
    requires { IsCache scale.now.crowd.now }
    ensures weight { result ≡ 2 + fetch_by scale.now.crowd.now at }
    ensures small { result ≤ 2002 }
{
    2 + scale.crowd.fetch(at)
}

/// The weight of the end of a job at a place.
pub fn done_at(at: u32, scale: &PlaceScale) -> u64
    requires { IsCache scale.now.crowd.now }
    ensures weight { result ≡ weight_by scale.now at PmDone }
    ensures small { result ≤ 2001 }
{
    1 + scale.crowd.fetch(at)
}

/// A weight of a table, or 0 where it has none.
fn weight_in(weights: &[u64], n: u32) -> u64
    ensures { result ≡ weight_at weights.now n }
{
    weights.get(n as usize).copied().unwrap_or(0)
}

/// The weight of a called part: of functions alone.
pub fn called_at(part: u32, scale: &PlaceScale) -> u64
    ensures { result ≡ calls_by scale.now part }
{
    if part == 0 {
        0
    } else if part - 1 < scale.count {
        weight_in(&scale.functions, part - 1)
    } else {
        0
    }
}

fn walk_straight(code: &[Instr], at: u32, scale: &PlaceScale) -> Weighed
    requires cache { IsCache scale.now.crowd.now }
    requires place { at + 4 * length code.now < 2 ^ 32 }
    ensures sum { result.sum ≡ clipped (weight_from (weight_by scale.now) at code.now) }
    ensures end { result.end ≡ at + 4 * length code.now }
{
    let mut sum = 0;
    let mut end = at;
    for i in code {
        sum = plus(sum, instr_at(i, end, scale.crowd));
        end += 4;
    }
    Weighed { sum, end }
}

fn walk_address(at: u32, scale: &PlaceScale) -> Weighed
    requires cache { IsCache scale.now.crowd.now }
    requires place { at + 8 < 2 ^ 32 }
    ensures sum { result.sum ≡ clipped (address_from (weight_by scale.now) at) }
    ensures end { result.end ≡ at + 8 }
{
    let first = 1 + scale.crowd.fetch(at);
    let second = 1 + scale.crowd.fetch(at + 4);
    Weighed {
        sum: first + second,
        end: at + 8,
    }
}

/// The weight of the jump over the other side of a choice, if there is one, which stands at a place.
fn skip_at(other: &[Piece], at: u32, scale: &PlaceScale) -> u64
    requires { IsCache scale.now.crowd.now }
    ensures { result ≡ skip_words (pieces_of other.now) * (2 + fetch_by scale.now.crowd.now at) }
{
    match other {
        [] => 0,
        [_, ..] => jump_at(at, scale),
    }
}

/// How many bytes it has.
fn skip_size(other: &[Piece]) -> u32
    ensures size { result ≡ 4 * skip_words (pieces_of other.now) }
    ensures small { result ≤ 4 }
{
    match other {
        [] => 0,
        [_, ..] => 4,
    }
}

#[cycle(walks)]
fn walk_either(test: Test, taken: &[Piece], other: &[Piece], at: u32, scale: &PlaceScale) -> Weighed
    requires cache { IsCache scale.now.crowd.now }
    requires place { either_end at (pieces_of taken.now) (pieces_of other.now) < 2 ^ 32 }
    ensures sum { result.sum ≡ clipped (weighted_from (weight_by scale.now) (calls_by scale.now) at (either test (pieces_of taken.now) (pieces_of other.now) no_pieces)) }
    ensures end { result.end ≡ either_end at (pieces_of taken.now) (pieces_of other.now) }
{
    let _test = test;
    let first = walk(taken, at + 8, scale);
    let skip = skip_at(other, first.end, scale);
    let second = walk(other, first.end + skip_size(other), scale);
    let one = plus(first.sum, skip);
    let two = plus(jump_at(at + 4, scale), second.sum);
    Weighed {
        sum: plus(jump_at(at, scale), one.max(two)),
        end: second.end,
    }
}

#[cycle(walks)]
fn walk_repeat(
    turns: u32,
    head: &[Piece],
    test: Test,
    body: &[Piece],
    at: u32,
    scale: &PlaceScale,
) -> Weighed
    requires cache { IsCache scale.now.crowd.now }
    requires place { repeat_end at (pieces_of head.now) (pieces_of body.now) < 2 ^ 32 }
    ensures sum { result.sum ≡ clipped (weighted_from (weight_by scale.now) (calls_by scale.now) at (repeat turns (pieces_of head.now) test (pieces_of body.now) no_pieces)) }
    ensures end { result.end ≡ repeat_end at (pieces_of head.now) (pieces_of body.now) }
{
    let _test = test;
    let first = walk(head, at, scale);
    let inside = walk(body, first.end + 8, scale);
    let branch = jump_at(first.end, scale);
    let back = jump_at(inside.end, scale);
    let leave = jump_at(first.end + 4, scale);
    let start = plus(first.sum, branch);
    let through = plus(start, inside.sum);
    let turn = plus(through, back);
    let out = plus(start, leave);
    let all = times(turns, turn);
    Weighed {
        sum: plus(all, out),
        end: inside.end + 4,
    }
}

#[cycle(walks)]
fn walk_piece(piece: &Piece, at: u32, scale: &PlaceScale) -> Weighed
    requires cache { IsCache scale.now.crowd.now }
    requires place { at + size_of (piece_of piece.now) < 2 ^ 32 }
    ensures sum { result.sum ≡ clipped (weighted_from (weight_by scale.now) (calls_by scale.now) at (piece_of piece.now)) }
    ensures end { result.end ≡ at + size_of (piece_of piece.now) }
{
    match piece {
        Piece::Straight(code) => walk_straight(code.items(), at, scale),
        Piece::Address { .. } => walk_address(at, scale),
        Piece::Either { test, taken, other } => {
            walk_either(*test, taken.items(), other.items(), at, scale)
        }
        Piece::Repeat {
            turns,
            head,
            test,
            body,
        } => walk_repeat(*turns, head.items(), *test, body.items(), at, scale),
        Piece::CallTo { part, .. } => Weighed {
            sum: plus(jump_at(at, scale), called_at(*part, scale)),
            end: at + 4,
        },
    }
}

/// Pieces at a place.
#[cycle(walks)]
pub fn walk(pieces: &[Piece], at: u32, scale: &PlaceScale) -> Weighed
    requires cache { IsCache scale.now.crowd.now }
    requires place { at + size_of (pieces_of pieces.now) < 2 ^ 32 }
    ensures sum { result.sum ≡ clipped (weighted_from (weight_by scale.now) (calls_by scale.now) at (pieces_of pieces.now)) }
    ensures end { result.end ≡ at + size_of (pieces_of pieces.now) }
{
    let mut sum = 0;
    let mut end = at;
    for piece in pieces {
        let next = walk_piece(piece, end, scale);
        sum = plus(sum, next.sum);
        end = next.end;
    }
    Weighed { sum, end }
}

/// Pieces behind others.
pub fn walk_on(before: Weighed, pieces: &[Piece], scale: &PlaceScale) -> Weighed
    requires cache { IsCache scale.now.crowd.now }
    requires place { before.end + size_of (pieces_of pieces.now) < 2 ^ 32 }
    ensures sum { result.sum ≡ clipped (before.sum + weighted_from (weight_by scale.now) (calls_by scale.now) before.end (pieces_of pieces.now)) }
    ensures end { result.end ≡ before.end + size_of (pieces_of pieces.now) }
{
    let next = walk(pieces, before.end, scale);
    Weighed {
        sum: plus(before.sum, next.sum),
        end: next.end,
    }
}
