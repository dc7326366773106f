// The four sums of stretches over the paths of pieces, which are told up to 2^41.
ghost use Rattle.std.specs.Prelude.{◌≡◌};
ghost use Rattle.prem_asm.specs.Pieces.{call_to, either, no_pieces, repeat};
ghost use Rattle.prem_asm.specs.PiecesOf.{piece_of, pieces_of};
ghost use Rattle.prem_layout.specs.Bounds.{start_code};
ghost use Rattle.prem_layout.specs.Stretch.Sums.{summed};
ghost use Rattle.prem_bounds.specs.Scale.{IsScale};
ghost use Rattle.prem_bounds.specs.ToldSums.{AreTold, step_weight, sums_by, sums_in, sums_of};

use crate::scale::{Scale, plus};
use crate::stretches::{Sums, among, chained, taking, turned};
use crate::weights::{address_weight, branch_weight, jump_weight, skip_weight, straight_weight};
use prem_asm::{Piece, Test};

/// What instructions weigh, and the sums that are known of functions and stubs.
#[derive(Clone, Copy)]
pub struct Reach {
    pub scale: Scale,
    pub functions: [Sums; 256],
    /// How many stubs there are, and the sums of each.
    pub stubs: u32,
    pub marked: Sums,
}

/// The sums of a table, or those of no code where it has none.
fn sums_in(all: &[Sums], n: u32) -> Sums
    ensures { sums_of result ≡ sums_in all.now n }
{
    match all.get(n as usize) {
        Some(sums) => *sums,
        None => taking(0),
    }
}

/// The sums of a called part.
pub fn called_sums(part: u32, reach: &Reach) -> Sums
    ensures { sums_of result ≡ sums_by reach.now part }
{
    if part == 0 {
        taking(0)
    } else if part - 1 < reach.scale.count {
        sums_in(&reach.functions, part - 1)
    } else if part - 1 - reach.scale.count < reach.stubs {
        reach.marked
    } else {
        taking(0)
    }
}

#[cycle(stretches)]
fn either_sums(test: Test, taken: &[Piece], other: &[Piece], reach: &Reach) -> Sums
    requires { IsScale reach.now.scale }
    ensures { AreTold result (summed (step_weight reach.now) (sums_by reach.now) (either test (pieces_of taken.now) (pieces_of other.now) no_pieces)) }
{
    let first = sums_through(taken, reach);
    let second = sums_through(other, reach);
    let skip = skip_weight(other, &reach.scale);
    let jump = jump_weight(&reach.scale);
    let branch = branch_weight(test, &reach.scale);
    let sides = among(chained(first, taking(skip)), chained(taking(jump), second));
    chained(taking(branch), sides)
}

#[cycle(stretches)]
fn repeat_sums(turns: u32, head: &[Piece], test: Test, body: &[Piece], reach: &Reach) -> Sums
    requires { IsScale reach.now.scale }
    ensures { AreTold result (summed (step_weight reach.now) (sums_by reach.now) (repeat turns (pieces_of head.now) test (pieces_of body.now) no_pieces)) }
{
    let start = sums_through(head, reach);
    let inner = sums_through(body, reach);
    let branch = branch_weight(test, &reach.scale);
    let jump = jump_weight(&reach.scale);
    let turn = chained(start, chained(taking(branch), chained(inner, taking(jump))));
    let out = chained(start, taking(plus(branch, jump)));
    turned(turns, turn, out)
}

fn call_sums(part: u32, reach: &Reach) -> Sums
    requires { IsScale reach.now.scale }
    ensures { AreTold result (summed (step_weight reach.now) (sums_by reach.now) (call_to 0 part no_pieces)) }
{
    chained(taking(jump_weight(&reach.scale)), called_sums(part, reach))
}

#[cycle(stretches)]
fn piece_sums(piece: &Piece, reach: &Reach) -> Sums
    requires { IsScale reach.now.scale }
    ensures { AreTold result (summed (step_weight reach.now) (sums_by reach.now) (piece_of piece.now)) }
{
    match piece {
        Piece::Straight(code) => taking(straight_weight(code.items(), &reach.scale)),
        Piece::Address { .. } => taking(address_weight(&reach.scale)),
        Piece::Either { test, taken, other } => {
            either_sums(*test, taken.items(), other.items(), reach)
        }
        Piece::Repeat {
            turns,
            head,
            test,
            body,
        } => repeat_sums(*turns, head.items(), *test, body.items(), reach),
        Piece::CallTo { part, .. } => call_sums(*part, reach),
    }
}

/// The four sums over the paths of pieces.
#[cycle(stretches)]
#[tactic(auto, using(crate::proofs::AlikeSums::nothing_behind))]
pub fn sums_through(pieces: &[Piece], reach: &Reach) -> Sums
    requires { IsScale reach.now.scale }
    ensures { AreTold result (summed (step_weight reach.now) (sums_by reach.now) (pieces_of pieces.now)) }
{
    let mut sums = taking(0);
    for piece in pieces {
        sums = chained(sums, piece_sums(piece, reach));
    }
    sums
}

/// Those of the start of a task, which calls its job.
pub fn start_sums(job: u16, reach: &Reach) -> Sums
    requires { IsScale reach.now.scale }
    ensures { AreTold result (summed (step_weight reach.now) (sums_by reach.now) (start_code job)) }
{
    let done = 1 + reach.scale.other;
    chained(call_sums(1 + u32::from(job), reach), taking(done))
}
