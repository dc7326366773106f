// The code of functions.
ghost use Rattle.std.specs.Prelude.{◌≡◌, ◌<◌, ◌≤◌, ◌+◌, ◌^◌, All, map, length, OnOk, IfOk};
ghost use Rattle.std.specs.Option.{option_map};
ghost use Rattle.prem_list.specs.Sequence.{items_of};
ghost use Rattle.prem_tree.specs.Resolve.ResolvedOf.{term_of, loops_of, routine_of};
ghost use Rattle.prem_asm.specs.Pieces.{followed};
ghost use Rattle.prem_asm.specs.PiecesOf.{pieces_of};
ghost use Rattle.prem_layout.specs.Template.Terms.{only};
ghost use Rattle.prem_layout.specs.Template.Steps.{opening, closing, declare_code, result_code, function_code};
ghost use Rattle.prem_layout.specs.Template.Limits.{too_deep_among, too_deep_result, excess_of};
ghost use Rattle.prem_gen.specs.Term.Numbers.{HasSmall, from_part};
ghost use Rattle.prem_gen.specs.Term.Deep.{Finds};
ghost use Rattle.prem_gen.specs.Routine.Parts.{parts_in, turns_in};
ghost use Rattle.prem_gen.specs.Routine.RoutineCode.{routine_code, routine_deep, ResultSmall, RoutineSmall};
ghost use Rattle.prem_gen.specs.Frame.FrameOf.{frame_bytes};
ghost use Rattle.prem_gen.specs.Routine.FrameOf.{slots_in};
ghost use Rattle.prem_gen.specs.Term.Excess.{Refuses};

use crate::routine::frames::frame;
use crate::routine::single::put_store_slot;
use crate::routine::steps::put_step;
use crate::routine::task::{Numbers, Task};
use crate::term::{FnId, GenFail, TermFail, gen_fail, put_term};
use prem_asm::{Instr, Piece, Sequence, put_code};
use prem_isa::{AluOp, LoadOp, StoreOp};
use prem_tree::resolve::{Routine, Term};
use std::alloc::{AllocError, Global};

/// The frame is taken, and the return address kept.
fn put_opening(alloc: Global, pieces: &mut Sequence<Piece>, frame: u32) -> Result<(), AllocError>
    requires least { 1 ≤ frame }
    requires most { frame ≤ 2032 }
    ensures { OnOk result (pieces_of (items_of pieces.new) ≡ followed (pieces_of (items_of pieces.old)) (only (opening frame))) }
{
    put_code(
        alloc,
        pieces,
        &[
            Instr::OpImm {
                op: AluOp::Add,
                rd: 2,
                rs1: 2,
                imm: -1 - (frame - 1) as i32,
            },
            Instr::Store {
                op: StoreOp::Sw,
                rs1: 2,
                rs2: 1,
                offset: 0,
            },
        ],
    )
}

/// The frame is given back.
fn put_closing(alloc: Global, pieces: &mut Sequence<Piece>, frame: u32) -> Result<(), AllocError>
    requires { frame ≤ 2032 }
    ensures { OnOk result (pieces_of (items_of pieces.new) ≡ followed (pieces_of (items_of pieces.old)) (only (closing frame))) }
{
    put_code(
        alloc,
        pieces,
        &[
            Instr::Load {
                op: LoadOp::Lw,
                rd: 1,
                rs1: 2,
                offset: 0,
            },
            Instr::OpImm {
                op: AluOp::Add,
                rd: 2,
                rs1: 2,
                imm: frame as i32,
            },
            Instr::Jalr {
                rd: 0,
                rs1: 1,
                offset: 0,
            },
        ],
    )
}

/// Locals, from slot k on, each with its initialiser.
#[tactic(auto, using(prem_asm::proofs::Rows::followed_append, prem_asm::proofs::Rows::followed_none, std::proofs::lemmas::List::drop_more))]
fn put_locals(
    task: &Task<'_>,
    pieces: &mut Sequence<Piece>,
    k: u32,
    locals: &[Term],
) -> Result<(), TermFail>
    requires first { task.now.first < 2 ^ 31 }
    requires slots { k + length locals.now < 2 ^ 16 }
    requires locals { All HasSmall locals.now }
    ensures pieces { OnOk result (pieces_of (items_of pieces.new) ≡ followed (pieces_of (items_of pieces.old)) (declare_code task.now.target (from_part task.now.first) k (map term_of locals.now))) }
    ensures deep { Finds result (too_deep_among (map term_of locals.now)) }
{
    let mut slot = k;
    for value in locals {
        put_term(value, task.alloc, task.target, task.first, pieces, 10)?;
        put_store_slot(task.alloc, pieces, slot)?;
        slot += 1;
    }
    Ok(())
}

/// The result.
#[tactic(auto, using(prem_asm::proofs::Rows::followed_none))]
fn put_result(
    task: &Task<'_>,
    pieces: &mut Sequence<Piece>,
    value: &Option<Term>,
) -> Result<(), TermFail>
    requires first { task.now.first < 2 ^ 31 }
    requires small { ResultSmall value.now }
    ensures pieces { OnOk result (pieces_of (items_of pieces.new) ≡ followed (pieces_of (items_of pieces.old)) (result_code task.now.target (from_part task.now.first) (option_map term_of value.now))) }
    ensures deep { Finds result (too_deep_result (option_map term_of value.now)) }
{
    match value {
        Some(value) => put_term(value, task.alloc, task.target, task.first, pieces, 10),
        None => Ok(()),
    }
}

/// The code of a function with a frame of so many bytes; its first counting loop has number `turn`.
#[tactic(auto, using(prem_asm::proofs::Rows::followed_append))]
fn code_in_frame(
    task: &Task<'_>,
    routine: &Routine<'_>,
    frame: u32,
    turn: usize,
) -> Result<Sequence<Piece>, TermFail>
    requires first { task.now.first < 2 ^ 31 }
    requires small { RoutineSmall task.now.callees.now routine.now }
    requires slots { slots_in routine.now < 2 ^ 16 }
    requires least { 1 ≤ frame }
    requires most { frame ≤ 2032 }
    requires turns { turn + loops_of routine.now.body < 2 ^ 64 }
    ensures pieces { IfOk result (λ pieces. pieces_of (items_of pieces) ≡ routine_code (parts_in task.now) (turns_in task.now) turn frame routine.now) }
    ensures deep { Finds result (routine_deep routine.now) }
{
    let mut pieces = Sequence::new(task.alloc);
    put_opening(task.alloc, &mut pieces, frame)?;
    let params = routine.text.params.items().len() as u32;
    let locals = routine.locals.items();
    put_locals(task, &mut pieces, params, locals)?;
    let mut numbers = Numbers {
        counter: params + locals.len() as u32,
        turn,
    };
    put_step(&routine.body, task, &mut pieces, &mut numbers)?;
    put_result(task, &mut pieces, &routine.result)?;
    put_closing(task.alloc, &mut pieces, frame)?;
    Ok(pieces)
}

/// The code of function `number`, whose first counting loop has number `turn`.
pub fn code_of(
    task: &Task<'_>,
    routine: &Routine<'_>,
    number: FnId,
    turn: usize,
) -> Result<Sequence<Piece>, GenFail>
    requires first { task.now.first < 2 ^ 31 }
    requires small { frame_bytes (slots_in routine.now) ≤ 2032 → RoutineSmall task.now.callees.now routine.now }
    requires turns { turn + loops_of routine.now.body < 2 ^ 64 }
    ensures pieces { IfOk result (λ pieces. pieces_of (items_of pieces) ≡ function_code (parts_in task.now) (routine_of (turns_in task.now) turn routine.now)) }
    ensures excess { Refuses result (excess_of number (routine_of (turns_in task.now) turn routine.now)) }
{
    let bytes = frame(routine);
    if bytes > 2032 {
        return Err(GenFail::Frame { function: number });
    }
    match code_in_frame(task, routine, bytes as u32, turn) {
        Ok(pieces) => Ok(pieces),
        Err(e) => Err(gen_fail(e)),
    }
}
