// The code of single steps.
ghost use Rattle.std.specs.Prelude.{◌≡◌, ◌<◌, ◌^◌, negsuc, All, map, OnOk, IfOk, [], ◌∷◌};
ghost use Rattle.prem_list.specs.Sequence.{items_of};
ghost use Rattle.prem_isa.specs.declared.instr.Instr.TheVariants.{OpImm, Store};
ghost use Rattle.prem_isa.specs.declared.instr.AluOp.TheVariants.{Add};
ghost use Rattle.prem_isa.specs.declared.instr.StoreOp.TheVariants.{Sw};
ghost use Rattle.prem_tree.specs.Resolve.ResolvedOf.{term_of};
ghost use Rattle.prem_asm.specs.Pieces.{followed, no_pieces, straight};
ghost use Rattle.prem_asm.specs.PiecesOf.{pieces_of};
ghost use Rattle.prem_layout.specs.Template.Terms.{only, term_code};
ghost use Rattle.prem_layout.specs.Template.Steps.{store_of, store_slot, load_slot, scalar_store, element_store, bound_test, step_code, count_code, turn_code, argument_code, target_code};
ghost use Rattle.prem_layout.specs.Template.Limits.{too_deep, too_deep_among, first_of};
ghost use Rattle.prem_gen.specs.Term.Numbers.{IsSmall, HasSmall, from_part};
ghost use Rattle.prem_gen.specs.Term.Deep.{Finds};
ghost use Rattle.prem_gen.specs.Routine.Parts.{parts_in};
ghost use Rattle.prem_gen.specs.Routine.Small.{CalleeFits, TargetIsSmall};
ghost use Rattle.prem_gen.specs.Routine.StepCode.{set_local_code, set_scalar_code, set_element_code, output_code, input_code, call_code};

use crate::routine::task::Task;
use crate::term::{TermFail, nonzero, put_local, put_scale, put_term, too_deep, truth_of};
use prem_asm::{BranchOp, Instr, Piece, Sequence, Test, put_address, put_choice, put_code};
use prem_isa::{AluOp, LoadOp, StoreOp};
use prem_syntax::Ty;
use prem_tree::resolve::Term;
use std::alloc::{AllocError, Global};

/// The store of x10 to a local, or to a counter.
fn store_slot(k: u32) -> Instr
    requires { IsSmall k }
    ensures { result ≡ store_slot k }
{
    Instr::Store {
        op: StoreOp::Sw,
        rs1: 2,
        rs2: 10,
        offset: 4 + 4 * k as i32,
    }
}

/// x10 to a local, or to a counter.
pub fn put_store_slot(alloc: Global, pieces: &mut Sequence<Piece>, k: u32) -> Result<(), AllocError>
    requires { IsSmall k }
    ensures { OnOk result (pieces_of (items_of pieces.new) ≡ followed (pieces_of (items_of pieces.old)) (only (store_slot k ∷ []))) }
{
    put_code(alloc, pieces, &[store_slot(k)])
}

/// The store of an element of a type.
fn store_of(ty: Ty) -> StoreOp
    ensures { result ≡ store_of ty }
{
    match ty {
        Ty::Short | Ty::Ushort => StoreOp::Sh,
        Ty::Schar | Ty::Uchar => StoreOp::Sb,
        _ => StoreOp::Sw,
    }
}

/// x10 to a scalar global.
#[tactic(auto, using(prem_asm::proofs::Rows::followed_append))]
fn put_scalar_store(
    alloc: Global,
    pieces: &mut Sequence<Piece>,
    part: u32,
    ty: Ty,
) -> Result<(), AllocError>
    ensures { OnOk result (pieces_of (items_of pieces.new) ≡ followed (pieces_of (items_of pieces.old)) (scalar_store part ty no_pieces)) }
{
    put_address(pieces, 5, part, 0)?;
    put_code(
        alloc,
        pieces,
        &[Instr::Store {
            op: store_of(ty),
            rs1: 5,
            rs2: 10,
            offset: 0,
        }],
    )
}

/// x10 to the element whose index is in x11.
#[tactic(auto, using(prem_asm::proofs::Rows::followed_append))]
fn put_element_store(
    alloc: Global,
    pieces: &mut Sequence<Piece>,
    part: u32,
    ty: Ty,
) -> Result<(), AllocError>
    ensures { OnOk result (pieces_of (items_of pieces.new) ≡ followed (pieces_of (items_of pieces.old)) (element_store part ty no_pieces)) }
{
    put_scale(alloc, pieces, 11, ty)?;
    put_address(pieces, 5, part, 0)?;
    put_code(
        alloc,
        pieces,
        &[
            Instr::Op {
                op: AluOp::Add,
                rd: 11,
                rs1: 11,
                rs2: 5,
            },
            Instr::Store {
                op: store_of(ty),
                rs1: 11,
                rs2: 10,
                offset: 0,
            },
        ],
    )
}

/// An assignment to a local.
#[tactic(auto, using(prem_asm::proofs::Rows::followed_append))]
pub fn put_set_local(
    task: &Task<'_>,
    pieces: &mut Sequence<Piece>,
    number: usize,
    value: &Term,
) -> Result<(), TermFail>
    requires first { task.now.first < 2 ^ 31 }
    requires number { IsSmall number }
    requires value { HasSmall value.now }
    ensures pieces { OnOk result (pieces_of (items_of pieces.new) ≡ followed (pieces_of (items_of pieces.old)) (set_local_code (parts_in task.now) number (term_of value.now))) }
    ensures deep { Finds result (too_deep 10 (term_of value.now)) }
{
    put_term(value, task.alloc, task.target, task.first, pieces, 10)?;
    put_store_slot(task.alloc, pieces, number as u32)?;
    Ok(())
}

/// An assignment to a scalar global.
#[tactic(auto, using(prem_asm::proofs::Rows::followed_append))]
pub fn put_set_scalar(
    task: &Task<'_>,
    pieces: &mut Sequence<Piece>,
    global: usize,
    ty: Ty,
    value: &Term,
) -> Result<(), TermFail>
    requires first { task.now.first < 2 ^ 31 }
    requires number { IsSmall global }
    requires value { HasSmall value.now }
    ensures pieces { OnOk result (pieces_of (items_of pieces.new) ≡ followed (pieces_of (items_of pieces.old)) (set_scalar_code (parts_in task.now) global ty (term_of value.now))) }
    ensures deep { Finds result (too_deep 10 (term_of value.now)) }
{
    put_term(value, task.alloc, task.target, task.first, pieces, 10)?;
    put_scalar_store(task.alloc, pieces, task.first + global as u32, ty)?;
    Ok(())
}

/// An assignment to an element. In the text its index stands before its value.
#[tactic(auto, using(prem_asm::proofs::Rows::followed_append))]
pub fn put_set_element(
    task: &Task<'_>,
    pieces: &mut Sequence<Piece>,
    global: usize,
    ty: Ty,
    index: &Term,
    value: &Term,
) -> Result<(), TermFail>
    requires first { task.now.first < 2 ^ 31 }
    requires number { IsSmall global }
    requires index { HasSmall index.now }
    requires value { HasSmall value.now }
    ensures pieces { OnOk result (pieces_of (items_of pieces.new) ≡ followed (pieces_of (items_of pieces.old)) (set_element_code (parts_in task.now) global ty (term_of index.now) (term_of value.now))) }
    ensures deep { Finds result (first_of (too_deep 11 (term_of index.now)) (too_deep 10 (term_of value.now))) }
{
    if let Some(at) = too_deep(index, 11) {
        return Err(TermFail::Refused(at));
    }
    put_term(value, task.alloc, task.target, task.first, pieces, 10)?;
    put_term(index, task.alloc, task.target, task.first, pieces, 11)?;
    put_element_store(task.alloc, pieces, task.first + global as u32, ty)?;
    Ok(())
}

/// `out(value);`
#[tactic(auto, using(prem_asm::proofs::Rows::followed_append))]
pub fn put_output(
    task: &Task<'_>,
    pieces: &mut Sequence<Piece>,
    value: &Term,
) -> Result<(), TermFail>
    requires first { task.now.first < 2 ^ 31 }
    requires value { HasSmall value.now }
    ensures pieces { OnOk result (pieces_of (items_of pieces.new) ≡ followed (pieces_of (items_of pieces.old)) (output_code (parts_in task.now) (term_of value.now))) }
    ensures deep { Finds result (too_deep 10 (term_of value.now)) }
{
    put_term(value, task.alloc, task.target, task.first, pieces, 10)?;
    put_code(task.alloc, pieces, &[Instr::PmOut { rs1: 10 }])?;
    Ok(())
}

/// `name = in();`
pub fn put_input(
    task: &Task<'_>,
    pieces: &mut Sequence<Piece>,
    number: usize,
) -> Result<(), AllocError>
    requires number { IsSmall number }
    ensures pieces { OnOk result (pieces_of (items_of pieces.new) ≡ followed (pieces_of (items_of pieces.old)) (input_code number)) }
{
    put_code(
        task.alloc,
        pieces,
        &[Instr::PmIn { rd: 10 }, store_slot(number as u32)],
    )
}

/// The test of a counting loop, whose variable is in x10 and whose bound is in x11.
pub fn bound_test(closed: bool) -> Test
    ensures { result ≡ bound_test closed }
{
    if closed {
        Test {
            op: BranchOp::Bge,
            rs1: 11,
            rs2: 10,
        }
    } else {
        Test {
            op: BranchOp::Blt,
            rs1: 10,
            rs2: 11,
        }
    }
}

/// The head of a counting loop: its variable into x10, its bound into x11.
#[tactic(auto, using(prem_asm::proofs::Rows::followed_append))]
pub fn bound_head(task: &Task<'_>, number: usize, high: &Term) -> Result<Sequence<Piece>, TermFail>
    requires first { task.now.first < 2 ^ 31 }
    requires number { IsSmall number }
    requires high { HasSmall high.now }
    ensures pieces { IfOk result (λ pieces. pieces_of (items_of pieces) ≡ straight (load_slot number ∷ []) (term_code task.now.target (from_part task.now.first) 11 (term_of high.now))) }
    ensures deep { Finds result (too_deep 11 (term_of high.now)) }
{
    let mut pieces = Sequence::new(task.alloc);
    put_local(task.alloc, &mut pieces, 10, number as u32)?;
    put_term(high, task.alloc, task.target, task.first, &mut pieces, 11)?;
    Ok(pieces)
}

/// The load of a local, or of a counter, into x10.
fn load_slot(k: u32) -> Instr
    requires { IsSmall k }
    ensures { result ≡ load_slot k }
{
    Instr::Load {
        op: LoadOp::Lw,
        rd: 10,
        rs1: 2,
        offset: 4 + 4 * k as i32,
    }
}

/// A constant added to x10.
fn add(imm: i32) -> Instr
    ensures { result ≡ OpImm Add 10 10 imm }
{
    Instr::OpImm {
        op: AluOp::Add,
        rd: 10,
        rs1: 10,
        imm,
    }
}

/// A loop's variable goes on by its step.
pub fn put_advance(
    alloc: Global,
    pieces: &mut Sequence<Piece>,
    number: usize,
    step: u32,
) -> Result<(), AllocError>
    requires number { IsSmall number }
    requires step { step < 2 ^ 11 }
    ensures { OnOk result (pieces_of (items_of pieces.new) ≡ followed (pieces_of (items_of pieces.old)) (only (step_code number step))) }
{
    put_code(
        alloc,
        pieces,
        &[
            load_slot(number as u32),
            add(step as i32),
            store_slot(number as u32),
        ],
    )
}

/// A counter goes down.
pub fn put_count(alloc: Global, pieces: &mut Sequence<Piece>, n: u32) -> Result<(), AllocError>
    requires { IsSmall n }
    ensures { OnOk result (pieces_of (items_of pieces.new) ≡ followed (pieces_of (items_of pieces.old)) (only (count_code n))) }
{
    put_code(alloc, pieces, &[load_slot(n), add(-1), store_slot(n)])
}

/// The head of a `BOUNDED` loop: where turns are left, whether the condition holds.
#[tactic(auto, using(prem_asm::proofs::Rows::followed_append))]
pub fn turn_head(task: &Task<'_>, n: u32, condition: &Term) -> Result<Sequence<Piece>, TermFail>
    requires first { task.now.first < 2 ^ 31 }
    requires counter { IsSmall n }
    requires condition { HasSmall condition.now }
    ensures pieces { IfOk result (λ pieces. pieces_of (items_of pieces) ≡ turn_code task.now.target (from_part task.now.first) n (term_of condition.now)) }
    ensures deep { Finds result (too_deep 10 (term_of condition.now)) }
{
    let mut pieces = Sequence::new(task.alloc);
    put_local(task.alloc, &mut pieces, 10, n)?;
    let taken = truth_of(condition, task.alloc, task.target, task.first, 10)?;
    put_choice(&mut pieces, nonzero(10), taken, Sequence::new(task.alloc))?;
    Ok(pieces)
}

/// x10 to a parameter's place below x2; `below` is the distance less one.
fn put_store_argument(
    alloc: Global,
    pieces: &mut Sequence<Piece>,
    below: u64,
) -> Result<(), AllocError>
    requires { below < 2 ^ 16 }
    ensures { OnOk result (pieces_of (items_of pieces.new) ≡ followed (pieces_of (items_of pieces.old)) (only (Store Sw 2 10 (negsuc below) ∷ []))) }
{
    put_code(
        alloc,
        pieces,
        &[Instr::Store {
            op: StoreOp::Sw,
            rs1: 2,
            rs2: 10,
            offset: -1 - below as i32,
        }],
    )
}

/// The arguments of a call, each into the callee's frame of so many bytes.
#[tactic(auto, using(prem_asm::proofs::Rows::followed_append, prem_asm::proofs::Rows::followed_none, std::proofs::lemmas::List::drop_more))]
fn put_arguments(
    task: &Task<'_>,
    pieces: &mut Sequence<Piece>,
    frame: u64,
    arguments: &[Term],
) -> Result<(), TermFail>
    requires first { task.now.first < 2 ^ 31 }
    requires frame { frame < 2 ^ 16 }
    requires arguments { All HasSmall arguments.now }
    ensures pieces { OnOk result (pieces_of (items_of pieces.new) ≡ followed (pieces_of (items_of pieces.old)) (argument_code task.now.target (from_part task.now.first) frame 0 (map term_of arguments.now))) }
    ensures deep { Finds result (too_deep_among (map term_of arguments.now)) }
{
    let mut below = frame.saturating_sub(5);
    for argument in arguments {
        put_term(argument, task.alloc, task.target, task.first, pieces, 10)?;
        put_store_argument(task.alloc, pieces, below)?;
        below = below.saturating_sub(4);
    }
    Ok(())
}

/// A result to its target.
#[tactic(auto, using(prem_asm::proofs::Rows::followed_none))]
fn put_target(
    alloc: Global,
    pieces: &mut Sequence<Piece>,
    target: Option<usize>,
) -> Result<(), AllocError>
    requires { TargetIsSmall target }
    ensures { OnOk result (pieces_of (items_of pieces.new) ≡ followed (pieces_of (items_of pieces.old)) (target_code target no_pieces)) }
{
    match target {
        Some(k) => put_store_slot(alloc, pieces, k as u32),
        None => Ok(()),
    }
}

/// A call.
#[tactic(auto, using(prem_asm::proofs::Rows::followed_append))]
pub fn put_call(
    task: &Task<'_>,
    pieces: &mut Sequence<Piece>,
    target: Option<usize>,
    f: usize,
    arguments: &[Term],
) -> Result<(), TermFail>
    requires first { task.now.first < 2 ^ 31 }
    requires target { TargetIsSmall target }
    requires callee { CalleeFits task.now.callees.now f }
    requires arguments { All HasSmall arguments.now }
    ensures pieces { OnOk result (pieces_of (items_of pieces.new) ≡ followed (pieces_of (items_of pieces.old)) (call_code (parts_in task.now) target f (map term_of arguments.now))) }
    ensures deep { Finds result (too_deep_among (map term_of arguments.now)) }
{
    let callee = task.callee(f);
    put_arguments(task, pieces, callee.frame, arguments)?;
    prem_asm::put_call(pieces, callee.link, callee.part)?;
    put_target(task.alloc, pieces, target)?;
    Ok(())
}
