// The code of terms.
ghost use Rattle.std.specs.Prelude.{◌≡◌, ◌<◌, ◌^◌, OnOk, IfOk};
ghost use Rattle.prem_list.specs.Sequence.{items_of};
ghost use Rattle.prem_tree.specs.Resolve.ResolvedOf.{term_of};
ghost use Rattle.prem_asm.specs.Pieces.{followed};
ghost use Rattle.prem_asm.specs.PiecesOf.{pieces_of};
ghost use Rattle.prem_layout.specs.Template.Terms.{only, truth_code, term_code};
ghost use Rattle.prem_layout.specs.Template.Limits.{first_place, too_deep};
ghost use Rattle.prem_gen.specs.Term.Numbers.{from_part, HasSmall};
ghost use Rattle.prem_gen.specs.Term.Deep.{Finds};

use crate::term::fail::TermFail;
use crate::term::operator::{
    code_alone, nonzero, op_imm, put_binary, put_constant, put_element, put_local, put_scalar,
    put_truth, put_unary,
};
use prem_asm::{Piece, Sequence, put_choice};
use prem_isa::AluOp;
use prem_plant::Target;
use prem_syntax::Place;
use prem_tree::resolve::Term;
use prem_word::BinOp;
use std::alloc::Global;

/// The first place of those in a term that begin into its register.
fn first_place(term: &Term) -> Place
    ensures { result ≡ first_place (term_of term.now) }
{
    match term {
        Term::Binary { operands, .. } => first_place(&operands.left),
        Term::Constant { at, .. }
        | Term::Local { at, .. }
        | Term::Scalar { at, .. }
        | Term::Element { at, .. }
        | Term::Unary { at, .. } => *at,
    }
}

/// The first place in a term that would go past x21, if it goes into the register r.
#[tactic(auto, using(crate::proofs::TermLemmas::Deep::deep_past))]
pub fn too_deep(term: &Term, r: u8) -> Option<Place>
    ensures { result ≡ too_deep r (term_of term.now) }
{
    if r >= 22 {
        return Some(first_place(term));
    }
    match term {
        Term::Constant { .. } | Term::Local { .. } | Term::Scalar { .. } => None,
        Term::Element { index, .. } => too_deep(index, r),
        Term::Unary { operand, .. } => too_deep(operand, r),
        Term::Binary { op, operands, .. } => {
            if let Some(at) = too_deep(&operands.left, r) {
                return Some(at);
            }
            match op {
                BinOp::AndAlso | BinOp::OrElse => too_deep(&operands.right, r),
                _ => too_deep(&operands.right, r + 1),
            }
        }
    }
}

/// The code of a term, and whether its word isn't 0.
#[cycle(term)]
pub fn truth_of(
    term: &Term,
    alloc: Global,
    target: Target,
    first: u32,
    r: u8,
) -> Result<Sequence<Piece>, TermFail>
    requires small { HasSmall term.now }
    requires first { first < 2 ^ 31 }
    ensures pieces { IfOk result (λ pieces. pieces_of (items_of pieces) ≡ followed (term_code target (from_part first) r (term_of term.now)) (only (truth_code r))) }
    ensures deep { Finds result (too_deep r (term_of term.now)) }
{
    let mut pieces = term_alone(term, alloc, target, first, r)?;
    put_truth(alloc, &mut pieces, r)?;
    Ok(pieces)
}

/// The code of a term alone: its word into the register r.
#[cycle(term)]
pub fn term_alone(
    term: &Term,
    alloc: Global,
    target: Target,
    first: u32,
    r: u8,
) -> Result<Sequence<Piece>, TermFail>
    requires small { HasSmall term.now }
    requires first { first < 2 ^ 31 }
    ensures pieces { IfOk result (λ pieces. pieces_of (items_of pieces) ≡ term_code target (from_part first) r (term_of term.now)) }
    ensures deep { Finds result (too_deep r (term_of term.now)) }
{
    let mut pieces = Sequence::new(alloc);
    put_term(term, alloc, target, first, &mut pieces, r)?;
    Ok(pieces)
}

/// The code of a term behind other code: its word into the register r. A global's part is `first` and its number.
#[cycle(term)]
#[tactic(auto, using(prem_asm::proofs::Rows::followed_append, crate::proofs::TermLemmas::Deep::deep_past))]
pub fn put_term(
    term: &Term,
    alloc: Global,
    target: Target,
    first: u32,
    pieces: &mut Sequence<Piece>,
    r: u8,
) -> Result<(), TermFail>
    requires small { HasSmall term.now }
    requires first { first < 2 ^ 31 }
    ensures pieces { OnOk result (pieces_of (items_of pieces.new) ≡ followed (pieces_of (items_of pieces.old)) (term_code target (from_part first) r (term_of term.now))) }
    ensures deep { Finds result (too_deep r (term_of term.now)) }
{
    if r >= 22 {
        return Err(TermFail::Refused(first_place(term)));
    }
    match term {
        Term::Constant { word, .. } => put_constant(alloc, pieces, r, *word)?,
        Term::Local { number, .. } => put_local(alloc, pieces, r, *number as u32)?,
        Term::Scalar { global, ty, .. } => {
            put_scalar(alloc, pieces, first + *global as u32, *ty, r)?
        }
        Term::Element {
            global,
            ty,
            index,
            ..
        } => {
            put_term(index, alloc, target, first, pieces, r)?;
            put_element(alloc, pieces, first + *global as u32, *ty, r)?
        }
        Term::Unary { op, operand, .. } => {
            put_term(operand, alloc, target, first, pieces, r)?;
            put_unary(alloc, pieces, r, *op)?
        }
        Term::Binary {
            op: BinOp::AndAlso,
            operands,
            ..
        } => {
            put_term(&operands.left, alloc, target, first, pieces, r)?;
            let taken = truth_of(&operands.right, alloc, target, first, r)?;
            put_choice(pieces, nonzero(r), taken, Sequence::new(alloc))?
        }
        Term::Binary {
            op: BinOp::OrElse,
            operands,
            ..
        } => {
            put_term(&operands.left, alloc, target, first, pieces, r)?;
            let other = truth_of(&operands.right, alloc, target, first, r)?;
            let taken = code_alone(alloc, &[op_imm(AluOp::Add, r, 0, 1)])?;
            put_choice(pieces, nonzero(r), taken, other)?
        }
        Term::Binary {
            op,
            kind,
            operands,
            ..
        } => {
            put_term(&operands.left, alloc, target, first, pieces, r)?;
            put_term(&operands.right, alloc, target, first, pieces, r + 1)?;
            put_binary(alloc, pieces, target, *op, *kind, r, r + 1)?
        }
    }
    Ok(())
}
