// The lines of the words of terms.
ghost use Rattle.std.specs.Prelude.{◌≡◌, ◌≤◌, ◌++◌, OnOk};
ghost use Rattle.prem_tree.specs.Resolve.ResolvedOf.{term_of};
ghost use Rattle.prem_asm.specs.Pieces.{words};
ghost use Rattle.prem_layout.specs.Template.Terms.{binary_code, quotient_code};
ghost use Rattle.prem_profile.specs.Lines.Table.{at_line, constant_words, scale_words, term_lines};

use prem_plant::Target;
use prem_syntax::Ty;
use prem_tree::resolve::Term;
use prem_word::{BinOp, Kind};
use std::alloc::AllocError;

/// Puts so many words at a line behind others.
pub fn push_words(lines: &mut Vec<u32>, line: u32, count: u32) -> Result<(), AllocError>
    ensures { OnOk result (lines.new.items ≡ lines.old.items ++ at_line line count) }
{
    'words: for _ in 0..count {
        lines.push(line)?;
    }
    Ok(())
}

/// How many words a constant has.
pub fn constant_words(word: u32) -> u32
    ensures count { result ≡ constant_words word }
    ensures few { result ≤ 2 }
{
    if word < 2048 || word >= 4294965248 {
        1
    } else {
        2
    }
}

/// How many words scale an index.
pub fn scale_words(ty: Ty) -> u32
    ensures count { result ≡ scale_words ty }
    ensures few { result ≤ 1 }
{
    match ty {
        Ty::Schar | Ty::Uchar => 0,
        _ => 1,
    }
}

/// How many words a division has on a core without one.
fn division_words(kind: Kind) -> u32
    ensures { result ≡ words (quotient_code kind 10 11) }
{
    match kind {
        Kind::Int => 28,
        Kind::Unsigned => 21,
    }
}

/// How many words an operator has.
fn operator_words(target: Target, op: BinOp, kind: Kind) -> u32
    ensures { result ≡ words (binary_code target op kind 10 11) }
{
    match (op, target) {
        (BinOp::AndAlso | BinOp::OrElse, _) => 0,
        (BinOp::Le | BinOp::Ge | BinOp::Eq | BinOp::Ne, _) => 2,
        (BinOp::Mul, Target::Rv32i) => 11,
        (BinOp::Div | BinOp::Rem, Target::Rv32i) => division_words(kind),
        _ => 1,
    }
}

/// Puts the lines of a term's words behind others.
pub fn push_term(
    term: &Term,
    target: Target,
    line: u32,
    lines: &mut Vec<u32>,
) -> Result<(), AllocError>
    ensures { OnOk result (lines.new.items ≡ lines.old.items ++ term_lines target line (term_of term.now)) }
{
    match term {
        Term::Constant { word, .. } => push_words(lines, line, constant_words(*word)),
        Term::Local { .. } => push_words(lines, line, 1),
        Term::Scalar { .. } => push_words(lines, line, 3),
        Term::Element { ty, index, .. } => {
            push_term(index, target, line, lines)?;
            push_words(lines, line, scale_words(*ty) + 4)
        }
        Term::Unary { operand, .. } => {
            push_term(operand, target, line, lines)?;
            push_words(lines, line, 1)
        }
        Term::Binary {
            op: BinOp::AndAlso,
            operands,
            ..
        } => {
            push_term(&operands.left, target, line, lines)?;
            push_words(lines, line, 2)?;
            push_term(&operands.right, target, line, lines)?;
            push_words(lines, line, 1)
        }
        Term::Binary {
            op: BinOp::OrElse,
            operands,
            ..
        } => {
            push_term(&operands.left, target, line, lines)?;
            push_words(lines, line, 4)?;
            push_term(&operands.right, target, line, lines)?;
            push_words(lines, line, 1)
        }
        Term::Binary {
            op,
            kind,
            operands,
            ..
        } => {
            push_term(&operands.left, target, line, lines)?;
            push_term(&operands.right, target, line, lines)?;
            push_words(lines, line, operator_words(target, *op, *kind))
        }
    }
}
