// The code of an expression of an analysed program.
ghost use Rattle.std.specs.Prelude.{◌≡◌, ◌<◌, ◌≤◌, IfOk, length};
ghost use Rattle.prem_list.specs.Sequence.{items_of};
ghost use Rattle.prem_syntax.specs.SyntaxOf.{expression_of, program_of};
ghost use Rattle.prem_syntax.specs.ProgramRules.{IsWellFormed};
ghost use Rattle.prem_syntax.specs.Resolve.{functions_of};
ghost use Rattle.prem_tree.specs.Resolve.ResolvedOf.{term_of};
ghost use Rattle.prem_analysis.specs.Analysed.{analysed_text};
ghost use Rattle.prem_asm.specs.PiecesOf.{pieces_of};
ghost use Rattle.prem_gen.specs.Term.Excess.{Refuses};
ghost use Rattle.prem_gen.specs.Term.Numbers.{HasSmall};
ghost use Rattle.prem_expr.specs.Scope.{frame_in, term_in};
ghost use Rattle.prem_expr.specs.Code.{expression_code, expression_excess};

use crate::face::frame;
use crate::marks::first_global;
use crate::names::names_in;
use prem_analysis::Analysed;
use prem_asm::{Piece, Sequence};
use prem_gen::term::{GenFail, gen_fail, term_alone};
use prem_plant::Target;
use prem_syntax::{Expr, Program};
use prem_tree::resolve::{Term, resolve_term};
use prem_word::FnId;
use std::alloc::{AllocError, Global};

/// The greatest number of bytes of a frame.
const GREATEST_FRAME: u64 = 2032;

/// The register of the first value of an expression.
const FIRST_VALUE: u8 = 10;

/// An expression in function f with its names resolved. Locals and globals are few where the frame may be.
#[tactic(auto, using(crate::proofs::Few::resolved_small))]
fn term_in(alloc: Global, p: &Program, f: FnId, e: &Expr) -> Result<Term, AllocError>
    requires formed { IsWellFormed (program_of p.now) }
    requires frame { frame_in (program_of p.now) f ≤ 2032 }
    ensures term { IfOk result (λ t. term_of t ≡ term_in (program_of p.now) f (expression_of e.now)) }
    ensures small { IfOk result HasSmall }
{
    let names = names_in(alloc, p, f)?;
    resolve_term(alloc, &names, e)
}

/// The code of an expression that stands in function f, for a target: its word comes into the k-th register of values, which is x10 for 0.
///
/// `Frame` comes exactly where the function's frame passes 2032 bytes, and `Depth` exactly where it doesn't and a register
/// past the twelfth is needed, with the line of the first place that needs it.
pub fn eval(
    alloc: Global,
    a: &Analysed,
    f: FnId,
    e: &Expr,
    k: u8,
    target: Target,
) -> Result<Sequence<Piece>, GenFail>
    requires there { f < length (functions_of (analysed_text a.now)) }
    requires register { k ≤ 12 }
    ensures code { IfOk result (λ pieces. pieces_of (items_of pieces) ≡ expression_code target (analysed_text a.now) f (expression_of e.now) k) }
    ensures excess { Refuses result (expression_excess (analysed_text a.now) f (expression_of e.now) k) }
{
    if frame(a, f) > GREATEST_FRAME {
        return Err(GenFail::Frame { function: f });
    }
    let program = a.checked().program();
    let term = term_in(alloc, program, f, e)?;
    let first = first_global(program);
    match term_alone(&term, alloc, target, first, FIRST_VALUE + k) {
        Ok(pieces) => Ok(pieces),
        Err(fail) => Err(gen_fail(fail)),
    }
}
