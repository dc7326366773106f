// The code of a function of an analysed program.
ghost use Rattle.std.specs.Prelude.{◌≡◌, ◌<◌, ◌^◌, All, length, map, IfOk};
ghost use Rattle.prem_list.specs.Sequence.{items_of};
ghost use Rattle.prem_syntax.specs.SyntaxOf.{program_of};
ghost use Rattle.prem_syntax.specs.Resolve.{functions_of};
ghost use Rattle.prem_tree.specs.Checked.{checked_program};
ghost use Rattle.prem_tree.specs.Resolve.ResolvedOf.{IsResolved};
ghost use Rattle.prem_ranges.specs.RangesKept.{bounded, turn_bounds};
ghost use Rattle.prem_analysis.specs.Analysed.{analysed_text};
ghost use Rattle.prem_asm.specs.PiecesOf.{pieces_of};
ghost use Rattle.prem_layout.specs.Template.Limits.{excess};
ghost use Rattle.prem_layout.specs.Template.Parts.{parts_of, codes_of};
ghost use Rattle.prem_gen.specs.Term.Excess.{Refuses};
ghost use Rattle.prem_gen.specs.Codes.Codes.{code_at, excess_at, CalleesFit};
ghost use Rattle.prem_gen.specs.Compiled.{compiled};

use crate::codes::{FnId, GenFail, codes, function_code};
use prem_analysis::Analysed;
use prem_asm::{Piece, Sequence};
use prem_plant::Target;
use prem_tree::Checked;
use prem_tree::resolve::Resolved;
use std::alloc::{AllocError, Global};

/// Words that are kept as longer numbers. It fails only for want of memory.
pub fn words_of(alloc: Global, numbers: &[u64]) -> Result<Vec<u32>, AllocError>
    requires { All (λ n. n < 2 ^ 32) numbers.now }
    ensures { IfOk result (λ words. words.items ≡ numbers.now) }
{
    let mut words = Vec::new(alloc);
    for number in numbers {
        words.push(*number as u32)?;
    }
    Ok(words)
}

/// The turn bounds of an analysed program's counting loops, in the order of the text.
pub fn turns_of(alloc: Global, a: &Analysed) -> Result<Vec<u32>, AllocError>
    ensures { IfOk result (λ turns. turns.items ≡ turn_bounds (analysed_text a.now)) }
{
    words_of(alloc, a.bounds())
}

/// The code of function f of an analysed program for a target, as pieces.
///
/// `Frame` comes exactly where the function's frame passes 2032 bytes, and `Depth` exactly where it doesn't and an
/// expression needs a register past the twelfth, with the line of the first such expression.
pub fn gen_function(
    alloc: Global,
    a: &Analysed,
    f: FnId,
    target: Target,
) -> Result<Sequence<Piece>, GenFail>
    requires there { f < length (functions_of (analysed_text a.now)) }
    requires callees { CalleesFit (compiled a.now) f }
    ensures code { IfOk result (λ pieces. pieces_of (items_of pieces) ≡ code_at target (compiled a.now) f) }
    ensures excess { Refuses result (excess_at (compiled a.now) f) }
{
    let turns = turns_of(alloc, a)?;
    let checked = a.checked();
    function_code(alloc, checked.program(), turns.as_slice(), f, target)
}

/// The code of all functions of a checked program for a target, in their order. Its names are resolved, and the turn
/// bounds of its counting loops are told.
///
/// `Frame` and `Depth` come exactly where a frame passes 2032 bytes or an expression needs a register past the twelfth; it
/// is the first such function, and of it the frame before its expressions.
pub fn gen_all(
    alloc: Global,
    c: &Checked,
    r: &Resolved<'_>,
    turns: &[u32],
    target: Target,
) -> Result<Sequence<Sequence<Piece>>, GenFail>
    requires resolved { IsResolved r.now (program_of (checked_program c.now)) }
    requires turns { turns.now ≡ turn_bounds (program_of (checked_program c.now)) }
    ensures codes { let p = bounded (program_of (checked_program c.now)) in
        IfOk result (λ codes. map (λ code. pieces_of (items_of code)) (items_of codes) ≡ codes_of (parts_of target p.routines) p.routines) }
    ensures excess { Refuses result (excess (bounded (program_of (checked_program c.now)))) }
{
    let _formed = c.program();
    codes(alloc, r, turns, target)
}
