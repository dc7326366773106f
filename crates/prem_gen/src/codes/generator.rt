// The code of functions, each by its number.
ghost use Rattle.std.specs.Prelude.{◌≡◌, ◌≤◌, ◌<◌, ◌+◌, ◌^◌, take, map, length, slice_index, IfOk};
ghost use Rattle.prem_list.specs.Sequence.{items_of};
ghost use Rattle.prem_syntax.specs.SyntaxOf.{program_of};
ghost use Rattle.prem_syntax.specs.ProgramRules.{IsWellFormed};
ghost use Rattle.prem_syntax.specs.Resolve.{functions_of, resolve};
ghost use Rattle.prem_tree.specs.Resolve.ResolvedOf.{all_loops, item_loops, resolved_of};
ghost use Rattle.prem_asm.specs.PiecesOf.{pieces_of};
ghost use Rattle.prem_layout.specs.Template.Limits.{excess};
ghost use Rattle.prem_layout.specs.Template.Parts.{parts_of, codes_of};
ghost use Rattle.prem_gen.specs.Term.Excess.{Refuses};
ghost use Rattle.prem_gen.specs.Table.Table.{callees_from};
ghost use Rattle.prem_gen.specs.Codes.Codes.{code_at, excess_at, FunctionsSmall, CalleesFit};

use crate::codes::loops::{loops, loops_of_all};
use crate::routine::{Callee, Task, code_of};
use crate::table::{callees, first_global};
use crate::term::{FnId, GenFail};
use prem_asm::{Piece, Sequence};
use prem_plant::Target;
use prem_syntax::Program;
use prem_tree::resolve::{Resolved, resolve};
use std::alloc::Global;

/// The code of function f of a program, whose counting loops have these turn bounds and whose first one in f has number
/// `turn`. The table of callees is that of the program's functions.
///
/// `Frame` comes exactly where the function's frame passes 2032 bytes, and `Depth` exactly where it doesn't and an
/// expression needs a register past the twelfth, with the line of the first such expression.
pub fn code_at(
    alloc: Global,
    r: &Resolved<'_>,
    turns: &[u32],
    table: &[Callee],
    f: FnId,
    turn: usize,
    target: Target,
) -> Result<Sequence<Piece>, GenFail>
    requires table { table.now ≡ callees_from (1 + length (items_of r.now.routines)) 0 (items_of r.now.routines) }
    requires small { FunctionsSmall (resolved_of (slice_index turns.now) r.now) }
    requires few { length (items_of r.now.routines) ≤ 256 }
    requires there { f < length (items_of r.now.routines) }
    requires turn { turn ≡ all_loops (take f (items_of r.now.routines)) }
    requires loops { all_loops (items_of r.now.routines) < 2 ^ 64 }
    requires callees { CalleesFit (resolved_of (slice_index turns.now) r.now) f }
    ensures code { IfOk result (λ pieces. pieces_of (items_of pieces) ≡ code_at target (resolved_of (slice_index turns.now) r.now) f) }
    ensures excess { Refuses result (excess_at (resolved_of (slice_index turns.now) r.now) f) }
{
    let routines = r.routines.items();
    let task = Task {
        alloc,
        target,
        first: first_global(routines),
        turns,
        callees: table,
    };
    code_of(&task, &routines[f as usize], f, turn)
}

/// The code of all functions of a program in their order, whose counting loops have these turn bounds.
///
/// `Frame` and `Depth` come exactly where a frame passes 2032 bytes or an expression needs a register past the twelfth; it
/// is the first such function, and of it the frame before its expressions.
pub fn codes(
    alloc: Global,
    r: &Resolved<'_>,
    turns: &[u32],
    target: Target,
) -> Result<Sequence<Sequence<Piece>>, GenFail>
    requires small { FunctionsSmall (resolved_of (slice_index turns.now) r.now) }
    requires few { length (items_of r.now.routines) ≤ 256 }
    requires loops { all_loops (items_of r.now.routines) < 2 ^ 64 }
    ensures codes { IfOk result (λ codes. map (λ code. pieces_of (items_of code)) (items_of codes) ≡ codes_of (parts_of target (resolved_of (slice_index turns.now) r.now).routines) (resolved_of (slice_index turns.now) r.now).routines) }
    ensures excess { Refuses result (excess (resolved_of (slice_index turns.now) r.now)) }
{
    let routines = r.routines.items();
    let table = callees(alloc, routines)?;
    let mut codes = Sequence::new(alloc);
    let mut turn = 0;
    let mut f = 0;
    for routine in routines {
        match code_at(alloc, r, turns, table.as_slice(), f, turn, target) {
            Ok(code) => codes.push(code)?,
            Err(e) => return Err(e),
        }
        turn += loops(&routine.body);
        f += 1;
    }
    Ok(codes)
}

/// The code of function f of a well-formed program, whose counting loops have these turn bounds.
pub fn function_code(
    alloc: Global,
    p: &Program,
    turns: &[u32],
    f: FnId,
    target: Target,
) -> Result<Sequence<Piece>, GenFail>
    requires formed { IsWellFormed (program_of p.now) }
    requires there { f < length (functions_of (program_of p.now)) }
    requires loops { item_loops (program_of p.now) < 2 ^ 64 }
    requires callees { CalleesFit (resolve (slice_index turns.now) (program_of p.now)) f }
    ensures code { IfOk result (λ pieces. pieces_of (items_of pieces) ≡ code_at target (resolve (slice_index turns.now) (program_of p.now)) f) }
    ensures excess { Refuses result (excess_at (resolve (slice_index turns.now) (program_of p.now)) f) }
{
    let resolved = resolve(alloc, p)?;
    let routines = resolved.routines.items();
    let table = callees(alloc, routines)?;
    let turn = loops_of_all(&routines[..f as usize]);
    code_at(alloc, &resolved, turns, table.as_slice(), f, turn, target)
}
