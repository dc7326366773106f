// The analysis of a program.
ghost use Rattle.std.specs.Prelude.{◌≡◌, IfOk};
ghost use Rattle.prem_syntax.specs.SyntaxOf.{program_of};
ghost use Rattle.prem_syntax.specs.Literals.{ProgramHasWords};
ghost use Rattle.prem_syntax.specs.ProgramRules.{IsWellFormed};
ghost use Rattle.prem_tree.specs.Checked.{checked_program};
ghost use Rattle.prem_tree.specs.Resolve.ResolvedOf.{IsResolved};
ghost use Rattle.prem_ranges.specs.RangesKept.{first_range_breach, turn_bounds};
ghost use Rattle.prem_analysis.specs.Ranging.View.{found_of};
ghost use Rattle.prem_analysis.specs.Told.{AreBounds, IsAnswer};

use crate::analysed::Analysed;
use crate::fail::RangeFail;
use crate::marks::marked_of;
use crate::telling::told;
use crate::{Seen, see_program};
use prem_syntax::have_words;
use prem_tree::resolve::{Resolved, resolve};
use prem_tree::{Checked, Program};
use std::alloc::{AllocError, Global};

/// The first broken rule on ranges of a program whose names resolve so, and its turn bounds.
#[tactic(auto, using(crate::proofs::Programs::all_ranged, crate::proofs::Programs::is_first_range_breach, crate::proofs::Programs::are_turn_bounds))]
fn see(alloc: Global, p: &Program, r: &Resolved<'_>) -> Result<Seen, AllocError>
    requires formed { IsWellFormed (program_of p.now) }
    requires words { ProgramHasWords (program_of p.now) }
    requires resolved { IsResolved r.now (program_of p.now) }
    ensures found { IfOk result (λ s. found_of s.found ≡ first_range_breach (program_of p.now)) }
    ensures turns { IfOk result (λ s. s.turns.items ≡ turn_bounds (program_of p.now)) }
{
    let marked = marked_of(alloc, r)?;
    let seen = see_program(alloc, r, &marked)?;
    Ok(seen)
}

/// The turn bounds of the counting loops of a program whose names resolve so, in the order of the text, each of which is a
/// word; or the first rule on ranges that the program breaks.
///
/// The refusals are those of `analyse`. `OutOfMemory` comes only for want of memory.
pub fn bounds_of(alloc: Global, c: &Checked, r: &Resolved<'_>) -> Result<Vec<u64>, RangeFail>
    requires { IsResolved r.now (program_of (checked_program c.now)) }
    ensures { AreBounds (program_of (checked_program c.now)) result }
{
    let program = c.program();
    have_words(program);
    let seen = see(alloc, program, r)?;
    match seen.found {
        Some(broken) => Err(told(broken)),
        None => Ok(seen.turns),
    }
}

/// The same of a program whose names are resolved for it.
fn bounds(alloc: Global, c: &Checked) -> Result<Vec<u64>, RangeFail>
    ensures { AreBounds (program_of (checked_program c.now)) result }
{
    let program = c.program();
    let resolved = resolve(alloc, program)?;
    bounds_of(alloc, c, &resolved)
}

/// Analyses a program: which values its expressions can have, and how many turns its loops take at most.
///
/// Gives the program as an analysed one where it breaks no rule on ranges; such a program never goes wrong. Else it is dropped,
/// and the refusal is the first rule that it breaks: by place, then in the order in which `RangeFail` lists them.
/// `OutOfMemory` comes only for want of memory.
pub fn analyse(alloc: Global, c: Checked) -> Result<Analysed, RangeFail>
    ensures { IsAnswer c result }
{
    let program = c.program();
    have_words(program);
    let turns = bounds(alloc, &c)?;
    Ok(Analysed::adopt(c, turns))
}
