// The first rule that functions break, looked at from the last to the first.
ghost use Rattle.std.specs.Prelude.{◌≡◌, map, IfOk};
ghost use Rattle.prem_list.specs.Sequence.{items_of};
ghost use Rattle.prem_syntax.specs.SyntaxOf.{global_of, program_of};
ghost use Rattle.prem_syntax.specs.Source.{unlimited};
ghost use Rattle.prem_tree.specs.Checked.{checked_program};
ghost use Rattle.prem_tree.specs.Resolve.ResolvedOf.{routines_of, resolved_of};
ghost use Rattle.prem_ranges.specs.RangeRules.{first_of};
ghost use Rattle.prem_annotating.specs.Annotated.{first_other};
ghost use Rattle.prem_analysis.specs.Ranging.View.{found_of};
ghost use Rattle.prem_analysis.specs.Functions.{plain_routine, AllRanged};
ghost use Rattle.prem_annotate.specs.Rules.First.{breaches_among, first_in, TellableIf};

use crate::ranges::{add_all, empty_rows, regard};
use crate::rules::walking::in_routine;
use prem_analysis::ranging::{Broken, Site, earlier};
use prem_syntax::{Global, have_words};
use prem_tree::Checked;
use prem_tree::resolve::{Resolved, Routine, resolve};
use std::alloc::{AllocError, Global as Allocator};

/// The first rule that functions break over which no marked one watches, where each has its new ranges.
fn first_among<'a, 'p>(
    alloc: Allocator,
    globals: &'a [&'p Global],
    routines: &'a [Routine<'p>],
) -> Result<Option<Broken>, AllocError>
    requires { AllRanged routines.now }
    ensures { IfOk result (λ found. found_of found ≡ first_of (breaches_among (map (λ g. global_of g.now) globals.now) (routines_of unlimited.turns 0 routines.now) 0 (map plain_routine routines.now))) }
{
    let mut rows = empty_rows(alloc, routines)?;
    let mut first = None;
    let mut n = routines.len();
    while n > 0 {
        n -= 1;
        let site = Site {
            globals,
            routines,
            marked: &[],
            number: n,
        };
        let own = in_routine(alloc, &site, &rows[n], &routines[n])?;
        first = earlier(own, first);
        let found = regard(alloc, &rows[n], &routines[n])?;
        add_all(&mut rows, &found.sight.arguments);
    }
    Ok(first)
}

/// The same of a program whose names are resolved.
fn first_in(alloc: Allocator, r: &Resolved) -> Result<Option<Broken>, AllocError>
    requires { AllRanged (items_of r.now.routines) }
    ensures { IfOk result (λ found. found_of found ≡ first_in (resolved_of unlimited.turns r.now) (map plain_routine (items_of r.now.routines))) }
{
    let found = first_among(alloc, &r.globals, r.routines.items())?;
    Ok(found)
}

/// The first rule on ranges but for regions that a program breaks when its parameters have their new ranges. It fails only for want
/// of memory.
pub fn first_other(alloc: Allocator, c: &Checked) -> Result<Option<Broken>, AllocError>
    ensures found { IfOk result (λ found. found_of found ≡ first_other (program_of (checked_program c.now))) }
    ensures tellable { IfOk result (λ found. TellableIf (found_of found)) }
{
    let program = c.program();
    have_words(program);
    let resolved = resolve(alloc, program)?;
    let found = first_in(alloc, &resolved)?;
    Ok(found)
}
