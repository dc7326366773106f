// The walk over a program.
ghost use Rattle.std.specs.Prelude.{◌≡◌, ◌<◌, None, IfOk, OnOk};
ghost use Rattle.std.specs.List.{flat_map};
ghost use Rattle.prem_list.specs.Sequence.{items_of};
ghost use Rattle.prem_syntax.specs.Source.{unlimited};
ghost use Rattle.prem_tree.specs.Resolve.ResolvedOf.{resolved_of};
ghost use Rattle.prem_ranges.specs.After.{bounds_in};
ghost use Rattle.prem_ranges.specs.RangeRules.{first_of};
ghost use Rattle.prem_ranges.specs.RangeBreaches.{range_breaches};
ghost use Rattle.prem_analysis.specs.Ranging.View.{found_of};
ghost use Rattle.prem_analysis.specs.Ranging.SiteOf.{AreWatched};
ghost use Rattle.prem_analysis.specs.Seen.{seen_of};
ghost use Rattle.prem_analysis.specs.Functions.{site_at, behind_routines, AllRanged};

use crate::ranging::{Marked, Site};
use crate::routine::walk_routine;
use crate::seen::Seen;
use prem_syntax::Global;
use prem_tree::resolve::{Resolved, Routine};
use std::alloc::{AllocError, Global as Allocator};

/// Walks over all functions, in the order of the text.
pub fn walk_routines<'a, 'p>(
    alloc: Allocator,
    globals: &'a [&'p Global],
    routines: &'a [Routine<'p>],
    marked: &'a [Marked],
    seen: &mut Seen,
) -> Result<(), AllocError>
    requires { AllRanged routines.now }
    ensures { OnOk result (seen_of seen.new ≡ behind_routines (site_at globals.now routines.now marked.now) 0 routines.now (seen_of seen.old)) }
{
    for n in 0..routines.len() {
        let site = Site {
            globals,
            routines,
            marked,
            number: n,
        };
        walk_routine(alloc, &site, seen, &routines[n])?;
    }
    Ok(())
}

/// Walks over a program whose marked functions are known: gives its first broken rule and its turn bounds.
pub fn see_program<'a, 'p>(
    alloc: Allocator,
    r: &'a Resolved<'p>,
    marked: &'a [Marked],
) -> Result<Seen, AllocError>
    requires ranged { AllRanged (items_of r.now.routines) }
    requires watched { AreWatched r.now marked.now }
    ensures found { IfOk result (λ s. found_of s.found ≡ first_of (range_breaches (resolved_of unlimited.turns r.now))) }
    ensures turns { IfOk result (λ s. s.turns.items ≡ flat_map bounds_in (resolved_of unlimited.turns r.now).routines) }
{
    let mut seen = Seen {
        turns: Vec::new(alloc),
        found: None,
    };
    walk_routines(alloc, &r.globals, r.routines.items(), marked, &mut seen)?;
    Ok(seen)
}
