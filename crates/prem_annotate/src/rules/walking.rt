// The walk over a function with other ranges of its parameters than those that stand.
ghost use Rattle.std.specs.Prelude.{◌≡◌, map, IfOk};
ghost use Rattle.prem_syntax.specs.SyntaxOf.{function_of};
ghost use Rattle.prem_ranges.specs.After.{known_parameter};
ghost use Rattle.prem_ranges.specs.RangeRules.{first_of};
ghost use Rattle.prem_ranges.specs.RangeBreaches.{in_routine};
ghost use Rattle.prem_ranges.specs.Sound.{Ranged};
ghost use Rattle.prem_analysis.specs.Ranging.View.{found_of};
ghost use Rattle.prem_analysis.specs.Ranging.SiteOf.{site_of};
ghost use Rattle.prem_analysis.specs.Functions.{plain_routine};
ghost use Rattle.prem_annotate.specs.Ranges.Slots.{slot_of};
ghost use Rattle.prem_annotate.specs.Rules.First.{routine_with};

use crate::ranges::{ParameterRange, known_parameters};
use prem_analysis::ranging::{Broken, Site};
use prem_analysis::{Seen, declare_all, see_result, walk};
use prem_tree::resolve::Routine;
use std::alloc::{AllocError, Global};

/// The first rule that a function breaks whose parameters have the ranges that stand, or else those that are given.
pub fn in_routine(
    alloc: Global,
    site: &Site,
    row: &[ParameterRange],
    f: &Routine,
) -> Result<Option<Broken>, AllocError>
    requires { Ranged (map known_parameter (function_of f.now.text.now).params) }
    ensures { IfOk result (λ found. found_of found ≡ first_of (in_routine (site_of site.now) (routine_with (map slot_of row.now) (plain_routine f.now)))) }
{
    let mut env = known_parameters(alloc, row, f.text.params.items())?;
    let mut seen = Seen {
        turns: Vec::new(alloc),
        found: None,
    };
    declare_all(
        alloc,
        site,
        &mut env,
        &mut seen,
        f.text.locals.items(),
        f.locals.items(),
    )?;
    walk(alloc, site, 1, &mut env, &mut seen, &f.body)?;
    see_result(alloc, site, &mut env, &mut seen, &f.result)?;
    Ok(seen.found)
}
