// The rules that a call can break.
ghost use Rattle.std.specs.Prelude.{◌≡◌, map, slice_get, IfOk, OnOk};
ghost use Rattle.std.specs.Option.{option_map};
ghost use Rattle.prem_word.specs.Ranges.{from_to, encloses};
ghost use Rattle.prem_syntax.specs.SyntaxOf.{parameter_of};
ghost use Rattle.prem_syntax.specs.Source.{unlimited};
ghost use Rattle.prem_tree.specs.Resolve.ResolvedOf.{term_of, routines_of};
ghost use Rattle.prem_ranges.specs.RangeRules.{first_of};
ghost use Rattle.prem_ranges.specs.RangeBreaches.{in_stated, in_argument, in_arguments, parameters_of};
ghost use Rattle.prem_analysis.specs.Ranging.View.{span_of, env_of, found_of};
ghost use Rattle.prem_analysis.specs.Ranging.SiteOf.{site_of};
ghost use Rattle.prem_analysis.specs.Arms.{in_given};

use crate::ranging::{
    Broken, Known, Range, Rule, Site, convert, earlier, if_at, in_term, range_of,
};
use prem_syntax::{Param, Place};
use prem_tree::resolve::{Routine, Term, promoted};
use std::alloc::{AllocError, Global};

fn is_inside(r: Range, stated: (i64, i64)) -> bool
    ensures { result ≡ encloses (from_to stated.0 stated.1) (span_of r) }
{
    stated.0 <= r.lo && r.hi <= stated.1
}

fn in_stated(at: Place, r: Range, stated: Option<(i64, i64)>) -> Option<Broken>
    ensures { found_of result ≡ first_of (in_stated at (span_of r) stated) }
{
    match stated {
        Some(stated) => if_at(
            !is_inside(r, stated),
            at,
            Rule::ArgRange { range: r, stated },
        ),
        None => None,
    }
}

fn in_argument(at: Place, env: &[Known], e: &Term, p: &Param) -> Option<Broken>
    ensures { found_of result ≡ first_of (in_argument at (env_of env.now) (term_of e.now) (parameter_of p.now)) }
{
    in_stated(at, convert(promoted(p.ty), range_of(env, e)), p.range)
}

fn in_given(at: Place, env: &[Known], e: &Term, ps: &[Param], i: usize) -> Option<Broken>
    ensures { found_of result ≡ first_of (in_given at (env_of env.now) (term_of e.now) (option_map parameter_of (slice_get ps.now i))) }
{
    match ps.get(i) {
        Some(p) => in_argument(at, env, e, p),
        None => None,
    }
}

/// The first rule that arguments break. What is known stays the same.
pub fn in_arguments(
    alloc: Global,
    at: Place,
    site: &Site,
    env: &mut [Known],
    es: &[Term],
    ps: &[Param],
) -> Result<Option<Broken>, AllocError>
    ensures env { OnOk result (env_of env.new ≡ env_of env.old) }
    ensures found { IfOk result (λ found. found_of found ≡ first_of (in_arguments at (site_of site.now) (env_of env.old) (map term_of es.now) (map parameter_of ps.now))) }
{
    let mut found = None;
    for i in 0..es.len() {
        let e = &es[i];
        found = earlier(found, in_given(at, env, e, ps, i));
        found = earlier(found, in_term(alloc, site, env, e)?);
    }
    Ok(found)
}

/// The parameters of a function.
pub fn parameters_of<'a, 'p>(routines: &'a [Routine<'p>], f: usize) -> &'a [Param]
    ensures { map parameter_of result.now ≡ parameters_of (slice_get (routines_of unlimited.turns 0 routines.now) f) }
{
    match routines.get(f) {
        Some(routine) => routine.text.params.items(),
        None => &[],
    }
}
