// The walk over a function.
ghost use Rattle.std.specs.Prelude.{◌≡◌, ◌++◌, [], ◌∷◌, map, IfOk, OnOk};
ghost use Rattle.std.specs.Option.{option_map};
ghost use Rattle.prem_word.specs.Ranges.{IsRange};
ghost use Rattle.prem_syntax.specs.SyntaxOf.{parameter_of, local_of, function_of};
ghost use Rattle.prem_syntax.specs.Resolve.{promoted};
ghost use Rattle.prem_tree.specs.Resolve.ResolvedOf.{term_of};
ghost use Rattle.prem_ranges.specs.After.{stated_or_whole, known_parameter, known_local, declared};
ghost use Rattle.prem_ranges.specs.RangeRules.{first_of};
ghost use Rattle.prem_ranges.specs.RangeBreaches.{in_locals, in_result};
ghost use Rattle.prem_ranges.specs.Sound.{Ranged};
ghost use Rattle.prem_analysis.specs.Ranging.View.{span_of, known_of, env_of};
ghost use Rattle.prem_analysis.specs.Ranging.SiteOf.{site_of};
ghost use Rattle.prem_analysis.specs.Seen.{seen_of, noted};
ghost use Rattle.prem_analysis.specs.Arms.{at_term};
ghost use Rattle.prem_analysis.specs.Functions.{plain_routine, behind_routine};

use crate::loops::look;
use crate::ranging::{Known, Range, Site, convert, range_of, whole_range};
use crate::seen::Seen;
use crate::steps::walk;
use prem_syntax::{Local, Param};
use prem_tree::resolve::{Routine, Term, promoted};
use prem_word::Kind;
use std::alloc::{AllocError, Global};

fn stated(k: Kind, range: Option<(i64, i64)>) -> Range
    requires { IsRange k (stated_or_whole k range) }
    ensures { span_of result ≡ stated_or_whole k range }
{
    match range {
        Some((lo, hi)) => Range { lo, hi },
        None => whole_range(k),
    }
}

fn parameter(p: &Param) -> Known
    requires { IsRange (promoted p.now.ty) (stated_or_whole (promoted p.now.ty) p.now.range) }
    ensures { known_of result ≡ known_parameter (parameter_of p.now) }
{
    let kind = promoted(p.ty);
    Known {
        kind,
        range: stated(kind, p.range),
    }
}

/// What is known of parameters.
fn parameters(alloc: Global, ps: &[Param]) -> Result<Vec<Known>, AllocError>
    requires { Ranged (map known_parameter (map parameter_of ps.now)) }
    ensures { IfOk result (λ env. env_of env.items ≡ map known_parameter (map parameter_of ps.now)) }
{
    let mut env = Vec::new(alloc);
    for p in ps {
        env.push(parameter(p))?;
    }
    Ok(env)
}

fn known_local(env: &[Known], l: &Local, e: &Term) -> Known
    ensures { known_of result ≡ known_local (env_of env.now) (local_of l.now) (term_of e.now) }
{
    let kind = promoted(l.ty);
    Known {
        kind,
        range: convert(kind, range_of(env, e)),
    }
}

fn declare(
    alloc: Global,
    site: &Site,
    env: &mut Vec<Known>,
    seen: &mut Seen,
    l: &Local,
    e: &Term,
) -> Result<(), AllocError>
    ensures env { OnOk result (env_of env.new.items ≡ env_of env.old.items ++ known_local (env_of env.old.items) (local_of l.now) (term_of e.now) ∷ []) }
    ensures seen { OnOk result (seen_of seen.new ≡ at_term (site_of site.now) (env_of env.old.items) (term_of e.now) (seen_of seen.old)) }
{
    look(alloc, site, env, seen, e)?;
    let local = known_local(env, l, e);
    env.push(local)?;
    Ok(())
}

/// Locals with their initialisers, in order.
pub fn declare_all(
    alloc: Global,
    site: &Site,
    env: &mut Vec<Known>,
    seen: &mut Seen,
    ls: &[Local],
    es: &[Term],
) -> Result<(), AllocError>
    ensures env { OnOk result (env_of env.new.items ≡ declared (env_of env.old.items) (map local_of ls.now) (map term_of es.now)) }
    ensures seen { OnOk result (seen_of seen.new ≡ noted (first_of (in_locals (site_of site.now) (env_of env.old.items) (map local_of ls.now) (map term_of es.now))) (seen_of seen.old)) }
{
    for i in 0..es.len() {
        if i >= ls.len() {
            return Ok(());
        }
        declare(alloc, site, env, seen, &ls[i], &es[i])?;
    }
    Ok(())
}

/// A function's result is looked at, if it has one.
pub fn see_result(
    alloc: Global,
    site: &Site,
    env: &mut Vec<Known>,
    seen: &mut Seen,
    value: &Option<Term>,
) -> Result<(), AllocError>
    ensures { OnOk result (seen_of seen.new ≡ noted (first_of (in_result (site_of site.now) (env_of env.old.items) (option_map term_of value.now))) (seen_of seen.old)) }
{
    match value {
        Some(e) => look(alloc, site, env, seen, e),
        None => Ok(()),
    }
}

/// Walks over a function.
pub fn walk_routine(
    alloc: Global,
    site: &Site,
    seen: &mut Seen,
    f: &Routine,
) -> Result<(), AllocError>
    requires { Ranged (map known_parameter (function_of f.now.text.now).params) }
    ensures { OnOk result (seen_of seen.new ≡ behind_routine (site_of site.now) (plain_routine f.now) (seen_of seen.old)) }
{
    let mut env = parameters(alloc, f.text.params.items())?;
    declare_all(
        alloc,
        site,
        &mut env,
        seen,
        f.text.locals.items(),
        f.locals.items(),
    )?;
    walk(alloc, site, 1, &mut env, seen, &f.body)?;
    see_result(alloc, site, &mut env, seen, &f.result)?;
    Ok(())
}
