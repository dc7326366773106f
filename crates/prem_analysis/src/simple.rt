// Steps without steps in them.
ghost use Rattle.std.specs.Prelude.{◌≡◌, ◌++◌, map, slice_get, OnOk};
ghost use Rattle.prem_tree.specs.Resolve.ResolvedOf.{term_of};
ghost use Rattle.prem_ranges.specs.Environment.{at_local, assigned};
ghost use Rattle.prem_ranges.specs.RangeOf.{range_of};
ghost use Rattle.prem_ranges.specs.After.{behind_call};
ghost use Rattle.prem_ranges.specs.RangeBreaches.{in_term, in_scalar, in_element, in_arguments, parameters_of};
ghost use Rattle.prem_analysis.specs.Ranging.View.{env_of};
ghost use Rattle.prem_analysis.specs.Ranging.SiteOf.{site_of};
ghost use Rattle.prem_analysis.specs.Seen.{seen_of, looked};

use crate::call::{in_arguments, parameters_of};
use crate::known::{at_return, at_value};
use crate::loops::look;
use crate::ranging::{Known, Site, in_element, in_scalar, range_of};
use crate::seen::Seen;
use prem_syntax::Place;
use prem_tree::resolve::Term;
use std::alloc::{AllocError, Global};

#[tactic(auto, using(crate::proofs::Behind::looked_one))]
pub fn output(
    alloc: Global,
    site: &Site,
    env: &mut Vec<Known>,
    seen: &mut Seen,
    value: &Term,
) -> Result<(), AllocError>
    ensures env { OnOk result (env_of env.new.items ≡ env_of env.old.items) }
    ensures seen { OnOk result (seen_of seen.new ≡ looked (in_term (site_of site.now) (env_of env.old.items) (term_of value.now)) (seen_of seen.old)) }
{
    look(alloc, site, env, seen, value)?;
    Ok(())
}

pub fn set_local(
    alloc: Global,
    site: &Site,
    env: &mut Vec<Known>,
    seen: &mut Seen,
    k: usize,
    value: &Term,
) -> Result<(), AllocError>
    ensures env { OnOk result (env_of env.new.items ≡ at_local k (assigned (range_of (env_of env.old.items) (term_of value.now))) (env_of env.old.items)) }
    ensures seen { OnOk result (seen_of seen.new ≡ looked (in_term (site_of site.now) (env_of env.old.items) (term_of value.now)) (seen_of seen.old)) }
{
    output(alloc, site, env, seen, value)?;
    let r = range_of(env, value);
    at_value(env, k, r);
    Ok(())
}

#[tactic(auto, using(crate::proofs::Behind::looked_two))]
pub fn set_scalar(
    alloc: Global,
    site: &Site,
    env: &mut Vec<Known>,
    seen: &mut Seen,
    at: Place,
    g: usize,
    value: &Term,
) -> Result<(), AllocError>
    ensures env { OnOk result (env_of env.new.items ≡ env_of env.old.items) }
    ensures seen { OnOk result (seen_of seen.new ≡ looked (in_scalar (site_of site.now) at g ++ in_term (site_of site.now) (env_of env.old.items) (term_of value.now)) (seen_of seen.old)) }
{
    seen.note(in_scalar(site, at, g));
    look(alloc, site, env, seen, value)?;
    Ok(())
}

#[tactic(auto, using(crate::proofs::Behind::looked_three))]
pub fn set_element(
    alloc: Global,
    site: &Site,
    env: &mut Vec<Known>,
    seen: &mut Seen,
    at: Place,
    g: usize,
    index: &Term,
    value: &Term,
) -> Result<(), AllocError>
    ensures env { OnOk result (env_of env.new.items ≡ env_of env.old.items) }
    ensures seen { OnOk result (seen_of seen.new ≡ looked (in_element (site_of site.now) at g (range_of (env_of env.old.items) (term_of index.now)) ++ in_term (site_of site.now) (env_of env.old.items) (term_of index.now) ++ in_term (site_of site.now) (env_of env.old.items) (term_of value.now)) (seen_of seen.old)) }
{
    seen.note(in_element(site, at, g, range_of(env, index)));
    look(alloc, site, env, seen, index)?;
    look(alloc, site, env, seen, value)?;
    Ok(())
}

#[tactic(auto, using(crate::proofs::Behind::looked_one))]
fn arguments(
    alloc: Global,
    site: &Site,
    env: &mut Vec<Known>,
    seen: &mut Seen,
    at: Place,
    f: usize,
    es: &[Term],
) -> Result<(), AllocError>
    ensures env { OnOk result (env_of env.new.items ≡ env_of env.old.items) }
    ensures seen { OnOk result (seen_of seen.new ≡ looked (in_arguments at (site_of site.now) (env_of env.old.items) (map term_of es.now) (parameters_of (slice_get (site_of site.now).routines f))) (seen_of seen.old)) }
{
    seen.note(in_arguments(alloc, at, site, env, es, parameters_of(site.routines, f))?);
    Ok(())
}

pub fn call(
    alloc: Global,
    site: &Site,
    env: &mut Vec<Known>,
    seen: &mut Seen,
    at: Place,
    target: Option<usize>,
    f: usize,
    es: &[Term],
) -> Result<(), AllocError>
    ensures env { OnOk result (env_of env.new.items ≡ behind_call target (env_of env.old.items)) }
    ensures seen { OnOk result (seen_of seen.new ≡ looked (in_arguments at (site_of site.now) (env_of env.old.items) (map term_of es.now) (parameters_of (slice_get (site_of site.now).routines f))) (seen_of seen.old)) }
{
    arguments(alloc, site, env, seen, at, f, es)?;
    at_return(env, target);
    Ok(())
}
