// Steps without steps in them.
ghost use Rattle.std.specs.Prelude.{◌≡◌, ◌++◌, [], ◌∷◌, pos, map, OnOk};
ghost use Rattle.prem_word.specs.Ranges.{exactly};
ghost use Rattle.prem_tree.specs.Resolve.ResolvedOf.{term_of};
ghost use Rattle.prem_ranges.specs.Environment.{at_local, assigned};
ghost use Rattle.prem_ranges.specs.RangeOf.{range_of};
ghost use Rattle.prem_ranges.specs.After.{behind_call};
ghost use Rattle.prem_annotating.specs.Seen.{touch, touched_by, touched_by_all};
ghost use Rattle.prem_analysis.specs.Ranging.View.{env_of};
ghost use Rattle.prem_annotate.specs.Seeing.Sight.{argument, sight_of, both};
ghost use Rattle.prem_annotate.specs.Seeing.Walk.{arguments_from, looked, called};

use crate::seeing::expression::look;
use crate::seeing::sight::Sight;
use prem_analysis::known::{at_return, at_value};
use prem_analysis::ranging::{Known, Range, range_of};
use prem_syntax::Place;
use prem_tree::resolve::Term;
use std::alloc::{AllocError, Global};

#[tactic(auto, using(crate::proofs::Sights::looked_one))]
pub fn output(
    alloc: Global,
    env: &mut Vec<Known>,
    sight: &mut Sight,
    value: &Term,
) -> Result<(), AllocError>
    ensures env { OnOk result (env_of env.new.items ≡ env_of env.old.items) }
    ensures sight { OnOk result (sight_of sight.new ≡ looked (touched_by (env_of env.old.items) (term_of value.now)) (sight_of sight.old)) }
{
    look(alloc, env, sight, value)?;
    Ok(())
}

pub fn set_local(
    alloc: Global,
    env: &mut Vec<Known>,
    sight: &mut Sight,
    k: usize,
    value: &Term,
) -> Result<(), AllocError>
    ensures env { OnOk result (env_of env.new.items ≡ at_local k (assigned (range_of (env_of env.old.items) (term_of value.now))) (env_of env.old.items)) }
    ensures sight { OnOk result (sight_of sight.new ≡ looked (touched_by (env_of env.old.items) (term_of value.now)) (sight_of sight.old)) }
{
    output(alloc, env, sight, value)?;
    let r = range_of(env, value);
    at_value(env, k, r);
    Ok(())
}

#[tactic(auto, using(crate::proofs::Sights::looked_two))]
pub fn set_scalar(
    alloc: Global,
    env: &mut Vec<Known>,
    sight: &mut Sight,
    at: Place,
    g: usize,
    value: &Term,
) -> Result<(), AllocError>
    ensures env { OnOk result (env_of env.new.items ≡ env_of env.old.items) }
    ensures sight { OnOk result (sight_of sight.new ≡ looked (touch at g (exactly (pos 0)) ∷ touched_by (env_of env.old.items) (term_of value.now)) (sight_of sight.old)) }
{
    sight.touch(at, g, Range { lo: 0, hi: 0 })?;
    look(alloc, env, sight, value)?;
    Ok(())
}

#[tactic(auto, using(crate::proofs::Sights::looked_three))]
pub fn set_element(
    alloc: Global,
    env: &mut Vec<Known>,
    sight: &mut Sight,
    at: Place,
    g: usize,
    index: &Term,
    value: &Term,
) -> Result<(), AllocError>
    ensures env { OnOk result (env_of env.new.items ≡ env_of env.old.items) }
    ensures sight { OnOk result (sight_of sight.new ≡ looked (touch at g (range_of (env_of env.old.items) (term_of index.now)) ∷ touched_by (env_of env.old.items) (term_of index.now) ++ touched_by (env_of env.old.items) (term_of value.now)) (sight_of sight.old)) }
{
    sight.touch(at, g, range_of(env, index))?;
    look(alloc, env, sight, index)?;
    look(alloc, env, sight, value)?;
    Ok(())
}

fn argument(
    alloc: Global,
    env: &mut Vec<Known>,
    sight: &mut Sight,
    f: usize,
    k: usize,
    e: &Term,
) -> Result<(), AllocError>
    ensures env { OnOk result (env_of env.new.items ≡ env_of env.old.items) }
    ensures sight { OnOk result (sight_of sight.new ≡ both (touched_by (env_of env.old.items) (term_of e.now)) (argument f k (range_of (env_of env.old.items) (term_of e.now)) ∷ []) (sight_of sight.old)) }
{
    look(alloc, env, sight, e)?;
    sight.pass(f, k, range_of(env, e))
}

/// The arguments of a call, with their accesses, are put behind what was seen.
fn arguments(
    alloc: Global,
    env: &mut Vec<Known>,
    sight: &mut Sight,
    f: usize,
    es: &[Term],
) -> Result<(), AllocError>
    ensures env { OnOk result (env_of env.new.items ≡ env_of env.old.items) }
    ensures sight { OnOk result (sight_of sight.new ≡ both (touched_by_all (env_of env.old.items) (map term_of es.now)) (arguments_from f 0 (env_of env.old.items) (map term_of es.now)) (sight_of sight.old)) }
{
    for k in 0..es.len() {
        argument(alloc, env, sight, f, k, &es[k])?;
    }
    Ok(())
}

#[tactic(auto, using(crate::proofs::Sights::called_is))]
pub fn call(
    alloc: Global,
    env: &mut Vec<Known>,
    sight: &mut Sight,
    target: Option<usize>,
    f: usize,
    es: &[Term],
) -> Result<(), AllocError>
    ensures env { OnOk result (env_of env.new.items ≡ behind_call target (env_of env.old.items)) }
    ensures sight { OnOk result (sight_of sight.new ≡ called (touched_by_all (env_of env.old.items) (map term_of es.now)) (arguments_from f 0 (env_of env.old.items) (map term_of es.now)) (sight_of sight.old)) }
{
    arguments(alloc, env, sight, f, es)?;
    at_return(env, target);
    Ok(())
}
