// The walk over a function.
ghost use Rattle.std.specs.Prelude.{◌≡◌, ◌++◌, ◌∷◌, [], map, IfOk, OnOk};
ghost use Rattle.std.specs.Option.{option_map};
ghost use Rattle.prem_syntax.specs.SyntaxOf.{local_of};
ghost use Rattle.prem_tree.specs.Resolve.ResolvedOf.{term_of};
ghost use Rattle.prem_ranges.specs.After.{known_local, declared};
ghost use Rattle.prem_annotating.specs.Seen.{touched_by, touched_by_locals, touched_by_result};
ghost use Rattle.prem_analysis.specs.Ranging.View.{known_of, env_of};
ghost use Rattle.prem_analysis.specs.Functions.{plain_routine};
ghost use Rattle.prem_annotate.specs.Seeing.Sight.{sight_of, touched};
ghost use Rattle.prem_annotate.specs.Seeing.Walk.{seen_with};

use crate::seeing::expression::look;
use crate::seeing::sight::Sight;
use crate::seeing::steps::walk;
use prem_analysis::ranging::{Known, convert, range_of};
use prem_syntax::Local;
use prem_tree::resolve::{Routine, Term, promoted};
use std::alloc::{AllocError, Global};

/// What is known of a local behind its initialiser.
pub fn known_local(env: &[Known], l: &Local, e: &Term) -> Known
    ensures { known_of result ≡ known_local (env_of env.now) (local_of l.now) (term_of e.now) }
{
    let kind = promoted(l.ty);
    Known {
        kind,
        range: convert(kind, range_of(env, e)),
    }
}

fn declare(
    alloc: Global,
    env: &mut Vec<Known>,
    sight: &mut Sight,
    l: &Local,
    e: &Term,
) -> Result<(), AllocError>
    ensures env { OnOk result (env_of env.new.items ≡ env_of env.old.items ++ known_local (env_of env.old.items) (local_of l.now) (term_of e.now) ∷ []) }
    ensures sight { OnOk result (sight_of sight.new ≡ touched (touched_by (env_of env.old.items) (term_of e.now)) (sight_of sight.old)) }
{
    look(alloc, env, sight, e)?;
    let local = known_local(env, l, e);
    env.push(local)?;
    Ok(())
}

/// Locals with their initialisers, in order.
fn declare_all(
    alloc: Global,
    env: &mut Vec<Known>,
    sight: &mut Sight,
    ls: &[Local],
    es: &[Term],
) -> Result<(), AllocError>
    ensures env { OnOk result (env_of env.new.items ≡ declared (env_of env.old.items) (map local_of ls.now) (map term_of es.now)) }
    ensures sight { OnOk result (sight_of sight.new ≡ touched (touched_by_locals (env_of env.old.items) (map local_of ls.now) (map term_of es.now)) (sight_of sight.old)) }
{
    for i in 0..es.len() {
        if i >= ls.len() {
            return Ok(());
        }
        declare(alloc, env, sight, &ls[i], &es[i])?;
    }
    Ok(())
}

#[tactic(auto, using(crate::proofs::Sights::touched_none))]
fn see_result(
    alloc: Global,
    env: &mut Vec<Known>,
    sight: &mut Sight,
    value: &Option<Term>,
) -> Result<(), AllocError>
    ensures { OnOk result (sight_of sight.new ≡ touched (touched_by_result (env_of env.old.items) (option_map term_of value.now)) (sight_of sight.old)) }
{
    match value {
        Some(e) => look(alloc, env, sight, e),
        None => Ok(()),
    }
}

/// What is seen of a function of whose parameters so much is known.
pub fn see_routine(alloc: Global, parameters: Vec<Known>, f: &Routine) -> Result<Sight, AllocError>
    ensures { IfOk result (λ s. sight_of s ≡ seen_with (env_of parameters.items) (plain_routine f.now)) }
{
    let mut env = parameters;
    let mut sight = Sight {
        touches: Vec::new(alloc),
        arguments: Vec::new(alloc),
    };
    declare_all(
        alloc,
        &mut env,
        &mut sight,
        f.text.locals.items(),
        f.locals.items(),
    )?;
    walk(alloc, &mut env, &mut sight, &f.body)?;
    see_result(alloc, &mut env, &mut sight, &f.result)?;
    Ok(sight)
}
