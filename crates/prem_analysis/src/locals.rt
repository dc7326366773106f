//! The locals that differ in a part of a function, by number; or all of them, where that is fewer.
ghost use Rattle.std.specs.Prelude.{◌≡◌, ◌++◌, ◌∷◌, length, IfOk};
ghost use Rattle.prem_tree.specs.Resolve.ResolvedOf.{term_of};
ghost use Rattle.prem_ranges.specs.Saves.Saves.{named, few_or_all};
ghost use Rattle.prem_analysis.specs.Ranging.View.{env_of};
ghost use Rattle.prem_analysis.specs.Ranging.Targets.{targets};

use crate::ranging::{Known, add_assigned, add_named, few_or_all};
use prem_tree::resolve::{Step, Term};
use std::alloc::{AllocError, Global};

#[tactic(auto, using(crate::proofs::InPlace::env_length))]
fn no_more(alloc: Global, env: &[Known], locals: Vec<usize>) -> Result<Vec<usize>, AllocError>
    ensures { IfOk result (λ ks. ks.items ≡ few_or_all (length (env_of env.now)) locals.items) }
{
    few_or_all(alloc, env.len(), locals)
}

/// In the arms of an `if`.
pub fn locals_of_if(
    alloc: Global,
    env: &[Known],
    condition: &Term,
    taken: &Step,
    other: &Step,
) -> Result<Vec<usize>, AllocError>
    ensures { IfOk result (λ ks. ks.items ≡ few_or_all (length (env_of env.now)) (named (term_of condition.now) ++ targets taken.now ++ targets other.now)) }
{
    let mut locals = Vec::new(alloc);
    add_named(&mut locals, condition)?;
    add_assigned(&mut locals, taken)?;
    add_assigned(&mut locals, other)?;
    no_more(alloc, env, locals)
}

/// In the body of a counting loop.
pub fn locals_of_counting(
    alloc: Global,
    env: &[Known],
    number: usize,
    body: &Step,
) -> Result<Vec<usize>, AllocError>
    ensures { IfOk result (λ ks. ks.items ≡ few_or_all (length (env_of env.now)) (number ∷ targets body.now)) }
{
    let mut locals = Vec::new(alloc);
    locals.push(number)?;
    add_assigned(&mut locals, body)?;
    no_more(alloc, env, locals)
}

/// In the body of a `while`.
pub fn locals_of_while(
    alloc: Global,
    env: &[Known],
    condition: &Term,
    body: &Step,
) -> Result<Vec<usize>, AllocError>
    ensures { IfOk result (λ ks. ks.items ≡ few_or_all (length (env_of env.now)) (named (term_of condition.now) ++ targets body.now)) }
{
    let mut locals = Vec::new(alloc);
    add_named(&mut locals, condition)?;
    add_assigned(&mut locals, body)?;
    no_more(alloc, env, locals)
}
