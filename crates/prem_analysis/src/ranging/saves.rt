// Locals that a part of a program may change: which these are, and what was known of them.
ghost use Rattle.std.specs.Prelude.{◌≡◌, ◌++◌, ◌∷◌, [], IfOk, OnOk};
ghost use Rattle.std.specs.List.{range_with_len};
ghost use Rattle.prem_tree.specs.Resolve.ResolvedOf.{term_of};
ghost use Rattle.prem_ranges.specs.Environment.{at_local};
ghost use Rattle.prem_ranges.specs.RangeOf.{refined};
ghost use Rattle.prem_ranges.specs.Saves.Saves.{named, few_or_all, known_at, saved_at, saved, restored, merged};
ghost use Rattle.prem_analysis.specs.Ranging.View.{known_of, env_of, saved_of, saves_of};
ghost use Rattle.prem_analysis.specs.Ranging.Targets.{target_of, targets, list_targets};

use crate::ranging::environment::refine;
use crate::ranging::found::Known;
use crate::ranging::join::either;
use crate::ranging::table::whole_range;
use prem_tree::resolve::{Step, Term};
use prem_word::Kind;
use std::alloc::{AllocError, Global};

/// A local by its number, and what was known of it.
#[derive(Clone, Copy)]
pub struct Saved {
    pub number: usize,
    pub known: Known,
}

/// Adds the locals that a condition names.
pub fn add_named(locals: &mut Vec<usize>, term: &Term) -> Result<(), AllocError>
    ensures { OnOk result (locals.new.items ≡ locals.old.items ++ named (term_of term.now)) }
{
    match term {
        Term::Local { number, .. } => {
            locals.push(*number)?;
            Ok(())
        }
        Term::Unary { operand, .. } => add_named(locals, operand),
        Term::Binary { operands, .. } => {
            add_named(locals, &operands.left)?;
            add_named(locals, &operands.right)?;
            Ok(())
        }
        Term::Constant { .. } | Term::Scalar { .. } | Term::Element { .. } => Ok(()),
    }
}

fn add_target(locals: &mut Vec<usize>, target: Option<usize>) -> Result<(), AllocError>
    ensures { OnOk result (locals.new.items ≡ locals.old.items ++ target_of target) }
{
    if let Some(k) = target {
        locals.push(k)?;
    }
    Ok(())
}

/// Adds the locals that a step assigns.
#[cycle(adding)]
pub fn add_assigned(locals: &mut Vec<usize>, step: &Step) -> Result<(), AllocError>
    ensures { OnOk result (locals.new.items ≡ locals.old.items ++ targets step.now) }
{
    match step {
        Step::Block { body } => {
            add_all(locals, body.items())?;
            Ok(())
        }
        Step::SetLocal { number, .. } | Step::Input { number, .. } => {
            locals.push(*number)?;
            Ok(())
        }
        Step::SetScalar { .. } | Step::SetElement { .. } | Step::Output { .. } => Ok(()),
        Step::If { taken, other, .. } => {
            add_assigned(locals, taken)?;
            add_assigned(locals, other)?;
            Ok(())
        }
        Step::For { number, body, .. } => {
            locals.push(*number)?;
            add_assigned(locals, body)?;
            Ok(())
        }
        Step::While { body, .. } => add_assigned(locals, body),
        Step::Call { target, .. } => add_target(locals, *target),
    }
}

#[cycle(adding)]
fn add_all(locals: &mut Vec<usize>, steps: &[Step]) -> Result<(), AllocError>
    ensures { OnOk result (locals.new.items ≡ locals.old.items ++ list_targets steps.now) }
{
    for s in steps {
        add_assigned(locals, s)?;
    }
    Ok(())
}

fn all_below(alloc: Global, count: usize) -> Result<Vec<usize>, AllocError>
    ensures { IfOk result (λ all. all.items ≡ range_with_len 0 count) }
{
    let mut all = Vec::new(alloc);
    for k in 0..count {
        all.push(k)?;
    }
    Ok(all)
}

/// These locals, or all of so many where that is fewer: no more is saved than there is.
pub fn few_or_all(alloc: Global, count: usize, locals: Vec<usize>) -> Result<Vec<usize>, AllocError>
    ensures { IfOk result (λ ks. ks.items ≡ few_or_all count locals.items) }
{
    if count < locals.len() {
        all_below(alloc, count)
    } else {
        Ok(locals)
    }
}

fn known_at(env: &[Known], k: usize) -> Known
    ensures { known_of result ≡ known_at (env_of env.now) k }
{
    if k < env.len() {
        env[k]
    } else {
        Known {
            kind: Kind::Int,
            range: whole_range(Kind::Int),
        }
    }
}

fn saved_at(env: &[Known], k: usize) -> Saved
    ensures { saved_of result ≡ saved_at (env_of env.now) k }
{
    Saved {
        number: k,
        known: known_at(env, k),
    }
}

/// What is known of some locals.
pub fn save(alloc: Global, env: &[Known], locals: &[usize]) -> Result<Vec<Saved>, AllocError>
    ensures { IfOk result (λ saves. saves_of saves.items ≡ saved (env_of env.now) locals.now) }
{
    let mut saves = Vec::new(alloc);
    for k in locals {
        saves.push(saved_at(env, *k))?;
    }
    Ok(saves)
}

fn put(env: &mut [Known], s: Saved)
    ensures { env_of env.new ≡ at_local s.number (λ l. known_of s.known) (env_of env.old) }
{
    if s.number < env.len() {
        env[s.number] = s.known;
    }
}

/// The same is known again as was saved.
pub fn restore(env: &mut [Known], saves: &[Saved])
    ensures { env_of env.new ≡ restored (saves_of saves.now) (env_of env.old) }
{
    for s in saves {
        put(env, *s);
    }
}

fn put_either(env: &mut [Known], s: Saved)
    ensures { env_of env.new ≡ merged (saved_of s ∷ []) (env_of env.old) }
{
    if s.number < env.len() {
        env[s.number] = either(s.known, env[s.number]);
    }
}

/// What is known behind either of two ways, where that behind the first was saved.
pub fn merge(env: &mut [Known], saves: &[Saved])
    ensures { env_of env.new ≡ merged (saves_of saves.now) (env_of env.old) }
{
    for s in saves {
        put_either(env, *s);
    }
}

/// What is known where a condition is true, or where it is false. Gives what was known of the locals that it names.
pub fn refine_saved(
    alloc: Global,
    b: bool,
    env: &mut [Known],
    term: &Term,
) -> Result<Vec<Saved>, AllocError>
    ensures env { OnOk result (env_of env.new ≡ refined b (env_of env.old) (term_of term.now)) }
    ensures saves { IfOk result (λ saves. saves_of saves.items ≡ saved (env_of env.old) (named (term_of term.now))) }
{
    let mut locals = Vec::new(alloc);
    add_named(&mut locals, term)?;
    let saves = save(alloc, env, &locals)?;
    refine(b, env, term);
    Ok(saves)
}
