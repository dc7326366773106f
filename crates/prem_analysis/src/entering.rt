// Loops and `if`s are entered, as each walk over steps does it.
ghost use Rattle.std.specs.Prelude.{◌≡◌, ◌∷◌, ◌≤ℤ◌, pos, negsuc, false, IfOk, OnOk};
ghost use Rattle.prem_tree.specs.Resolve.ResolvedOf.{term_of};
ghost use Rattle.prem_ranges.specs.Environment.{at_local, with_range};
ghost use Rattle.prem_ranges.specs.RangeOf.{refined};
ghost use Rattle.prem_ranges.specs.After.{body_range, range_behind};
ghost use Rattle.prem_ranges.specs.Saves.Saves.{saved, saved_few, restored};
ghost use Rattle.prem_analysis.specs.Ranging.View.{span_of, env_of, saves_of};
ghost use Rattle.prem_analysis.specs.Ranging.Targets.{targets};

use crate::known::{at_condition, at_range, put_back};
use crate::locals::locals_of_counting;
use crate::ranging::{Known, Range, Saved, body_range, range_behind, save};
use prem_syntax::Place;
use prem_tree::resolve::{Step, Term};
use std::alloc::{AllocError, Global};

/// A counting loop as it stands in the text.
#[derive(Clone, Copy)]
pub struct Counting<'a> {
    pub at: Place,
    pub number: usize,
    pub low: &'a Term,
    pub closed: bool,
    pub high: &'a Term,
    pub step: u32,
    pub body: &'a Step,
}

/// An `if` that is entered: the locals that differ in its arms, or all of them, and what was known of them before it.
#[derive(Drop)]
pub struct Arms {
    pub locals: Vec<usize>,
    pub before: Vec<Saved>,
}

/// Enters a counting loop's body: gives what is known behind the loop of the locals that differ in it. It fails only for want of memory.
///
/// Condition: the loop's end lies among the numbers that ends have.
#[tactic(auto, using(crate::proofs::InPlace::set_again))]
pub fn enter_body(
    alloc: Global,
    env: &mut Vec<Known>,
    l: &Counting,
    first: Range,
    end: i64,
) -> Result<Vec<Saved>, AllocError>
    requires least { negsuc 2147483647 ≤ℤ end }
    requires greatest { end ≤ℤ pos 4294967296 }
    ensures behind { IfOk result (λ behind. saves_of behind.items ≡ saved_few (at_local l.now.number (with_range (range_behind (span_of first) end l.now.step)) (env_of env.old.items)) (l.now.number ∷ targets l.now.body.now)) }
    ensures env { OnOk result (env_of env.new.items ≡ at_local l.now.number (with_range (body_range (span_of first) end)) (env_of env.old.items)) }
{
    at_range(env, l.number, range_behind(first, end, l.step));
    let locals = locals_of_counting(alloc, env, l.number, l.body)?;
    let behind = save(alloc, env, &locals)?;
    at_range(env, l.number, body_range(first, end));
    Ok(behind)
}

/// Enters the other arm of an `if`: gives what is known behind the first. What is known becomes what
/// is known in the other. It fails only for want of memory.
pub fn enter_other(
    alloc: Global,
    env: &mut Vec<Known>,
    condition: &Term,
    arms: &Arms,
) -> Result<Vec<Saved>, AllocError>
    ensures behind { IfOk result (λ behind. saves_of behind.items ≡ saved (env_of env.old.items) arms.now.locals.items) }
    ensures env { OnOk result (env_of env.new.items ≡ refined false (restored (saves_of arms.now.before.items) (env_of env.old.items)) (term_of condition.now)) }
{
    let behind = save(alloc, env, &arms.locals)?;
    put_back(env, &arms.before);
    at_condition(false, env, condition);
    Ok(behind)
}
