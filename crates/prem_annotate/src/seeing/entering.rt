// Loops and `if`s are entered.
ghost use Rattle.std.specs.Prelude.{◌≡◌, ◌++◌, ◌∷◌, true, length, IfOk, OnOk};
ghost use Rattle.prem_tree.specs.Resolve.ResolvedOf.{term_of};
ghost use Rattle.prem_ranges.specs.RangeOf.{refined};
ghost use Rattle.prem_ranges.specs.After.{loop_end, in_counting, in_body, behind_loop, in_while};
ghost use Rattle.prem_ranges.specs.Saves.Saves.{named, few_or_all, saved_few};
ghost use Rattle.prem_analysis.specs.Ranging.View.{env_of, saves_of};
ghost use Rattle.prem_analysis.specs.Ranging.Plain.{plain};
ghost use Rattle.prem_analysis.specs.Ranging.Targets.{targets};
ghost use Rattle.prem_annotating.specs.Seen.{touched_by};
ghost use Rattle.prem_annotate.specs.Seeing.Sight.{sight_of, touched};

use crate::seeing::expression::look;
use crate::seeing::sight::Sight;
use prem_analysis::entering::{Arms, Counting, enter_body};
use prem_analysis::known::{at_condition, at_counting, at_while};
use prem_analysis::locals::{locals_of_if, locals_of_while};
use prem_analysis::ranging::{Known, Saved, end_of, range_of, save};
use prem_tree::resolve::{Step, Term};
use std::alloc::{AllocError, Global};

/// Enters a counting loop: gives what is known behind it of the locals that differ in its body. What is known becomes what
/// is known in its body.
pub fn enter_counting(
    alloc: Global,
    env: &mut Vec<Known>,
    sight: &mut Sight,
    l: &Counting,
) -> Result<Vec<Saved>, AllocError>
    ensures behind { IfOk result (λ behind. saves_of behind.items ≡ saved_few (behind_loop (env_of env.old.items) l.now.number (term_of l.now.low.now) (loop_end (env_of env.old.items) l.now.number l.now.closed (term_of l.now.high.now) (plain l.now.body.now)) l.now.step (plain l.now.body.now)) (l.now.number ∷ targets l.now.body.now)) }
    ensures env { OnOk result (env_of env.new.items ≡ in_body (env_of env.old.items) l.now.number (term_of l.now.low.now) (loop_end (env_of env.old.items) l.now.number l.now.closed (term_of l.now.high.now) (plain l.now.body.now)) (plain l.now.body.now)) }
    ensures sight { OnOk result (sight_of sight.new ≡ touched (touched_by (env_of env.old.items) (term_of l.now.low.now) ++ touched_by (in_counting l.now.number (plain l.now.body.now) (env_of env.old.items)) (term_of l.now.high.now)) (sight_of sight.old)) }
{
    let first = range_of(env, l.low);
    look(alloc, env, sight, l.low)?;
    at_counting(env, l.number, l.body);
    let end = end_of(l.closed, range_of(env, l.high));
    look(alloc, env, sight, l.high)?;
    let behind = enter_body(alloc, env, l, first, end)?;
    Ok(behind)
}

/// Enters a `while`: gives what is known behind it of the locals that differ in it. What is known becomes what is known in
/// its body.
pub fn enter_while(
    alloc: Global,
    env: &mut Vec<Known>,
    sight: &mut Sight,
    condition: &Term,
    body: &Step,
) -> Result<Vec<Saved>, AllocError>
    ensures behind { IfOk result (λ behind. saves_of behind.items ≡ saved_few (in_while (plain body.now) (env_of env.old.items)) (named (term_of condition.now) ++ targets body.now)) }
    ensures env { OnOk result (env_of env.new.items ≡ refined true (in_while (plain body.now) (env_of env.old.items)) (term_of condition.now)) }
    ensures sight { OnOk result (sight_of sight.new ≡ touched (touched_by (in_while (plain body.now) (env_of env.old.items)) (term_of condition.now)) (sight_of sight.old)) }
{
    at_while(env, body);
    look(alloc, env, sight, condition)?;
    let locals = locals_of_while(alloc, env, condition, body)?;
    let behind = save(alloc, env, &locals)?;
    at_condition(true, env, condition);
    Ok(behind)
}

/// Enters an `if`. What is known becomes what is known in the first arm.
pub fn enter_if(
    alloc: Global,
    env: &mut Vec<Known>,
    sight: &mut Sight,
    condition: &Term,
    taken: &Step,
    other: &Step,
) -> Result<Arms, AllocError>
    ensures locals { IfOk result (λ arms. arms.locals.items ≡ few_or_all (length (env_of env.old.items)) (named (term_of condition.now) ++ targets taken.now ++ targets other.now)) }
    ensures before { IfOk result (λ arms. saves_of arms.before.items ≡ saved_few (env_of env.old.items) (named (term_of condition.now) ++ targets taken.now ++ targets other.now)) }
    ensures env { OnOk result (env_of env.new.items ≡ refined true (env_of env.old.items) (term_of condition.now)) }
    ensures sight { OnOk result (sight_of sight.new ≡ touched (touched_by (env_of env.old.items) (term_of condition.now)) (sight_of sight.old)) }
{
    look(alloc, env, sight, condition)?;
    let locals = locals_of_if(alloc, env, condition, taken, other)?;
    let before = save(alloc, env, &locals)?;
    at_condition(true, env, condition);
    Ok(Arms { locals, before })
}
