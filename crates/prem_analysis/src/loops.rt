// Loops are entered.
ghost use Rattle.std.specs.Prelude.{◌≡◌, ◌++◌, ◌∷◌, true, length, IfOk, OnOk};
ghost use Rattle.prem_tree.specs.Resolve.ResolvedOf.{term_of};
ghost use Rattle.prem_ranges.specs.RangeOf.{refined};
ghost use Rattle.prem_ranges.specs.RangeRules.{first_of};
ghost use Rattle.prem_ranges.specs.RangeBreaches.{in_term};
ghost use Rattle.prem_ranges.specs.After.{loop_end, in_body, behind_loop, in_while};
ghost use Rattle.prem_ranges.specs.Saves.Saves.{named, few_or_all, saved_few};
ghost use Rattle.prem_analysis.specs.Ranging.View.{env_of, found_of, saves_of};
ghost use Rattle.prem_analysis.specs.Ranging.SiteOf.{site_of};
ghost use Rattle.prem_analysis.specs.Ranging.Plain.{plain};
ghost use Rattle.prem_analysis.specs.Ranging.Targets.{targets};
ghost use Rattle.prem_analysis.specs.Seen.{seen_of, noted, counted};
ghost use Rattle.prem_analysis.specs.Arms.{capped, at_term, at_counting, at_while, bound_of};

use crate::entering::{Arms, Counting, enter_body};
use crate::known::{at_condition, at_counting, at_while};
use crate::locals::{locals_of_if, locals_of_while};
use crate::ranging::{
    Broken, Known, Saved, Site, end_of, in_counting_loop, in_term, in_turns, range_of, save, times,
    turn_bound,
};
use crate::seen::Seen;
use prem_syntax::Place;
use prem_tree::resolve::{Step, Term};
use std::alloc::{AllocError, Global};

/// A loop that is entered: the product of the turn bounds of the loops around its body, and what is known behind it of
/// the locals that differ in the body.
#[derive(Drop)]
pub struct Inner {
    pub around: u64,
    pub behind: Vec<Saved>,
}

/// The first rule that an expression breaks. What is known stays the same.
fn find(
    alloc: Global,
    site: &Site,
    env: &mut Vec<Known>,
    term: &Term,
) -> Result<Option<Broken>, AllocError>
    ensures env { OnOk result (env_of env.new.items ≡ env_of env.old.items) }
    ensures found { IfOk result (λ found. found_of found ≡ first_of (in_term (site_of site.now) (env_of env.old.items) (term_of term.now))) }
{
    in_term(alloc, site, env, term)
}

/// An expression is looked at. What is known stays the same.
pub fn look(
    alloc: Global,
    site: &Site,
    env: &mut Vec<Known>,
    seen: &mut Seen,
    term: &Term,
) -> Result<(), AllocError>
    ensures env { OnOk result (env_of env.new.items ≡ env_of env.old.items) }
    ensures seen { OnOk result (seen_of seen.new ≡ at_term (site_of site.now) (env_of env.old.items) (term_of term.now) (seen_of seen.old)) }
{
    seen.note(find(alloc, site, env, term)?);
    Ok(())
}

/// What is seen of a counting loop's head.
fn see_counting(
    alloc: Global,
    site: &Site,
    env: &mut Vec<Known>,
    seen: &mut Seen,
    own: Option<Broken>,
    in_low: Option<Broken>,
    high: &Term,
    bound: u64,
) -> Result<(), AllocError>
    ensures env { OnOk result (env_of env.new.items ≡ env_of env.old.items) }
    ensures seen { OnOk result (seen_of seen.new ≡ counted bound (at_term (site_of site.now) (env_of env.old.items) (term_of high.now) (noted (found_of in_low) (noted (found_of own) (seen_of seen.old))))) }
{
    seen.note(own);
    seen.note(in_low);
    look(alloc, site, env, seen, high)?;
    seen.count(bound)
}

/// Enters a counting loop. What is known becomes what is known in its body.
pub fn enter_counting(
    alloc: Global,
    site: &Site,
    around: u64,
    env: &mut Vec<Known>,
    seen: &mut Seen,
    l: &Counting,
) -> Result<Inner, AllocError>
    ensures around { IfOk result (λ inner. inner.around ≡ capped around (bound_of (env_of env.old.items) l.now.number (term_of l.now.low.now) l.now.closed (term_of l.now.high.now) l.now.step (plain l.now.body.now))) }
    ensures behind { IfOk result (λ inner. saves_of inner.behind.items ≡ saved_few (behind_loop (env_of env.old.items) l.now.number (term_of l.now.low.now) (loop_end (env_of env.old.items) l.now.number l.now.closed (term_of l.now.high.now) (plain l.now.body.now)) l.now.step (plain l.now.body.now)) (l.now.number ∷ targets l.now.body.now)) }
    ensures env { OnOk result (env_of env.new.items ≡ in_body (env_of env.old.items) l.now.number (term_of l.now.low.now) (loop_end (env_of env.old.items) l.now.number l.now.closed (term_of l.now.high.now) (plain l.now.body.now)) (plain l.now.body.now)) }
    ensures seen { OnOk result (seen_of seen.new ≡ at_counting (site_of site.now) around (env_of env.old.items) l.now.at l.now.number (term_of l.now.low.now) (term_of l.now.high.now) (loop_end (env_of env.old.items) l.now.number l.now.closed (term_of l.now.high.now) (plain l.now.body.now)) l.now.step (bound_of (env_of env.old.items) l.now.number (term_of l.now.low.now) l.now.closed (term_of l.now.high.now) l.now.step (plain l.now.body.now)) (plain l.now.body.now) (seen_of seen.old)) }
{
    let first = range_of(env, l.low);
    let in_low = find(alloc, site, env, l.low)?;
    at_counting(env, l.number, l.body);
    let end = end_of(l.closed, range_of(env, l.high));
    let bound = turn_bound(first, end, l.step);
    let product = times(around, bound);
    let own = in_counting_loop(l.at, end, l.step, product);
    see_counting(alloc, site, env, seen, own, in_low, l.high, bound)?;
    let behind = enter_body(alloc, env, l, first, end)?;
    Ok(Inner {
        around: product,
        behind,
    })
}

/// Enters a `while`. What is known becomes what is known in its body.
pub fn enter_while(
    alloc: Global,
    site: &Site,
    around: u64,
    env: &mut Vec<Known>,
    seen: &mut Seen,
    at: Place,
    most: u32,
    condition: &Term,
    body: &Step,
) -> Result<Inner, AllocError>
    ensures around { IfOk result (λ inner. inner.around ≡ capped around most) }
    ensures behind { IfOk result (λ inner. saves_of inner.behind.items ≡ saved_few (in_while (plain body.now) (env_of env.old.items)) (named (term_of condition.now) ++ targets body.now)) }
    ensures env { OnOk result (env_of env.new.items ≡ refined true (in_while (plain body.now) (env_of env.old.items)) (term_of condition.now)) }
    ensures seen { OnOk result (seen_of seen.new ≡ at_while (site_of site.now) around (env_of env.old.items) at most (term_of condition.now) (plain body.now) (seen_of seen.old)) }
{
    at_while(env, body);
    let product = times(around, u64::from(most));
    seen.note(in_turns(at, product));
    look(alloc, site, env, seen, condition)?;
    let locals = locals_of_while(alloc, env, condition, body)?;
    let behind = save(alloc, env, &locals)?;
    at_condition(true, env, condition);
    Ok(Inner {
        around: product,
        behind,
    })
}

/// Enters an `if`. What is known becomes what is known in the first arm.
pub fn enter_if(
    alloc: Global,
    site: &Site,
    env: &mut Vec<Known>,
    seen: &mut Seen,
    condition: &Term,
    taken: &Step,
    other: &Step,
) -> Result<Arms, AllocError>
    ensures locals { IfOk result (λ arms. arms.locals.items ≡ few_or_all (length (env_of env.old.items)) (named (term_of condition.now) ++ targets taken.now ++ targets other.now)) }
    ensures before { IfOk result (λ arms. saves_of arms.before.items ≡ saved_few (env_of env.old.items) (named (term_of condition.now) ++ targets taken.now ++ targets other.now)) }
    ensures env { OnOk result (env_of env.new.items ≡ refined true (env_of env.old.items) (term_of condition.now)) }
    ensures seen { OnOk result (seen_of seen.new ≡ at_term (site_of site.now) (env_of env.old.items) (term_of condition.now) (seen_of seen.old)) }
{
    look(alloc, site, env, seen, condition)?;
    let locals = locals_of_if(alloc, env, condition, taken, other)?;
    let before = save(alloc, env, &locals)?;
    at_condition(true, env, condition);
    Ok(Arms { locals, before })
}
