// The accesses of an expression.
ghost use Rattle.std.specs.Prelude.{◌≡◌, IfOk, OnOk};
ghost use Rattle.prem_tree.specs.Resolve.ResolvedOf.{term_of};
ghost use Rattle.prem_ranges.specs.RangeOf.{refined};
ghost use Rattle.prem_ranges.specs.Saves.Saves.{named, saved};
ghost use Rattle.prem_annotating.specs.Seen.{touched_by};
ghost use Rattle.prem_analysis.specs.Ranging.Shortcut.{shortcut_of};
ghost use Rattle.prem_analysis.specs.Ranging.View.{env_of, saves_of};
ghost use Rattle.prem_annotate.specs.Seeing.Sight.{sight_of, touched};

use crate::seeing::sight::Sight;
use prem_analysis::ranging::{Known, Range, Saved, add_named, range_of, refine, restore, save};
use prem_tree::resolve::Term;
use prem_word::BinOp;
use std::alloc::{AllocError, Global};

/// What is known where a condition is true, or where it is false. Gives what was known of the locals that it names.
fn refine_saved(
    alloc: Global,
    b: bool,
    env: &mut [Known],
    term: &Term,
) -> Result<Vec<Saved>, AllocError>
    ensures env { OnOk result (env_of env.new ≡ refined b (env_of env.old) (term_of term.now)) }
    ensures saves { IfOk result (λ saves. saves_of saves.items ≡ saved (env_of env.old) (named (term_of term.now))) }
{
    let mut locals = Vec::new(alloc);
    add_named(&mut locals, term)?;
    let saves = save(alloc, env, &locals)?;
    refine(b, env, term);
    Ok(saves)
}

/// `&&` and `||` look at their right side only behind a left side that is true, or false.
fn shortcut(op: BinOp) -> Option<bool>
    ensures { result ≡ shortcut_of op }
{
    match op {
        BinOp::AndAlso => Some(true),
        BinOp::OrElse => Some(false),
        _ => None,
    }
}

/// Looks at an expression. The right side of `&&` and `||` is looked at in the same environment, in which the locals that
/// the left side names are put back behind it.
#[tactic(auto, using(prem_ranges::proofs::SavesLemmas::Back::back_from_refined, crate::proofs::Sights::touched_none, crate::proofs::Sights::touched_more, crate::proofs::Sights::touched_some, crate::proofs::Sights::touched_operator))]
fn look_at(
    alloc: Global,
    env: &mut [Known],
    sight: &mut Sight,
    term: &Term,
) -> Result<(), AllocError>
    ensures env { OnOk result (env_of env.new ≡ env_of env.old) }
    ensures sight { OnOk result (sight_of sight.new ≡ touched (touched_by (env_of env.old) (term_of term.now)) (sight_of sight.old)) }
{
    match term {
        Term::Constant { .. } => Ok(()),
        Term::Local { .. } => Ok(()),
        Term::Scalar { at, global, .. } => sight.touch(*at, *global, Range { lo: 0, hi: 0 }),
        Term::Element {
            at,
            global,
            index,
            ..
        } => {
            sight.touch(*at, *global, range_of(env, index))?;
            look_at(alloc, env, sight, index)
        }
        Term::Unary { operand, .. } => look_at(alloc, env, sight, operand),
        Term::Binary { op, operands, .. } => {
            look_at(alloc, env, sight, &operands.left)?;
            match shortcut(*op) {
                Some(b) => {
                    let saves = refine_saved(alloc, b, env, &operands.left)?;
                    look_at(alloc, env, sight, &operands.right)?;
                    restore(env, &saves);
                    Ok(())
                }
                None => look_at(alloc, env, sight, &operands.right),
            }
        }
    }
}

/// The accesses of an expression are put behind what was seen. What is known stays the same.
pub fn look(
    alloc: Global,
    env: &mut Vec<Known>,
    sight: &mut Sight,
    term: &Term,
) -> Result<(), AllocError>
    ensures env { OnOk result (env_of env.new.items ≡ env_of env.old.items) }
    ensures sight { OnOk result (sight_of sight.new ≡ touched (touched_by (env_of env.old.items) (term_of term.now)) (sight_of sight.old)) }
{
    look_at(alloc, env, sight, term)
}
