// The walk over steps.
ghost use Rattle.std.specs.Prelude.{◌≡◌, OnOk};
ghost use Rattle.prem_ranges.specs.After.{after};
ghost use Rattle.prem_analysis.specs.Ranging.View.{env_of};
ghost use Rattle.prem_analysis.specs.Ranging.SiteOf.{site_of};
ghost use Rattle.prem_analysis.specs.Ranging.Plain.{plain, plain_list};
ghost use Rattle.prem_analysis.specs.Seen.{seen_of, behind};

use crate::entering::{Counting, enter_other};
use crate::known::{at_either, at_input, put_back};
use crate::loops::{enter_counting, enter_if, enter_while};
use crate::ranging::{Known, Site};
use crate::seen::Seen;
use crate::simple::{call, output, set_element, set_local, set_scalar};
use prem_tree::resolve::Step;
use std::alloc::{AllocError, Global};

/// Walks over a step: what is known becomes what is known behind it, and what is seen of it is put behind what was seen.
#[cycle(walking)]
pub fn walk(
    alloc: Global,
    site: &Site,
    around: u64,
    env: &mut Vec<Known>,
    seen: &mut Seen,
    step: &Step,
) -> Result<(), AllocError>
    ensures env { OnOk result (env_of env.new.items ≡ after (env_of env.old.items) (plain step.now)) }
    ensures seen { OnOk result (seen_of seen.new ≡ behind (site_of site.now) around (env_of env.old.items) (plain step.now) (seen_of seen.old)) }
{
    match step {
        Step::Block { body } => {
            walk_all(alloc, site, around, env, seen, body.items())?;
            Ok(())
        }
        Step::SetLocal { number, value, .. } => set_local(alloc, site, env, seen, *number, value),
        Step::SetScalar {
            at,
            global,
            value,
            ..
        } => set_scalar(alloc, site, env, seen, *at, *global, value),
        Step::SetElement {
            at,
            global,
            index,
            value,
            ..
        } => set_element(alloc, site, env, seen, *at, *global, index, value),
        Step::Output { value, .. } => output(alloc, site, env, seen, value),
        Step::Input { number, .. } => {
            at_input(env, *number);
            Ok(())
        }
        Step::If {
            condition,
            taken,
            other,
            ..
        } => {
            let arms = enter_if(alloc, site, env, seen, condition, taken, other)?;
            walk(alloc, site, around, env, seen, taken)?;
            let behind = enter_other(alloc, env, condition, &arms)?;
            walk(alloc, site, around, env, seen, other)?;
            at_either(env, &behind);
            Ok(())
        }
        Step::For {
            at,
            number,
            low,
            closed,
            high,
            step,
            body,
        } => {
            let counting = Counting {
                at: *at,
                number: *number,
                low,
                closed: *closed,
                high,
                step: *step,
                body,
            };
            let inner = enter_counting(alloc, site, around, env, seen, &counting)?;
            walk(alloc, site, inner.around, env, seen, body)?;
            put_back(env, &inner.behind);
            Ok(())
        }
        Step::While {
            at,
            turns,
            condition,
            body,
        } => {
            let inner = enter_while(alloc, site, around, env, seen, *at, *turns, condition, body)?;
            walk(alloc, site, inner.around, env, seen, body)?;
            put_back(env, &inner.behind);
            Ok(())
        }
        Step::Call {
            at,
            target,
            callee,
            arguments,
        } => call(
            alloc,
            site,
            env,
            seen,
            *at,
            *target,
            *callee,
            arguments.items(),
        ),
    }
}

/// Walks over steps, one after the other.
#[cycle(walking)]
fn walk_all(
    alloc: Global,
    site: &Site,
    around: u64,
    env: &mut Vec<Known>,
    seen: &mut Seen,
    steps: &[Step],
) -> Result<(), AllocError>
    ensures env { OnOk result (env_of env.new.items ≡ after (env_of env.old.items) (plain_list steps.now)) }
    ensures seen { OnOk result (seen_of seen.new ≡ behind (site_of site.now) around (env_of env.old.items) (plain_list steps.now) (seen_of seen.old)) }
{
    for s in steps {
        walk(alloc, site, around, env, seen, s)?;
    }
    Ok(())
}
