// The walk over steps.
ghost use Rattle.std.specs.Prelude.{◌≡◌, OnOk};
ghost use Rattle.prem_ranges.specs.After.{after};
ghost use Rattle.prem_analysis.specs.Ranging.View.{env_of};
ghost use Rattle.prem_analysis.specs.Ranging.Plain.{plain, plain_list};
ghost use Rattle.prem_annotate.specs.Seeing.Sight.{sight_of};
ghost use Rattle.prem_annotate.specs.Seeing.Walk.{behind};

use crate::seeing::entering::{enter_counting, enter_if, enter_while};
use crate::seeing::sight::Sight;
use crate::seeing::simple::{call, output, set_element, set_local, set_scalar};
use prem_analysis::entering::{Counting, enter_other};
use prem_analysis::known::{at_either, at_input, put_back};
use prem_analysis::ranging::Known;
use prem_tree::resolve::Step;
use std::alloc::{AllocError, Global};

/// Walks over a step: what is known becomes what is known behind it, and what is seen of it is put behind what was seen.
#[cycle(walking)]
pub fn walk(
    alloc: Global,
    env: &mut Vec<Known>,
    sight: &mut Sight,
    step: &Step,
) -> Result<(), AllocError>
    ensures env { OnOk result (env_of env.new.items ≡ after (env_of env.old.items) (plain step.now)) }
    ensures sight { OnOk result (sight_of sight.new ≡ behind (env_of env.old.items) (plain step.now) (sight_of sight.old)) }
{
    match step {
        Step::Block { body } => {
            walk_all(alloc, env, sight, body.items())?;
            Ok(())
        }
        Step::SetLocal { number, value, .. } => set_local(alloc, env, sight, *number, value),
        Step::SetScalar {
            at,
            global,
            value,
            ..
        } => set_scalar(alloc, env, sight, *at, *global, value),
        Step::SetElement {
            at,
            global,
            index,
            value,
            ..
        } => set_element(alloc, env, sight, *at, *global, index, value),
        Step::Output { value, .. } => output(alloc, env, sight, value),
        Step::Input { number, .. } => {
            at_input(env, *number);
            Ok(())
        }
        Step::If {
            condition,
            taken,
            other,
            ..
        } => {
            let arms = enter_if(alloc, env, sight, condition, taken, other)?;
            walk(alloc, env, sight, taken)?;
            let behind = enter_other(alloc, env, condition, &arms)?;
            walk(alloc, env, sight, other)?;
            at_either(env, &behind);
            Ok(())
        }
        Step::For {
            at,
            number,
            low,
            closed,
            high,
            step,
            body,
        } => {
            let counting = Counting {
                at: *at,
                number: *number,
                low,
                closed: *closed,
                high,
                step: *step,
                body,
            };
            let behind = enter_counting(alloc, env, sight, &counting)?;
            walk(alloc, env, sight, body)?;
            put_back(env, &behind);
            Ok(())
        }
        Step::While {
            condition,
            body,
            ..
        } => {
            let behind = enter_while(alloc, env, sight, condition, body)?;
            walk(alloc, env, sight, body)?;
            put_back(env, &behind);
            Ok(())
        }
        Step::Call {
            target,
            callee,
            arguments,
            ..
        } => call(alloc, env, sight, *target, *callee, arguments.items()),
    }
}

/// Walks over steps, one after the other.
#[cycle(walking)]
fn walk_all(
    alloc: Global,
    env: &mut Vec<Known>,
    sight: &mut Sight,
    steps: &[Step],
) -> Result<(), AllocError>
    ensures env { OnOk result (env_of env.new.items ≡ after (env_of env.old.items) (plain_list steps.now)) }
    ensures sight { OnOk result (sight_of sight.new ≡ behind (env_of env.old.items) (plain_list steps.now) (sight_of sight.old)) }
{
    for s in steps {
        walk(alloc, env, sight, s)?;
    }
    Ok(())
}
