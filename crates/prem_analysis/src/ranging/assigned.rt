// The locals that steps assign.
ghost use Rattle.std.specs.Prelude.{◌≡◌};
ghost use Rattle.prem_ranges.specs.Environment.{loosened};
ghost use Rattle.prem_ranges.specs.After.{assigns, is_target};
ghost use Rattle.prem_analysis.specs.Ranging.View.{env_of};
ghost use Rattle.prem_analysis.specs.Ranging.Plain.{plain, plain_list};

use crate::ranging::environment::loosen;
use crate::ranging::found::Known;
use prem_tree::resolve::Step;

fn loosen_target(env: &mut [Known], target: Option<usize>)
    ensures { env_of env.new ≡ loosened (λ j. is_target j target) (env_of env.old) }
{
    if let Some(k) = target {
        loosen(env, k);
    }
}

/// No more is known of the locals that a step assigns.
#[cycle(loosening)]
pub fn loosen_assigned(env: &mut [Known], step: &Step)
    ensures { env_of env.new ≡ loosened (λ j. assigns j (plain step.now)) (env_of env.old) }
{
    match step {
        Step::Block { body } => loosen_all(env, body.items()),
        Step::SetLocal { number, .. } => loosen(env, *number),
        Step::SetScalar { .. } => {}
        Step::SetElement { .. } => {}
        Step::Output { .. } => {}
        Step::Input { number, .. } => loosen(env, *number),
        Step::If { taken, other, .. } => {
            loosen_assigned(env, taken);
            loosen_assigned(env, other);
        }
        Step::For { number, body, .. } => {
            loosen(env, *number);
            loosen_assigned(env, body);
        }
        Step::While { body, .. } => loosen_assigned(env, body),
        Step::Call { target, .. } => loosen_target(env, *target),
    }
}

#[cycle(loosening)]
fn loosen_all(env: &mut [Known], steps: &[Step])
    ensures { env_of env.new ≡ loosened (λ j. assigns j (plain_list steps.now)) (env_of env.old) }
{
    for s in steps {
        loosen_assigned(env, s);
    }
}
