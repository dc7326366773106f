//! What is known of locals, in a vector: each of these changes it as its namesake does a slice.
ghost use Rattle.std.specs.Prelude.{◌≡◌};
ghost use Rattle.prem_tree.specs.Resolve.ResolvedOf.{term_of};
ghost use Rattle.prem_ranges.specs.Environment.{at_local, with_range, assigned, any_again};
ghost use Rattle.prem_ranges.specs.RangeOf.{refined};
ghost use Rattle.prem_ranges.specs.After.{in_counting, in_while, behind_call};
ghost use Rattle.prem_ranges.specs.Saves.Saves.{restored, merged};
ghost use Rattle.prem_analysis.specs.Ranging.View.{span_of, env_of, saves_of};
ghost use Rattle.prem_analysis.specs.Ranging.Plain.{plain};

use crate::ranging::{
    Known, Range, Saved, assign, loosen, loosen_assigned, merge, refine, restore, set_range,
};
use prem_tree::resolve::{Step, Term};

fn loosen_loop(env: &mut [Known], k: usize, body: &Step)
    ensures { env_of env.new ≡ in_counting k (plain body.now) (env_of env.old) }
{
    loosen(env, k);
    loosen_assigned(env, body);
}

/// No more is known of a counting loop's variable, and of the locals that its body assigns.
pub fn at_counting(env: &mut Vec<Known>, k: usize, body: &Step)
    ensures { env_of env.new.items ≡ in_counting k (plain body.now) (env_of env.old.items) }
{
    loosen_loop(env, k, body);
}

/// No more is known of the locals that the body of a `while` assigns.
pub fn at_while(env: &mut Vec<Known>, body: &Step)
    ensures { env_of env.new.items ≡ in_while (plain body.now) (env_of env.old.items) }
{
    loosen_assigned(env, body);
}

/// A condition is true, or false.
pub fn at_condition(b: bool, env: &mut Vec<Known>, condition: &Term)
    ensures { env_of env.new.items ≡ refined b (env_of env.old.items) (term_of condition.now) }
{
    refine(b, env, condition);
}

/// A local has a range.
pub fn at_range(env: &mut Vec<Known>, k: usize, r: Range)
    ensures { env_of env.new.items ≡ at_local k (with_range (span_of r)) (env_of env.old.items) }
{
    set_range(env, k, r);
}

/// A local gets a value of a range.
pub fn at_value(env: &mut Vec<Known>, k: usize, r: Range)
    ensures { env_of env.new.items ≡ at_local k (assigned (span_of r)) (env_of env.old.items) }
{
    assign(env, k, r);
}

/// A local gets any value.
pub fn at_input(env: &mut Vec<Known>, k: usize)
    ensures { env_of env.new.items ≡ at_local k any_again (env_of env.old.items) }
{
    loosen(env, k);
}

/// A call comes back.
pub fn at_return(env: &mut Vec<Known>, target: Option<usize>)
    ensures { env_of env.new.items ≡ behind_call target (env_of env.old.items) }
{
    if let Some(k) = target {
        loosen(env, k);
    }
}

/// The same is known again as was saved.
pub fn put_back(env: &mut Vec<Known>, saves: &[Saved])
    ensures { env_of env.new.items ≡ restored (saves_of saves.now) (env_of env.old.items) }
{
    restore(env, saves);
}

/// Behind either of two ways, where what is known behind the first was saved.
pub fn at_either(env: &mut Vec<Known>, saves: &[Saved])
    ensures { env_of env.new.items ≡ merged (saves_of saves.now) (env_of env.old.items) }
{
    merge(env, saves);
}
