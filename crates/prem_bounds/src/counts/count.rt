// The greatest count over the paths of steps.
ghost use Rattle.std.specs.Prelude.{◌≡◌, ◌*◌, drop, slice_index};
ghost use Rattle.prem_tree.specs.Resolve.ResolvedOf.{loops_of, list_loops};
ghost use Rattle.prem_bounds.specs.Counts.Count.{clipped, first_turn, most_of_step, most_of_list};

use crate::counts::sum::{clip, plus, times};
use prem_tree::resolve::Step;

/// A count, and the turns of the loops that follow.
#[derive(Clone, Copy)]
pub struct Counted<'a> {
    pub count: u64,
    pub rest: &'a [u32],
}

/// The turns of the next counting loop, and those of the loops that follow.
fn next_turns(turns: &[u32]) -> (u32, &[u32])
    ensures first { result.0 ≡ first_turn turns.now }
    ensures rest { result.1.now ≡ drop 1 turns.now }
{
    match turns {
        [] => (0, turns),
        [first, rest @ ..] => (*first, rest),
    }
}

/// What a call counts.
fn call_count(calls: &[u64], callee: usize) -> u64
    ensures { result ≡ clipped (slice_index calls.now callee) }
{
    clip(calls.get(callee).copied().unwrap_or(0))
}

/// The greatest count over the paths of a step, where an output and a call of each function count so much.
#[cycle(counting)]
pub fn count_of<'a>(step: &Step, output: u32, calls: &[u64], turns: &'a [u32]) -> Counted<'a>
    ensures count { result.count ≡ clipped (most_of_step output (slice_index calls.now) turns.now step.now) }
    ensures rest { result.rest.now ≡ drop (loops_of step.now) turns.now }
{
    match step {
        Step::Block { body } => count_in(body.items(), output, calls, turns),
        Step::If { taken, other, .. } => {
            let first = count_of(taken, output, calls, turns);
            let second = count_of(other, output, calls, first.rest);
            Counted {
                count: first.count.max(second.count),
                rest: second.rest,
            }
        }
        Step::For { body, .. } => {
            let (most, rest) = next_turns(turns);
            let inner = count_of(body, output, calls, rest);
            Counted {
                count: times(most, inner.count),
                rest: inner.rest,
            }
        }
        Step::While {
            turns: most,
            body,
            ..
        } => {
            let inner = count_of(body, output, calls, turns);
            Counted {
                count: times(*most, inner.count),
                rest: inner.rest,
            }
        }
        Step::Call { callee, .. } => Counted {
            count: call_count(calls, *callee),
            rest: turns,
        },
        Step::Output { .. } => Counted {
            count: u64::from(output),
            rest: turns,
        },
        Step::SetLocal { .. }
        | Step::SetScalar { .. }
        | Step::SetElement { .. }
        | Step::Input { .. } => Counted {
            count: 0,
            rest: turns,
        },
    }
}

#[cycle(counting)]
fn count_in<'a>(steps: &[Step], output: u32, calls: &[u64], turns: &'a [u32]) -> Counted<'a>
    ensures count { result.count ≡ clipped (most_of_list output (slice_index calls.now) turns.now steps.now) }
    ensures rest { result.rest.now ≡ drop (list_loops steps.now) turns.now }
{
    let mut count = 0;
    let mut rest = turns;
    for step in steps {
        let one = count_of(step, output, calls, rest);
        count = plus(count, one.count);
        rest = one.rest;
    }
    Counted { count, rest }
}
