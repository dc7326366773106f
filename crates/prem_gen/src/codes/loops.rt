// The counting loops of functions.
ghost use Rattle.std.specs.Prelude.{◌≡◌, ◌+◌, min};
ghost use Rattle.prem_tree.specs.Resolve.ResolvedOf.{loops_of, list_loops, all_loops};
ghost use Rattle.prem_gen.specs.Codes.Loops.{most_loops};

use prem_tree::resolve::{Routine, Step};

/// A sum of two counts.
fn sum(a: usize, b: usize) -> usize
    ensures { result ≡ min (a + b) most_loops }
{
    a.saturating_add(b)
}

/// The counting loops of a step.
#[cycle(loops)]
#[tactic(auto, using(crate::proofs::CodesLemmas::LoopSums::capped_sum, crate::proofs::CodesLemmas::LoopSums::capped_next))]
pub fn loops(step: &Step) -> usize
    ensures { result ≡ min (loops_of step.now) most_loops }
{
    match step {
        Step::Block { body } => loops_among(body.items()),
        Step::If { taken, other, .. } => sum(loops(taken), loops(other)),
        Step::For { body, .. } => sum(1, loops(body)),
        Step::While { body, .. } => loops(body),
        Step::SetLocal { .. }
        | Step::SetScalar { .. }
        | Step::SetElement { .. }
        | Step::Output { .. }
        | Step::Input { .. }
        | Step::Call { .. } => 0,
    }
}

/// The counting loops of steps.
#[cycle(loops)]
fn loops_among(steps: &[Step]) -> usize
    ensures { result ≡ min (list_loops steps.now) most_loops }
{
    let mut found = 0;
    for step in steps {
        found = sum(found, loops(step));
    }
    found
}

/// The counting loops of functions.
pub fn loops_of_all(routines: &[Routine<'_>]) -> usize
    ensures { result ≡ min (all_loops routines.now) most_loops }
{
    let mut found = 0;
    for routine in routines {
        found = sum(found, loops(&routine.body));
    }
    found
}
