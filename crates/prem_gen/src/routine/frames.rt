// Frames of functions. What passes 2^32 counts as 2^32, which is more than a frame may have.
ghost use Rattle.std.specs.Prelude.{◌≡◌, min};
ghost use Rattle.prem_gen.specs.Routine.StepCode.{whiles_of, list_whiles};
ghost use Rattle.prem_gen.specs.Frame.FrameOf.{most, frame_bytes};
ghost use Rattle.prem_gen.specs.Routine.FrameOf.{slots_in};

use crate::frame::{capped_count, capped_sum, frame_bytes};
use prem_tree::resolve::{Routine, Step};

/// The `BOUNDED` loops of a step.
#[cycle(whiles)]
#[tactic(auto, using(crate::proofs::FrameLemmas::Limited::capped_sum, crate::proofs::FrameLemmas::Limited::capped_next))]
fn whiles(step: &Step) -> u64
    ensures { result ≡ min (whiles_of step.now) most }
{
    match step {
        Step::Block { body } => whiles_among(body.items()),
        Step::If { taken, other, .. } => capped_sum(whiles(taken), whiles(other)),
        Step::For { body, .. } => whiles(body),
        Step::While { body, .. } => capped_sum(1, whiles(body)),
        Step::SetLocal { .. }
        | Step::SetScalar { .. }
        | Step::SetElement { .. }
        | Step::Output { .. }
        | Step::Input { .. }
        | Step::Call { .. } => 0,
    }
}

/// The `BOUNDED` loops of steps.
#[cycle(whiles)]
fn whiles_among(steps: &[Step]) -> u64
    ensures { result ≡ min (list_whiles steps.now) most }
{
    let mut found = 0;
    for step in steps {
        found = capped_sum(found, whiles(step));
    }
    found
}

/// Parameters, locals and counters.
#[tactic(auto, using(crate::proofs::FrameLemmas::Limited::capped_sum))]
fn slots(routine: &Routine<'_>) -> u64
    ensures { result ≡ min (slots_in routine.now) most }
{
    let params = capped_count(routine.text.params.items().len());
    let locals = capped_count(routine.locals.items().len());
    capped_sum(capped_sum(params, locals), whiles(&routine.body))
}

/// The bytes of a function's frame.
pub fn frame(routine: &Routine<'_>) -> u64
    ensures { result ≡ frame_bytes (min (slots_in routine.now) most) }
{
    frame_bytes(slots(routine))
}
