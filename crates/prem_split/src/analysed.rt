// The plans of analysed programs.
ghost use Rattle.std.specs.Prelude.{◌≡◌, IfOk, map};
ghost use Rattle.prem_list.specs.Sequence.{items_of};
ghost use Rattle.prem_analysis.specs.Analysed.{analysed_text};
ghost use Rattle.prem_split.specs.PlanOf.{plan_of};
ghost use Rattle.prem_split.specs.Texts.{HasFrames, plans_of};

use crate::facts::facts_of;
use crate::plan::IntervalPlan;
use crate::plans::intervals_of;
use prem_analysis::Analysed;
use prem_list::Sequence;
use prem_tree::resolve::resolve;
use std::alloc::{AllocError, Global};

/// The plans of the marked functions of an analysed program, in the order of the text.
#[tactic(auto, using(crate::proofs::MayHave::may_have_plans, crate::proofs::MayHave::plans_are_by_text))]
pub fn intervals(alloc: Global, a: &Analysed) -> Result<Sequence<IntervalPlan>, AllocError>
    requires { HasFrames (analysed_text a.now) }
    ensures { IfOk result (λ plans. map plan_of (items_of plans) ≡ plans_of (analysed_text a.now)) }
{
    let r = resolve(alloc, a.checked().program())?;
    let facts = facts_of(alloc, &r)?;
    intervals_of(alloc, &r, &facts)
}
