//! Scopes: executed instructions of one compatible interval with the lines that they may touch, and what they are charged.
ghost use Rattle.prem_sound.specs.Scopes.Laws.{ChargesByAccess, ChargesSumUp, KindsMissLittle, MissesOweLittle, PacedRunsAreCharged, ScopesMissLittle, ScopesSumUp, SinglesAreDue};
ghost use Rattle.prem_sound.specs.Scopes.Parted.{CallsAreStrands, EachIsParted, JobsEndDue, OneIsParted, PartsAreStrands, PartsGrow, PartsJoin, StrandsSumUp, StretchesShrink};
ghost use Rattle.prem_sound.specs.Scopes.Strands.{ChargesLookAtCalls, JobsAreCharged, StrandsAreCharged, StrandsJoin};

/// From any state of a cache, touches of a collection of lines miss at most once for each line in a set that has room for all of the
/// collection's lines, and for each touch in another set; and each miss makes the core owe a fill and a write back at most.
pub fn scopes_miss_little()
    ensures orders { ScopesMissLittle }
    ensures kinds { KindsMissLittle }
    ensures owed { MissesOweLittle }
{}

/// A scope is charged for its lines, and then each of its instructions; an instruction by itself is charged what is due for
/// it; and a run whose jobs have ended what they are.
pub fn scopes_sum_up()
    ensures sums { ScopesSumUp }
    ensures accesses { ChargesByAccess }
    ensures singles { SinglesAreDue }
    ensures jobs { ChargesSumUp }
{}

/// Where each instruction is a scope by itself, it is charged what is due for it: a paced run is charged as it is paced.
pub fn paced_runs_are_charged()
    ensures { PacedRunsAreCharged }
{}

/// A run that executes just the instructions of scopes and marked calls, one after another, is charged what these are; and these can
/// be told job by job.
pub fn strands_are_charged()
    ensures runs { StrandsAreCharged }
    ensures join { StrandsJoin }
    ensures jobs { JobsAreCharged }
    ensures calls { ChargesLookAtCalls }
{}

/// Instructions without marked calls are parted into scopes as one scope, one by one, or part by part; and so they are strands, which
/// are charged the sum of their parts.
pub fn parts_are_strands()
    ensures one { OneIsParted }
    ensures each { EachIsParted }
    ensures join { PartsJoin }
    ensures grow { PartsGrow }
    ensures strands { PartsAreStrands }
    ensures calls { CallsAreStrands }
    ensures ends { JobsEndDue }
    ensures sums { StrandsSumUp }
    ensures shrink { StretchesShrink }
{}
