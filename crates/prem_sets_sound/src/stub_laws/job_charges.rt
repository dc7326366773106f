//! What the steps of a job are charged: no more than the bound of a job.
ghost use Rattle.prem_sets_sound.specs.StubLaws.JobCharges.Charged.{CalmRunsAreCharged, FunctionsCall, StubsAreCharged};
ghost use Rattle.prem_sets_sound.specs.StubLaws.JobCharges.Dues.{JobsAreBounded, PartsAreCharged, PlacedJobsAreBounded};

/// Code that changes no phase is charged at most the greatest weight over its paths, and the stub of a marked call the weight of its
/// stated length. The code of a function calls the parts of functions that it may call alone.
pub fn runs_are_charged()
    ensures runs { CalmRunsAreCharged }
    ensures stubs { StubsAreCharged }
    ensures called { FunctionsCall }
{}

/// Calls of the functions and stubs of a task are charged at most what the bounds count, so a job is charged at most its bound.
pub fn jobs_are_bounded()
    ensures parts { PartsAreCharged }
    ensures bound { JobsAreBounded }
    ensures placed { PlacedJobsAreBounded }
{}
