//! The stretches of jobs are no longer than those of the paths of their code.
ghost use Rattle.prem_sets_sound.specs.StubLaws.StretchLengths.Strided.{CalmRunsAreStrided, FunctionsReturnLast, PlacedJobsAreStrided};

/// The code of a function returns with its last instruction alone.
pub fn functions_return_last()
    ensures { FunctionsReturnLast }
{}

/// A run of code that changes no phase has no longer stretches than the paths through it.
pub fn calm_runs_are_strided()
    ensures { CalmRunsAreStrided }
{}

/// A call of the `job` of a placed task has no longer stretches than the paths of its code.
pub fn placed_jobs_are_strided()
    ensures { PlacedJobsAreStrided }
{}
