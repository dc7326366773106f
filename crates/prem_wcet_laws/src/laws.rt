// Laws over the definitions; each is the contract of a function that does nothing.
ghost use Rattle.prem_wcet_laws.specs.Divided.{WithinPlaceWeights};
ghost use Rattle.prem_wcet_laws.specs.FunctionLaws.{FunctionsDivide};
ghost use Rattle.prem_wcet_laws.specs.Laws.{LongestIsWithin, WcetIsWithin};
ghost use Rattle.prem_wcet_laws.specs.LeastLaws.{StepsDivide};
ghost use Rattle.prem_wcet_laws.specs.Named.{FunctionsNameAll, StepsNameAll};
ghost use Rattle.prem_wcet_laws.specs.PartedLaws.{FunctionsCourse, StepsCourse};
ghost use Rattle.prem_wcet_laws.specs.Scenes.{QuietJobsDivide, ScenesStand};
ghost use Rattle.prem_wcet_laws.specs.ScopeLaws.{StepsAreScopes};
ghost use Rattle.prem_wcet_laws.specs.Starts.{QuietStartsAreScopes};
ghost use Rattle.prem_wcet_laws.specs.TaskLaws.{CallsDivide, FramesWork};

/// What a job takes at most is no more than by the rule that counts a miss for each touch.
pub fn wcet_is_within()
    ensures { WcetIsWithin }
{}

/// Nor is the longest stretch or interval.
pub fn longest_is_within()
    ensures { LongestIsWithin }
{}

/// A run weighs, place by place, no more than the greatest weight over the paths of its pieces.
pub fn runs_are_within_place_weights()
    ensures { WithinPlaceWeights }
{}

/// Statements and functions access the globals alone that they and their callees name.
pub fn names_are_all()
    ensures steps { StepsNameAll }
    ensures functions { FunctionsNameAll }
{}

/// The code of statements runs as one scope: within its collection, for no more than its charge.
pub fn steps_are_scopes()
    ensures { StepsAreScopes }
{}

/// It runs in scopes that are charged, with the steps between them, no more than its least charge.
pub fn steps_divide()
    ensures { StepsDivide }
{}

/// So does the code of a function, from its own frame on.
pub fn functions_divide()
    ensures { FunctionsDivide }
{}

/// So do all calls of the functions of a task, from any frame, where each function has its scene.
pub fn calls_divide()
    ensures calls { CallsDivide }
    ensures frames { FramesWork }
{}

/// The facts from which a task's least charges are counted tell of its functions.
pub fn scenes_stand()
    ensures { ScenesStand }
{}

/// A job without marked calls runs in scopes that are charged no more than its least charge.
pub fn quiet_jobs_divide()
    ensures { QuietJobsDivide }
{}

/// With the start's jump and the job's end it is one scope, for no more than the charge of the start.
pub fn quiet_starts_are_scopes()
    ensures { QuietStartsAreScopes }
{}

/// Statements with marked calls run in scopes and marked calls, charged no more than their parted charge.
pub fn steps_course()
    ensures { StepsCourse }
{}

/// So does the code of a function that has such statements.
pub fn functions_course()
    ensures { FunctionsCourse }
{}
