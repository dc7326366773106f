// Sets that break no rule go by what their jobs take at most, where each line that has room in the cache is counted once.
ghost use Rattle.prem_latency.specs.Wcet.Aligned.{CoursesAreStrands};
ghost use Rattle.prem_latency.specs.Wcet.Jobs.{CourseJobsAreCharged};
ghost use Rattle.prem_latency.specs.Wcet.Marked.{PlacedJobsCourse, PlacedJobsShut};
ghost use Rattle.prem_latency.specs.Wcet.Partings.{DivisionsArePartings, LonesAgree, ScopesAgree};
ghost use Rattle.prem_latency.specs.Wcet.QuietJobs.{PlacedQuietJobsDivide, PlacedQuietStarts};
ghost use Rattle.prem_latency.specs.Wcet.Sets.{MeantTasksGoByWcet, MeantTasksShutByWcet, SetsGoByWcet};
ghost use Rattle.prem_latency.specs.Wcet.Stands.{PlacedFramesStand, PlacedTasksStand};
ghost use Rattle.prem_latency.specs.Wcet.Tasks.{TasksGoByWcet, TasksShutByWcet};
ghost use Rattle.prem_latency.specs.Wcet.Walk.{JobsGoByCourses, JobsGoByScopes};

/// A placed task that keeps the rules stands as the least charges ask, and so does the frame of its `job`.
pub fn placed_tasks_stand()
    ensures tasks { PlacedTasksStand }
    ensures frames { PlacedFramesStand }
{}

/// A call of its `job` runs in scopes, lone steps and marked calls, charged no more than the parted charge; and with marked calls that
/// count no more than they keep the bus closed, no more than the parted charge of plans with these lengths.
pub fn placed_jobs_course()
    ensures stated { PlacedJobsCourse }
    ensures shut { PlacedJobsShut }
{}

/// A call of a `job` without marked calls runs in scopes and lone steps, charged no more than the least charge, and is one scope
/// with the jump from the start and the job's end.
pub fn placed_quiet_jobs_divide()
    ensures apart { PlacedQuietJobsDivide }
    ensures whole { PlacedQuietStarts }
{}

/// Steps that divide into scopes by their code are parted into the machine's scopes, at the same charge.
pub fn divisions_are_partings()
    ensures scopes { ScopesAgree }
    ensures lones { LonesAgree }
    ensures partings { DivisionsArePartings }
{}

/// A course along a weave, whose steps outside of marked calls change no phase, is a strand that is charged no more.
pub fn courses_are_strands()
    ensures { CoursesAreStrands }
{}

/// So are jobs, one behind another, where each course has its job's end behind it.
pub fn course_jobs_are_charged()
    ensures { CourseJobsAreCharged }
{}

/// The jobs along a task's weave are charged what their calls are, each with one switch, the start and its end.
pub fn jobs_go()
    ensures courses { JobsGoByCourses }
    ensures scopes { JobsGoByScopes }
{}

/// At any lawful places, and for all input words, no job of a task that keeps the rules takes more than `wcet_of`, and no stretch or call
/// lasts longer than its longest; and no job keeps the bus closed for longer than it takes with calls that last until a transfer may start.
pub fn tasks_go_by_wcet()
    ensures stated { TasksGoByWcet }
    ensures shut { TasksShutByWcet }
{}

/// So sets that break no rule are sound up to the limit of these, at any lawful places.
pub fn sets_go_by_wcet()
    ensures tasks { MeantTasksGoByWcet }
    ensures shut { MeantTasksShutByWcet }
    ensures sets { SetsGoByWcet }
{}
