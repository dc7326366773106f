//! The run of each placed task that keeps the rules goes along a weave, and gives what its source means.
ghost use Rattle.prem_sets_sound.specs.TaskRuns.Joins.{TasksJoin, TasksPace, TasksTell};

/// At any lawful places, and for all input words, the run of a task that keeps the rules goes along a weave of own steps and marked calls,
/// each of which has its lines in the cache and fits its stated length. It never traps and ends after its jobs, with the outputs, the marked
/// calls and the globals that its source means; each job is charged at most its bound, and puts out and marks at most what is counted.
pub fn tasks_join()
    ensures { TasksJoin }
{}

/// And no job takes more than the bound of a job, and no compatible interval and no call lasts longer than the greatest stretch over
/// the paths of its code and the lengths that its marked functions state.
pub fn tasks_pace()
    ensures { TasksPace }
{}

/// And its weave is that of its jobs, each of which jumps to `job`, does there what a call of it means in the source, and ends.
pub fn tasks_tell()
    ensures { TasksTell }
{}
