// What the jobs and intervals of tasks with scripts take, and when the jobs have ended.
ghost use Rattle.prem_resp.specs.Deadline.Deadlines.{PacedLoadsAreLoads, ScriptsFinishByCharges, ScriptsKeepCharges, ScriptsMeetDeadlines};
ghost use Rattle.prem_resp.specs.Deadline.Images.{ChargedImagesAreSound};

/// In every state of every run, each compatible interval has taken no more than its task's scopes are charged, and the core has worked
/// no more cycles for a job.
pub fn scripts_keep_charges()
    ensures { ScriptsKeepCharges }
{}

/// Each job of a task has ended so many cycles behind its release as the busy period of its level lasts, where that is
/// no longer than the task's period.
pub fn scripts_meet_deadlines()
    ensures { ScriptsMeetDeadlines }
{}

/// From the cycle on that is the last release and what all jobs are charged, a run has finished.
pub fn scripts_finish_by_charges()
    ensures { ScriptsFinishByCharges }
{}

/// An image whose tasks have scripts, and are charged as loads tell, is sound up to the limit of the charges, meets its deadlines by
/// them, and keeps its intervals.
pub fn charged_images_are_sound()
    ensures { ChargedImagesAreSound }
{}

/// Loads that tell what is due for each instruction are such loads.
pub fn paced_loads_are_loads()
    ensures { PacedLoadsAreLoads }
{}
