//! The instructions that the machine executes are those of each task's run on its own, and the run of one task ends in time.
ghost use Rattle.prem_cycle.specs.Runs.Position.Issued.{InstructionsAreAlone, TasksStandAsAlone};
ghost use Rattle.prem_cycle.specs.Runs.Position.Finish.{FinishesInTime, FinishesOneJob, LoneIssuesAsAlone, LoneStandsAsAlone};
ghost use Rattle.prem_cycle.specs.Runs.Position.Images.{ImageFinishesInTime, ImageFinishesOneJob};

/// Several tasks, each with bytes of its own, and devices: where no task's run on its own traps or touches other
/// bytes, each task is in every state of the machine's run where its run on its own is after as many instructions as
/// it has issued. Registers, place, phase, inputs and outputs are the same, and so are the task's own bytes, as the
/// core sees them through the cache. No other task and no device changes that, whatever lines they bring in, drop
/// or write back. Each resident line that isn't dirty has memory's bytes.
pub fn tasks_stand_as_alone()
    ensures { TasksStandAsAlone }
{}

/// Each instruction that issues is the one that its task's run on its own executes after as many instructions as the
/// task has issued before.
pub fn instructions_are_alone()
    ensures { InstructionsAreAlone }
{}

/// One task without devices, whose run on its own never traps: the machine's run has its registers, its place, its
/// words and all bytes of memory, and issues its instructions.
pub fn lone_runs_stand_as_alone()
    ensures states { LoneStandsAsAlone }
    ensures issues { LoneIssuesAsAlone }
{}

/// One task without devices, whose run on its own ends all its jobs in compatible intervals, with fewer output words
/// than a log holds. The cycles that are due are those up to the last release, a switch for each job, and for each
/// executed instruction its cost, and a fill and a write back for each of its accesses. When they have passed, and at
/// any time after, the machine's run has finished, without a trap or a full log, with the outputs and the bytes of the
/// run on its own. For one job of n instructions a switch and n times the greatest cost of the target and two accesses are enough.
pub fn lone_runs_finish_in_time()
    ensures due { FinishesInTime }
    ensures one_job { FinishesOneJob }
{}

/// What `lone_runs_finish_in_time` says, of an image of one task without devices.
pub fn images_finish_in_time()
    ensures due { ImageFinishesInTime }
    ensures one_job { ImageFinishesOneJob }
{}
