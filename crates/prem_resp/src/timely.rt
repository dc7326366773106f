//! The jobs of a compiled set end in time where the busy periods of its loads are within the periods.
ghost use Rattle.prem_resp.specs.Timely.Timely.{LaidOutSetsMeetDeadlines, SetsMeetDeadlines};

/// Where the busy period of a task's level lasts no longer than the task's period, each job of the task has ended so many
/// cycles behind its release, in every run of the image of a set that breaks no rule: at its places and at any other
/// lawful ones.
pub fn sets_meet_deadlines()
    ensures laid_out { LaidOutSetsMeetDeadlines }
    ensures sets { SetsMeetDeadlines }
{}
