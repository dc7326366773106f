//! Sets that break no rule meet their deadlines by what their jobs take at most.
ghost use Rattle.prem_time.specs.Deadlines.Deadlines.{LoadsTell, SetsMeetDeadlinesByWcet};

/// Each setup has loads that tell what its jobs are charged.
pub fn loads_tell()
    ensures { LoadsTell }
{}

/// By loads that tell what jobs take at most and their longest intervals, each job of a set that breaks no rule has ended within its busy
/// period behind its release, where that is within its period; each compatible interval lasts no longer than the longest; and the core
/// works for no job longer than it takes at most, with its switches and waits.
pub fn sets_meet_deadlines_by_wcet()
    ensures { SetsMeetDeadlinesByWcet }
{}
