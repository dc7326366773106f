// What the length of a busy period is good for.
ghost use Rattle.prem_resp.specs.Busy.Schedule.{JobsEndInTime, LengthsAreEnough};

/// Where the core chooses by priority and preempts no interval, each job of a task has ended so many cycles behind its
/// release as are enough for an interval behind the task, a job of it, and the jobs of those before it; and the length
/// of its busy period is enough.
pub fn jobs_end_in_time()
    ensures ended { JobsEndInTime }
    ensures lengths { LengthsAreEnough }
{}
