// What the times of a set promise.
ghost use Rattle.prem_time.specs.Fits.{FittingSetsEndInTime, LateDevicesHaveCause, LateSetsHavePast, SetsKeepTimes, SetsServeNamed};

/// In every run of the image of a set that breaks no rule each compatible interval has taken, with its switch, at most the longest of its
/// task, the core has worked for each job at most what a job of its task takes, and from the limit on the run has finished.
pub fn sets_keep_times()
    ensures { SetsKeepTimes }
{}

/// Where the busy periods of a set that breaks no rule are all within the periods, each job of each task has ended so
/// many cycles behind its release as is found of its busy period, in every run of the set's image.
pub fn fitting_sets_end_in_time()
    ensures { FittingSetsEndInTime }
{}

/// Where they aren't, there is a task with no busy period within its period.
pub fn late_sets_have_past()
    ensures { LateSetsHavePast }
{}

/// In every run of the image of a set that breaks no rule, whose devices keep the distances that are said of those that are named, each
/// request of such a device that has found room has been transferred as many cycles behind its own as its wait, if there is one; and none
/// is dropped where its queue holds as many as come in as many cycles.
pub fn sets_serve_named()
    ensures { SetsServeNamed }
{}

/// Where all tasks are in time and a device isn't, no number of cycles up to the greatest that is told is enough, or its queue holds fewer
/// requests than come in its wait.
pub fn late_devices_have_cause()
    ensures { LateDevicesHaveCause }
{}
