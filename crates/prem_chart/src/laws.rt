// What the last moments of a picture promise.
ghost use Rattle.prem_chart.specs.Served.{PromisesAreKept};

/// In every run of the image of a set that breaks no rule, whose requests keep the distances that words tell of their devices, each request
/// of a device to which a wait is promised has been transferred so many cycles behind its own, unless the run has finished before, and none
/// of the device is dropped.
pub fn promises_are_kept()
    ensures { PromisesAreKept }
{}
