//! Transfers lie inside windows, and no transfer is carried while an instruction issues outside an execution phase.
ghost use Rattle.prem_cycle.specs.Runs.Window.Windows.{CyclesKeepWindows, InputsKeepWindows, QuietOutsideExecution, RunsKeepWindows};
ghost use Rattle.prem_cycle.specs.Runs.Window.Wants.{WantsAreSeen};

/// Where every device's transfers take some time, the transfer that is carried lies inside the window in every state
/// of every run, whatever the tasks execute and the devices ask for. The window of an execution phase closes by the end
/// of the interval, that of an idle time by its end, and in compatible intervals, memory phases and switches it is closed.
/// At most one task is in its execution phase, and that one runs.
pub fn transfers_lie_inside_windows()
    ensures runs { RunsKeepWindows }
    ensures cycles { CyclesKeepWindows }
    ensures inputs { InputsKeepWindows }
{}

/// In a cycle in which a task issues that isn't in its execution phase, no transfer is carried, none starts, and none
/// ends, so the bus leaves memory as it was: an instruction of a compatible interval or of a memory phase meets none.
pub fn instructions_outside_execution_meet_no_transfer()
    ensures { QuietOutsideExecution }
{}

/// Whether the coming cycle takes an input word that isn't there, and of which task, is seen on the state before it: no
/// request and no transfer of that cycle changes it.
pub fn wanted_inputs_are_seen_before_the_cycle()
    ensures { WantsAreSeen }
{}
