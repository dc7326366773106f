//! Dull cycles, in which nothing but time goes on: what they are, and what so many of them come to.
ghost use Rattle.prem_cycle.specs.Runs.Dull.Issuing.{InstructionsIssueAlone};
ghost use Rattle.prem_cycle.specs.Runs.Dull.Laws.{DullCyclesRest, RestsAreDull, RestsComeToOneStep};

/// From a steady state so many cycles are dull exactly where no request arrives in them, the bus starts and ends nothing,
/// and the core's part does nothing but count. They come to one step: what is left is so many cycles less, and the clashes
/// among them are added.
pub fn dull_cycles_come_to_one_step()
    ensures dull { RestsAreDull }
    ensures rest { DullCyclesRest }
    ensures step { RestsComeToOneStep }
{}

/// Where a task runs, nothing is owed, its interval goes on, no request arrives and the bus has nothing to do, a cycle is its
/// next instruction alone, whatever waits in the queues.
pub fn instructions_issue_alone()
    ensures { InstructionsIssueAlone }
{}
