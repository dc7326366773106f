// Laws over the definitions; each is the contract of a function that does nothing.
ghost use Rattle.prem_prefetch.specs.Parts.Parts.{StacksAreExact, PartsAreTheTasks};

/// The stack of a program in memory is that of the program that it stands for.
pub fn stacks_are_exact()
    ensures { StacksAreExact }
{}

/// Parts from plans, globals and the stack of a program are those of its task.
pub fn parts_are_the_tasks()
    ensures { PartsAreTheTasks }
{}
