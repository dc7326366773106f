// Laws over the definitions; each is the contract of a function that does nothing.
ghost use Rattle.prem_prefetch.specs.Sizes.Laws.{ProgramsMayHavePlans, TasksMayHaveParts, SetsMayHaveParts, PartsAreExact};

/// A well-formed program that keeps to the rules on frames may have plans.
pub fn programs_may_have_plans()
    ensures { ProgramsMayHavePlans }
{}

/// A task whose program is well-formed and has code of less than 2^32 bytes for each function may have parts.
pub fn tasks_may_have_parts()
    ensures { TasksMayHaveParts }
{}

/// All tasks of a set whose programs are so may have parts.
pub fn sets_may_have_parts()
    ensures { SetsMayHaveParts }
{}

/// The parts of tasks in memory are those of the tasks for which they stand.
pub fn parts_are_exact()
    ensures { PartsAreExact }
{}
