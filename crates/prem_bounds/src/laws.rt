// The law of stubs, as the contract of a function that does nothing.
ghost use Rattle.prem_bounds.specs.Laws.{StubsAreInOrder};

/// In the code of a task the stubs stand in the order of their plans, so each plan's stub has its number.
pub fn stubs_are_in_order()
    ensures { StubsAreInOrder }
{}
