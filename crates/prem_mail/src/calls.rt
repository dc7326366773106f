// A law on calls of a run; it is the contract of a function that does nothing.
ghost use Rattle.prem_mail.specs.Calls.{TwoCallsAreOne};

/// Two calls of `run_to` one behind the other are one call up to the later cycle: the state, the lists and the lost values are the same, and so is
/// the reason why the run stops, which the state tells.
pub fn two_calls_are_one()
    ensures { TwoCallsAreOne }
{}
