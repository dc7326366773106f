// Laws over the definitions; each is the contract of a function that does nothing.
ghost use Rattle.prem_pair_top.specs.Sound.{PairLimitsAreSmall, PairReportsEnd, PairsOfSetsAreSound};

/// Two sets that break no rule, of which the second has no device, are sound together: for all input words of both and all requests, in
/// each state of each run of their compiled images no task has trapped, no cycle of the bus was wanted by two, and each core has kept what
/// its own set's soundness says; from their limit on both have finished. A machine reaches that limit, and a report of such a run ends
/// as finished or stopped, never with a trap or a full log.
pub fn pairs_of_sets_are_sound()
    ensures sound { PairsOfSetsAreSound }
    ensures limits { PairLimitsAreSmall }
    ensures reports { PairReportsEnd }
{}
