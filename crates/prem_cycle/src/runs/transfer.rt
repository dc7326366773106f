//! Each transfer of a run takes the cycles of its device, from its first cycle on.
ghost use Rattle.prem_cycle.specs.Runs.Transfer.Lengths.{TransfersTakeTheirCycles, TransfersAreOnTheirWay};

/// A transfer whose cycles are told as those of its device took them: where a cycle of a run ends a transfer, it is the
/// last of so many, counted from the transfer's first cycle. Each cycle ends one transfer or none, and until then the
/// bus carries it, with as many cycles to go as are left of its device's.
pub fn transfers_take_their_cycles()
    ensures ended { TransfersTakeTheirCycles }
    ensures carried { TransfersAreOnTheirWay }
{}
