// Laws over the definitions; each is the contract of a function that does nothing.
ghost use Rattle.prem_place.specs.Flat.Blocks.{ReachIsLowest, BlocksHaveWords};

/// Where a task's parts lie beside each other, the rule on jumps is broken by the one that starts lowest, of those that have a jump out of reach.
pub fn reach_is_lowest()
    ensures { ReachIsLowest }
{}

/// The blocks of a placed task have the words of its parts.
pub fn blocks_have_words()
    ensures { BlocksHaveWords }
{}
