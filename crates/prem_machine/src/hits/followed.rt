// What instructions that hit have come to.
ghost use Rattle.std.specs.Prelude.{◌≡◌, ◌+◌, ◌^◌, ◌<◌, ◌≤◌};
ghost use Rattle.prem_machine.specs.Hits.{stores_in};

use prem_isa::{Phase, Stored};

/// What instructions that hit have come to: their cycles, the lines that they have found, and the stores that they count as.
#[derive(Clone, Copy, PartialEq, Eq, Debug)]
pub(crate) struct Followed {
    pub time: u64,
    pub hits: u32,
    pub stores: u32,
}

impl Followed {
    /// One more, of this cost, that has found so many lines and counts as so many stores.
    #[inline(always)]
    pub fn add(&mut self, cost: u32, hits: u32, stores: u32)
        requires time { self.old.time < 2 ^ 63 }
        requires few { (hits ≤ 2) × (stores ≤ 1) }
        requires hits { self.old.hits < 2 ^ 31 }
        requires stores { self.old.stores < 2 ^ 31 }
        ensures time { self.new.time ≡ self.old.time + cost }
        ensures hits { self.new.hits ≡ self.old.hits + hits }
        ensures stores { self.new.stores ≡ self.old.stores + stores }
    {
        self.time += u64::from(cost);
        self.hits += hits;
        self.stores += stores;
    }
}

/// What a store counts as in a phase.
#[inline(always)]
pub(crate) fn stores_in(phase: Phase, stored: Option<Stored>) -> u32
    ensures { result ≡ stores_in phase stored }
{
    match stored {
        Some(_) => { if phase == Phase::Memory { 1 } else { 0 } }
        None => 0,
    }
}
