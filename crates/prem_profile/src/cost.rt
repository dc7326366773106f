// What is spent at a place.
ghost use Rattle.std.specs.Prelude.{◌≡◌, ◌<◌, ◌^◌, ◌+◌};
ghost use Rattle.prem_profile.specs.Spent.{no_cost, plus};

/// What is spent at a place.
#[derive(Clone, Copy, PartialEq, Eq, Debug)]
pub struct Cost {
    /// The instructions that were executed.
    pub instructions: u64,
    /// The cycles that passed.
    pub cycles: u64,
    /// The lines that were brought into the cache.
    pub misses: u64,
    /// The lines that were written back to make room.
    pub backs: u64,
}

/// Nothing.
pub fn no_cost() -> Cost
    ensures { result ≡ no_cost }
{
    Cost {
        instructions: 0,
        cycles: 0,
        misses: 0,
        backs: 0,
    }
}

/// Both together.
pub fn plus(a: Cost, b: Cost) -> Cost
    requires instructions { a.instructions + b.instructions < 2 ^ 64 }
    requires cycles { a.cycles + b.cycles < 2 ^ 64 }
    requires misses { a.misses + b.misses < 2 ^ 64 }
    requires backs { a.backs + b.backs < 2 ^ 64 }
    ensures { result ≡ plus a b }
{
    Cost {
        instructions: a.instructions + b.instructions,
        cycles: a.cycles + b.cycles,
        misses: a.misses + b.misses,
        backs: a.backs + b.backs,
    }
}
