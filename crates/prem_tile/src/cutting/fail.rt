// Why a function can't be cut.
ghost use Rattle.std.specs.Prelude.{◌≡◌};
ghost use Rattle.prem_tile.specs.declared.cutting.fail.TileFail.TheVariants.{OutOfMemory};

use prem_syntax::Name;
use std::alloc::{AllocError, AllocFailed};

/// Why a function can't be cut into tiles. Lines count from 1.
#[derive(Debug, PartialEq, Eq, Drop)]
pub enum TileFail {
    /// No marked function has the name.
    NoFunction,
    /// The function in this line doesn't consist of one counting loop between two literals that calls nothing, has
    /// parameters, or has locals that don't begin with a literal or a minus sign before one.
    Shape { line: u32 },
    /// A turn of the loop may read a local that an earlier turn assigned: the line of the first such read.
    Carry { line: u32 },
    /// The loop has this number of turns, which is less than that of the tiles.
    Turns { turns: u32 },
    /// A function, global, parameter or local has the name of a tile.
    Taken { name: Name },
    /// The program with tiles, a name in it or its canonical text is past a limit.
    Limit,
    /// There was no memory for it.
    OutOfMemory,
}

impl From<AllocError> for TileFail {
    ghost from_gives = { λ _ fail. fail ≡ OutOfMemory };

    fn from(_error: AllocError) -> TileFail {
        TileFail::OutOfMemory
    }
}

impl<T: Drop> From<AllocFailed<T>> for TileFail {
    ghost from_gives = { λ _ fail. fail ≡ OutOfMemory };

    fn from(_error: AllocFailed<T>) -> TileFail {
        TileFail::OutOfMemory
    }
}
