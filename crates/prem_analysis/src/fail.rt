// Why a program may go wrong.
ghost use Rattle.std.specs.Prelude.{◌≡◌};
ghost use Rattle.prem_analysis.specs.declared.fail.RangeFail.TheVariants.{OutOfMemory};

use prem_tree::FnId;
use prem_word::Range;
use std::alloc::{AllocError, AllocFailed};

/// Why a program may go wrong: the first rule on ranges that it breaks, with the line of the place where it breaks it.
#[derive(Debug, PartialEq, Eq, Drop)]
pub enum RangeFail {
    /// The variable of a counting loop may pass the greatest int.
    LoopBound {
        line: u32,
    },
    /// A loop and those around it may take more than 2^40 turns together.
    TooLarge {
        line: u32,
    },
    /// A divisor may be 0.
    ZeroDivisor {
        line: u32,
        range: Range,
    },
    /// An index may be outside of its array.
    IndexOutside {
        line: u32,
        range: Range,
        len: u32,
    },
    /// Elements that a marked function, or one that it reaches, may access lie in none of its regions.
    RegionOutside {
        line: u32,
        function: FnId,
        range: Range,
        global: u16,
    },
    /// An argument may be outside of the range that its parameter states.
    ArgRange {
        line: u32,
        range: Range,
        stated: Range,
    },
    /// There was no memory to look through the program.
    OutOfMemory,
}

impl From<AllocError> for RangeFail {
    ghost from_gives = { λ _ fail. fail ≡ OutOfMemory };

    fn from(_error: AllocError) -> RangeFail {
        RangeFail::OutOfMemory
    }
}

impl<T: Drop> From<AllocFailed<T>> for RangeFail {
    ghost from_gives = { λ _ fail. fail ≡ OutOfMemory };

    fn from(_error: AllocFailed<T>) -> RangeFail {
        RangeFail::OutOfMemory
    }
}
