// Why a run gives nothing.
ghost use Rattle.std.specs.Prelude.{◌≡◌};
ghost use Rattle.prem_tree.specs.declared.state.fail.SourceFail.TheVariants.{Wrong, OutOfMemory};

use std::alloc::{AllocError, AllocFailed};
use thiserror::Error;

/// Why a run gives nothing.
#[derive(Clone, Copy, Debug, PartialEq, Eq, Error)]
pub enum SourceFail {
    /// The program goes wrong at this line: it divides by 0, accesses an element that isn't there, or a counting loop
    /// passes 2147483647.
    #[error("wrong at line {line}")]
    Wrong { line: u32 },
    #[error("out of memory")]
    OutOfMemory,
}

impl From<u32> for SourceFail {
    ghost from_gives = { λ line e. e ≡ Wrong line };

    fn from(line: u32) -> SourceFail {
        SourceFail::Wrong { line }
    }
}

impl From<AllocError> for SourceFail {
    ghost from_gives = { λ _ e. e ≡ OutOfMemory };

    fn from(_e: AllocError) -> SourceFail {
        SourceFail::OutOfMemory
    }
}

impl<T: Drop> From<AllocFailed<T>> for SourceFail {
    ghost from_gives = { λ _ e. e ≡ OutOfMemory };

    fn from(_e: AllocFailed<T>) -> SourceFail {
        SourceFail::OutOfMemory
    }
}
