// Why a program isn't well-formed.
ghost use Rattle.std.specs.Prelude.{◌≡◌};
ghost use Rattle.prem_check.specs.declared.fail.CheckFail.TheVariants.{OutOfMemory};

use prem_syntax::{Count, Name, TypeRule};
use std::alloc::{AllocError, AllocFailed};
use thiserror::Error;

/// Why a program isn't well-formed: the first rule that it breaks, with the line of the place where it breaks it.
#[derive(Debug, PartialEq, Eq, Drop, Error)]
pub enum CheckFail {
    /// There are too many of something, or a length is out of its range.
    #[error("past a limit")]
    Limit { which: Count },
    /// There is no function `job`.
    #[error("there is no job")]
    NoJob,
    /// A name stands for nothing at its place.
    #[error("unknown name at line {line}")]
    Unknown { line: u32, name: Name },
    /// A name is declared a second time.
    #[error("second declaration at line {line}")]
    Twice { line: u32, name: Name },
    /// A rule on types is broken.
    #[error("wrong type at line {line}")]
    TypeRule { line: u32, rule: TypeRule },
    /// A callee isn't defined before the function that calls it.
    #[error("call of a later function at line {line}")]
    CallOrder { line: u32 },
    /// A marked function is called, and not by `job`.
    #[error("call of a marked function at line {line}")]
    MarkedCall { line: u32 },
    /// A marked function, or one that it reaches, takes an input or gives an output.
    #[error("input or output in a marked function at line {line}")]
    SystemCall { line: u32 },
    /// A loop has neither the form of a counting nor that of a bounded one.
    #[error("wrong form of a loop at line {line}")]
    LoopForm { line: u32 },
    /// There was no memory to look through the program.
    #[error("out of memory")]
    OutOfMemory,
}

impl From<AllocError> for CheckFail {
    ghost from_gives = { λ _ fail. fail ≡ OutOfMemory };

    fn from(_error: AllocError) -> CheckFail {
        CheckFail::OutOfMemory
    }
}

impl<T: Drop> From<AllocFailed<T>> for CheckFail {
    ghost from_gives = { λ _ fail. fail ≡ OutOfMemory };

    fn from(_error: AllocFailed<T>) -> CheckFail {
        CheckFail::OutOfMemory
    }
}
