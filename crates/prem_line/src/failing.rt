// Why something isn't made: it is refused, or there was no memory.
use std::alloc::{AllocError, AllocFailed};

/// Why something isn't made.
#[derive(Debug, Drop)]
pub enum Failing<R> {
    /// It is refused, for this reason.
    Refused(R),
    /// There was no memory.
    OutOfMemory,
}

impl<R> From<AllocError> for Failing<R> {
    ghost use Rattle.std.specs.Prelude.{◌≡◌};
    ghost use Rattle.prem_line.specs.declared.failing.Failing.TheVariants.{OutOfMemory};

    ghost from_gives = { λ _ e. e ≡ OutOfMemory };

    fn from(_error: AllocError) -> Failing<R> {
        Failing::OutOfMemory
    }
}

impl<T: Drop, R> From<AllocFailed<T>> for Failing<R> {
    ghost use Rattle.std.specs.Prelude.{◌≡◌};
    ghost use Rattle.prem_line.specs.declared.failing.Failing.TheVariants.{OutOfMemory};

    ghost from_gives = { λ _ e. e ≡ OutOfMemory };

    fn from(_error: AllocFailed<T>) -> Failing<R> {
        Failing::OutOfMemory
    }
}
