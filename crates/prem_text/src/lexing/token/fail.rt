// Why a text has no tree.
ghost use Rattle.std.specs.Prelude.{◌≡◌};
ghost use Rattle.prem_text.specs.declared.lexing.token.fail.FrontFail.TheVariants.{OutOfMemory};

use std::alloc::{AllocError, AllocFailed};
use thiserror::Error;

/// Why a text has no tree. Lines and columns count from 1, and a column counts bytes.
#[derive(Debug, PartialEq, Eq, Drop, Error)]
pub enum FrontFail {
    /// Outside comments stands a byte that is neither a blank nor a printable ASCII character; `at` is its offset.
    #[error("byte {at} is no text")]
    NotText { at: u32 },
    /// No token begins here, or the one that does is refused, or a comment that begins here isn't closed.
    #[error("no token at line {line}, column {col}")]
    Token { line: u32, col: u32 },
    /// No program has this token behind those before it. The end of the text counts as a token.
    #[error("unexpected token at line {line}, column {col}")]
    Syntax { line: u32, col: u32 },
    /// The text has more than 1048576 bytes or 200000 tokens.
    #[error("the text is too long")]
    TooLong,
    /// An expression has more than 256 tokens, or a statement stands in more than 63 others.
    #[error("too deep at line {line}")]
    TooDeep { line: u32 },
    /// There was no memory for the tokens or the tree.
    #[error("out of memory")]
    OutOfMemory,
}

impl From<AllocError> for FrontFail {
    ghost from_gives = { λ _ fail. fail ≡ OutOfMemory };

    fn from(_error: AllocError) -> FrontFail {
        FrontFail::OutOfMemory
    }
}

impl<T: Drop> From<AllocFailed<T>> for FrontFail {
    ghost from_gives = { λ _ fail. fail ≡ OutOfMemory };

    fn from(_error: AllocFailed<T>) -> FrontFail {
        FrontFail::OutOfMemory
    }
}
