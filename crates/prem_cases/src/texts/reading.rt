// What comes of reading a text, as text.

use prem_front::{FrontFail, parse};
use std::alloc::{AllocError, Global};

/// Why a text has no tree.
pub fn front_told(alloc: Global, fail: &FrontFail) -> Result<String, AllocError> {
    match fail {
        FrontFail::NotText { at } => format!(in alloc; "not-text {at}"),
        FrontFail::Token { line, col } => format!(in alloc; "token {line} {col}"),
        FrontFail::Syntax { line, col } => format!(in alloc; "syntax {line} {col}"),
        FrontFail::TooLong => String::from_str(alloc, "too-long"),
        FrontFail::TooDeep { line } => format!(in alloc; "too-deep {line}"),
        FrontFail::OutOfMemory => String::from_str(alloc, "no memory"),
    }
}

/// The number of items of a text, or why it has no tree.
pub fn read_told(alloc: Global, text: &[u8]) -> Result<String, AllocError> {
    match parse(alloc, text) {
        Ok(program) => {
            let count = program.items.items().len();
            format!(in alloc; "ok {count}")
        }
        Err(fail) => front_told(alloc, &fail),
    }
}
