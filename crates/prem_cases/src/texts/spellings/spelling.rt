// What comes of printing a text's program, and of reading and printing its spelling, as text.

use prem_front::{FrontFail, parse};
use prem_print::print;
use std::alloc::{AllocError, Global};

/// Why a text has no tree.
fn front_told(alloc: Global, fail: &FrontFail) -> Result<String, AllocError> {
    match fail {
        FrontFail::NotText { at } => format!(in alloc; "not-text {at}"),
        FrontFail::Token { line, col } => format!(in alloc; "token {line} {col}"),
        FrontFail::Syntax { line, col } => format!(in alloc; "syntax {line} {col}"),
        FrontFail::TooLong => String::from_str(alloc, "too-long"),
        FrontFail::TooDeep { line } => format!(in alloc; "too-deep {line}"),
        FrontFail::OutOfMemory => String::from_str(alloc, "no memory"),
    }
}

/// Bytes that are the text of a program.
fn as_text(bytes: &[u8]) -> &str {
    match std::str::from_utf8(bytes) {
        Ok(text) => text,
        Err(_) => "?",
    }
}

/// `same` where a spelling is read and printed as itself; else what it is printed as, or why it isn't read.
fn again_told(alloc: Global, spelling: &[u8]) -> Result<String, AllocError> {
    match parse(alloc, spelling) {
        Ok(program) => {
            let again = print(alloc, &program)?;
            if again.as_slice() == spelling {
                return String::from_str(alloc, "same");
            }
            String::from_str(alloc, as_text(&again))
        }
        Err(fail) => front_told(alloc, &fail),
    }
}

/// The spelling of a text's program and what comes of it, or why the text has no tree.
pub fn told(alloc: Global, text: &[u8]) -> Result<String, AllocError> {
    match parse(alloc, text) {
        Ok(program) => {
            let spelling = print(alloc, &program)?;
            let again = again_told(alloc, &spelling)?;
            let spelled = as_text(&spelling);
            format!(in alloc; "{spelled} => {again}")
        }
        Err(fail) => front_told(alloc, &fail),
    }
}

/// The length of the spelling of a text's program and what comes of it, or why the text has no tree.
pub fn length_told(alloc: Global, text: &[u8]) -> Result<String, AllocError> {
    match parse(alloc, text) {
        Ok(program) => {
            let spelling = print(alloc, &program)?;
            let again = again_told(alloc, &spelling)?;
            let count = spelling.len();
            format!(in alloc; "{count} bytes => {again}")
        }
        Err(fail) => front_told(alloc, &fail),
    }
}
