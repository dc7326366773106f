//! Texts of programs, read from files, with what comes of each: of its tokens and grammar, of its rules, of its runs, of
//! its ranges, or of its spelling.
//!
//! The files lie in `data/`, and `blocks` says how those of longer texts are written.

mod blocks;
mod checking;
mod lines;
mod ranges;
mod reading;
mod running;
mod spellings;

use std::io;
use std::rt::Files;

/// What comes of each text.
pub fn tell(rt: &(impl Print + Files + AllocGlobal)) -> io::Result<()> {
    lines::tell_grammar(rt)?;
    lines::tell_rules(rt)?;
    blocks::tell(rt, "limits.txt")?;
    blocks::tell(rt, "runs.txt")?;
    ranges::tell(rt)?;
    spellings::tell(rt)
}
