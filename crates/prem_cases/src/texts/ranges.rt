// The turn bounds of each line's program, or the first rule on ranges that it breaks.
mod names;
mod ranging;

use crate::texts::lines::with_lines;
use ranging::range_told;
use std::rt::Files;
use std::{fs, io};

/// Tells what comes of the analysis of each line's program.
pub fn tell(rt: &(impl Print + Files + AllocGlobal)) -> io::Result<()> {
    let alloc = rt.alloc();
    let file = fs::read_to_string(rt, "ranges.txt")?;
    for text in file.lines() {
        let bytes = with_lines(alloc, text.as_bytes())?;
        let told = range_told(alloc, &bytes)?;
        println!(rt; "{text} => {told}")?;
    }
    Ok(())
}
