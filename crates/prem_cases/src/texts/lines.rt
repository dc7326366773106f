// Files in which each line is a text.

use crate::texts::checking::check_told;
use crate::texts::reading::read_told;
use std::alloc::{AllocError, Global};
use std::rt::Files;
use std::{fs, io};

/// Tells what comes of reading each line.
pub fn tell_grammar(rt: &(impl Print + Files + AllocGlobal)) -> io::Result<()> {
    let file = fs::read_to_string(rt, "grammar.txt")?;
    for text in file.lines() {
        let told = read_told(rt.alloc(), text.as_bytes())?;
        println!(rt; "{text} => {told}")?;
    }
    Ok(())
}

/// A text with the end of a line for each `$`.
pub fn with_lines(alloc: Global, text: &[u8]) -> Result<Vec<u8>, AllocError> {
    let mut bytes = Vec::new(alloc);
    for byte in text {
        bytes.push(if *byte == b'$' { b'\n' } else { *byte })?;
    }
    Ok(bytes)
}

/// Tells the first rule that each line's program breaks.
pub fn tell_rules(rt: &(impl Print + Files + AllocGlobal)) -> io::Result<()> {
    let alloc = rt.alloc();
    let file = fs::read_to_string(rt, "rules.txt")?;
    for text in file.lines() {
        let bytes = with_lines(alloc, text.as_bytes())?;
        let told = check_told(alloc, &bytes)?;
        println!(rt; "{text} => {told}")?;
    }
    Ok(())
}
