// Canonical spellings: each text is read and printed, and its spelling is read and printed again.
//
// Each line of `texts.txt` is a text; those of `long.txt` have a name and pieces, each with the number of times that it stands in the text.
mod long;
mod spelling;

use std::rt::Files;
use std::{fs, io};

/// Tells the spelling of each line, and what comes of reading that.
fn tell_texts(rt: &(impl Print + Files + AllocGlobal)) -> io::Result<()> {
    let alloc = rt.alloc();
    let file = fs::read_to_string(rt, "texts.txt")?;
    for text in file.lines() {
        let told = spelling::told(alloc, text.as_bytes())?;
        println!(rt; "{text} => {told}")?;
    }
    Ok(())
}

pub fn tell(rt: &(impl Print + Files + AllocGlobal)) -> io::Result<()> {
    tell_texts(rt)?;
    long::tell(rt)
}
