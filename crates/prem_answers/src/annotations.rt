// Answers of texts with annotations, over the same files in memory and an outside that fails at calls.
//
// Each line of the file is one as those of commands.

use crate::commands::{asked_in, files};
use crate::sources::on_one_line;
use prem_annotate_answer::annotate;
use prem_io::{MemorySink, MemoryStore};
use std::rt::Files;
use std::{fs, io};

/// Tells the answer to a line. The sink takes four bytes in a call.
fn tell_line(rt: &(impl Print + Files + AllocGlobal), line: &str) -> io::Result<()> {
    let alloc = rt.alloc();
    let asked = asked_in(alloc, line)?;
    let mut store = MemoryStore::new(files(rt)?, vec![in alloc; asked.read_fault]?);
    let mut sink = MemorySink::new(alloc, 100_000, 4, vec![in alloc; asked.write_fault]?)?;
    let status = annotate(alloc, &asked.words, &mut store, &mut sink);
    let written = on_one_line(alloc, sink.bytes())?;
    println!(rt; "annotations: {line} => {status:?} {written}")
}

/// Tells the answers to the lines of a file.
pub fn tell(rt: &(impl Print + Files + AllocGlobal), name: &str) -> io::Result<()> {
    let file = fs::read_to_string(rt, name)?;
    for line in file.lines() {
        tell_line(rt, line)?;
    }
    Ok(())
}
