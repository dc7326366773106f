// What is said of a set of one task, whose source is a line of a file.
use super::lines::{on_one_line, with_lines};
use prem_io::{FileMap, MemorySink, MemoryStore};
use prem_lint::{Status, lint};
use std::alloc::{AllocError, Global};
use std::rt::Files;
use std::{fs, io};

/// The set's file.
const SET: &str = "[[task]]\nname = \"t\"\nsource = \"t.c\"\nperiod = 1000\njobs = 1\n";

/// A status with the bytes written.
fn said(alloc: Global, source: &[u8]) -> Result<(Status, Vec<u8>), AllocError> {
    let mut files = FileMap::new(alloc);
    let _source = files.add(alloc, "t.c", source)?;
    let _set = files.add(alloc, "t.toml", SET.as_bytes())?;
    let mut store = MemoryStore::new(files, Vec::new(alloc));
    let mut sink = MemorySink::new(alloc, 100_000, 7, Vec::new(alloc))?;
    let mut words = Vec::new(alloc);
    words.push(String::from_str(alloc, "t.toml")?)?;
    let status = lint(alloc, &words, &mut store, &mut sink);
    Ok((status, sink.bytes().to_vec(alloc)?))
}

pub fn tell(rt: &(impl Print + Files + AllocGlobal)) -> io::Result<()> {
    let alloc = rt.alloc();
    let file = fs::read_to_string(rt, "lint_sources.txt")?;
    for text in file.lines() {
        let source = with_lines(alloc, text.as_bytes())?;
        let (status, written) = said(alloc, &source)?;
        let written = on_one_line(alloc, &written)?;
        println!(rt; "{text} => {status:?} {written}")?;
    }
    Ok(())
}
