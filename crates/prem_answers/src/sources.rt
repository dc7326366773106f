// Answers to sources, each a line of a file.

use prem_io::{FileMap, MemorySink, MemoryStore};
use prem_top::{Status, prem};
use std::alloc::{AllocError, Global};
use std::rt::Files;
use std::{fs, io};

/// A status with the bytes written, of `one a.c` over this source.
pub fn one(alloc: Global, source: &[u8]) -> Result<(Status, Vec<u8>), AllocError> {
    let mut files = FileMap::new(alloc);
    let _added = files.add(alloc, "a.c", source)?;
    let mut store = MemoryStore::new(files, Vec::new(alloc));
    let mut sink = MemorySink::new(alloc, 100_000, 7, Vec::new(alloc))?;
    let mut words = Vec::new(alloc);
    words.push(String::from_str(alloc, "one")?)?;
    words.push(String::from_str(alloc, "a.c")?)?;
    let status = prem(alloc, &words, &mut store, &mut sink);
    Ok((status, sink.bytes().to_vec(alloc)?))
}

/// What was written, with a `$` for each end of a line.
pub fn on_one_line(alloc: Global, bytes: &[u8]) -> Result<String, AllocError> {
    let mut text = String::new(alloc);
    for byte in bytes {
        text.push(if *byte == b'\n' {
            '$'
        } else {
            char::from(*byte)
        })?;
    }
    Ok(text)
}

/// A source with the end of a line for each `$`.
pub fn with_lines(alloc: Global, text: &[u8]) -> Result<Vec<u8>, AllocError> {
    let mut bytes = Vec::new(alloc);
    for byte in text {
        bytes.push(if *byte == b'$' { b'\n' } else { *byte })?;
    }
    Ok(bytes)
}

pub fn tell(rt: &(impl Print + Files + AllocGlobal)) -> io::Result<()> {
    let alloc = rt.alloc();
    let file = fs::read_to_string(rt, "sources.txt")?;
    for text in file.lines() {
        let source = with_lines(alloc, text.as_bytes())?;
        let (status, written) = one(alloc, &source)?;
        let written = on_one_line(alloc, &written)?;
        println!(rt; "{text} => {status:?} {written}")?;
    }
    Ok(())
}
