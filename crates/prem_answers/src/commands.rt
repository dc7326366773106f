// Answers to commands, over files in memory and an outside that fails at calls.
//
// Each line of a file has the call at which the store fails and that at which the sink does, 0 for none, and then the
// words.

use crate::sources::{on_one_line, with_lines};
use prem_io::{FileMap, MemorySink, MemoryStore, SteadySink, SteadyStore};
use prem_top::{Status, prem};
use std::alloc::{AllocError, Global};
use std::rt::Files;
use std::{fs, io};

/// Where the content of the image `marked.img` begins: its first word is that of the first instruction.
const CONTENT: usize = 82;

/// Adds what is made of the image: one whose first word is no instruction, and one that is a byte too short and one that
/// is a byte too long.
fn add_images(alloc: Global, files: &mut FileMap, image: &[u8]) -> Result<(), AllocError> {
    let mut trap = Vec::new(alloc);
    for (at, byte) in image.iter().enumerate() {
        let is_first = CONTENT <= at && at < CONTENT + 4;
        trap.push(if is_first { 0 } else { *byte })?;
    }
    let _trap = files.add(alloc, "trap.img", &trap)?;
    let _short = files.add(alloc, "short.img", &image[..image.len().saturating_sub(1)])?;
    let mut long = image.to_vec(alloc)?;
    long.push(0)?;
    let _long = files.add(alloc, "long.img", &long)?;
    Ok(())
}

/// Adds the files of a list: each of its lines has a name, a blank, and a text with a `$` for each end of a line.
fn add_listed(alloc: Global, files: &mut FileMap, list: &str) -> Result<(), AllocError> {
    for line in list.lines() {
        if let Some((name, text)) = line.split_once(' ') {
            let _added = files.add(alloc, name, &with_lines(alloc, text.as_bytes())?)?;
        }
    }
    Ok(())
}

/// The files of the store: those of the folder, those of a list, a source that is a byte too long, and images.
pub fn files(rt: &(impl Files + AllocGlobal)) -> io::Result<FileMap> {
    let alloc = rt.alloc();
    let mut files = FileMap::new(alloc);
    for name in ["five.c", "marked.run", "marked.img", "moved.img"] {
        let bytes = fs::read(rt, name)?;
        let _added = files.add(alloc, name, &bytes)?;
    }
    add_listed(alloc, &mut files, &fs::read_to_string(rt, "files.txt")?)?;
    let _long = files.add(alloc, "long.c", &vec![in alloc; b' '; 1_048_577]?)?;
    add_images(alloc, &mut files, &fs::read(rt, "marked.img")?)?;
    Ok(files)
}

/// A number, or 0 where the word is none.
fn number(word: Option<&str>) -> u64 {
    match word {
        Some(text) => text.parse::<u64>().unwrap_or(0),
        None => 0,
    }
}

/// What a line asks for.
#[derive(Drop)]
pub struct AskedLine {
    /// The call at which the store fails, and that at which the sink does. The calls count from 1.
    pub read_fault: u64,
    pub write_fault: u64,
    pub words: Vec<String>,
}

/// Takes a line apart.
pub fn asked_in(alloc: Global, line: &str) -> Result<AskedLine, AllocError> {
    let mut parts = line.split_whitespace();
    let read_fault = number(parts.next());
    let write_fault = number(parts.next());
    let mut words = Vec::new(alloc);
    for word in parts {
        words.push(String::from_str(alloc, word)?)?;
    }
    Ok(AskedLine {
        read_fault,
        write_fault,
        words,
    })
}

/// A byte as two hexadecimal digits.
fn push_hex(text: &mut String, byte: u8) -> Result<(), AllocError> {
    for digit in [byte / 16, byte % 16] {
        text.push(char::from(if digit < 10 {
            b'0' + digit
        } else {
            b'W' + digit
        }))?;
    }
    Ok(())
}

/// What was written: an image by its bytes, any other text on one line.
fn shown(alloc: Global, bytes: &[u8]) -> Result<String, AllocError> {
    if !bytes.starts_with(b"PREM") {
        return on_one_line(alloc, bytes);
    }
    let mut text = String::new(alloc);
    for byte in bytes {
        push_hex(&mut text, *byte)?;
    }
    Ok(text)
}

/// Tells the answer to a line. The sink takes four bytes in a call.
fn tell_line(rt: &(impl Print + Files + AllocGlobal), line: &str) -> io::Result<()> {
    let alloc = rt.alloc();
    let asked = asked_in(alloc, line)?;
    let mut store = MemoryStore::new(files(rt)?, vec![in alloc; asked.read_fault]?);
    let mut sink = MemorySink::new(alloc, 100_000, 4, vec![in alloc; asked.write_fault]?)?;
    let status = prem(alloc, &asked.words, &mut store, &mut sink);
    let written = shown(alloc, sink.bytes())?;
    println!(rt; "{line} => {status:?} {written}")
}

/// Tells the answers to the lines of a file.
pub fn tell(rt: &(impl Print + Files + AllocGlobal), name: &str) -> io::Result<()> {
    let file = fs::read_to_string(rt, name)?;
    for line in file.lines() {
        tell_line(rt, line)?;
    }
    Ok(())
}

/// Tells an answer over a steady store and a steady sink. No fault is answered there, as the checker shows.
pub fn tell_steady(rt: &(impl Print + Files + AllocGlobal)) -> io::Result<()> {
    let alloc = rt.alloc();
    let mut store = SteadyStore::new(files(rt)?);
    let mut sink = SteadySink::new();
    let mut words = Vec::new(alloc);
    words.push(String::from_str(alloc, "one")?)?;
    words.push(String::from_str(alloc, "five.c")?)?;
    match prem(alloc, &words, &mut store, &mut sink) {
        Status::ReadFault | Status::WriteFault => unreachable!(),
        status => println!(rt; "steady => {status:?}"),
    }
}
