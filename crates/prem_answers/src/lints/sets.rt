// What is said of sets, over files in memory and an outside that fails at calls.
//
// Each line of `lint_sets.txt` has the call at which the store fails and that at which the sink does, 0 for none, and then the words.
use super::lines::{listed, on_one_line};
use prem_io::{MemorySink, MemoryStore};
use prem_lint::lint;
use std::rt::Files;
use std::{fs, io};

/// A number, or 0 where the word is none.
fn number(word: Option<&str>) -> u64 {
    match word {
        Some(text) => text.parse::<u64>().unwrap_or(0),
        None => 0,
    }
}

/// Tells the answer to a line. The sink takes four bytes in a call. The calls count from 1.
fn tell_line(rt: &(impl Print + Files + AllocGlobal), list: &str, line: &str) -> io::Result<()> {
    let alloc = rt.alloc();
    let mut parts = line.split_whitespace();
    let read_fault = number(parts.next());
    let write_fault = number(parts.next());
    let mut words = Vec::new(alloc);
    for word in parts {
        words.push(String::from_str(alloc, word)?)?;
    }
    let mut store = MemoryStore::new(listed(alloc, list)?, vec![in alloc; read_fault]?);
    let mut sink = MemorySink::new(alloc, 100_000, 4, vec![in alloc; write_fault]?)?;
    let status = lint(alloc, &words, &mut store, &mut sink);
    let written = on_one_line(alloc, sink.bytes())?;
    println!(rt; "{line} => {status:?} {written}")
}

pub fn tell(rt: &(impl Print + Files + AllocGlobal)) -> io::Result<()> {
    let list = fs::read_to_string(rt, "lint_files.txt")?;
    let file = fs::read_to_string(rt, "lint_sets.txt")?;
    for line in file.lines() {
        tell_line(rt, &list, line)?;
    }
    Ok(())
}
