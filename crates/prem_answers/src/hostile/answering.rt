// Answers over the files that were built, of which the newest of each name counts. A line is one of these:
//
// - `answer WORDS` tells the answer to the words;
// - `cuts WORDS` tells the answers over each beginning of the newest file that isn't all of it;
// - `reads WORDS` and `writes WORDS` tell the answers with a store, or a sink, that fails at its first call, at its
//   second, and so on up to an answer without such a failure;
// - `# ..` is told as it stands.
//
// The sink takes eight bytes in a call. What is written stands on one line, with a `$` for each end of a line. Equal lines
// behind each other stand once with their number, and `..` stands behind a last line that has no end.

use crate::hostile::building::Built;
use prem_io::{FileMap, MemorySink, MemoryStore};
use prem_top::{Status, prem};
use std::alloc::{AllocError, Global};
use std::io;

/// What is broken outside: how many bytes the newest file has at most, and the call at which the store fails and that at
/// which the sink does, 0 for none. The calls count from 1.
#[derive(Clone, Copy)]
struct Outside {
    most: usize,
    read: u64,
    write: u64,
}

/// Nothing is broken.
const WHOLE: Outside = Outside {
    most: usize::MAX,
    read: 0,
    write: 0,
};

/// The files of the store.
fn file_map(alloc: Global, files: &[Built], most: usize) -> Result<FileMap, AllocError> {
    let mut map = FileMap::new(alloc);
    let mut most = most;
    for file in files.iter().rev() {
        let count = file.bytes.len().min(most);
        let _added = map.add(alloc, &file.name, &file.bytes[..count])?;
        most = usize::MAX;
    }
    Ok(map)
}

/// Puts a line with its number behind a text.
fn push_line(alloc: Global, text: &mut String, line: &str, count: u32) -> Result<(), AllocError> {
    if count > 0 {
        text.push_str(line)?;
        text.push('$')?;
    }
    if count > 1 {
        let times = format!(in alloc; "{count} times$")?;
        text.push_str(&times)?;
    }
    Ok(())
}

/// What was written.
fn shown(alloc: Global, bytes: &[u8]) -> Result<String, AllocError> {
    let mut text = String::new(alloc);
    let Ok(written) = std::str::from_utf8(bytes) else {
        return Ok(text);
    };
    let mut last = "";
    let mut count = 0u32;
    for line in written.lines() {
        if line != last {
            push_line(alloc, &mut text, last, count)?;
            count = 0;
        }
        last = line;
        count = count.saturating_add(1);
    }
    push_line(alloc, &mut text, last, count)?;
    if !bytes.is_empty() && !bytes.ends_with(b"\n") {
        text.push_str("..")?;
    }
    Ok(text)
}

/// Tells the answer to words behind a text, and gives its status.
fn tell_answer(
    rt: &(impl Print + AllocGlobal),
    files: &[Built],
    asked: &str,
    about: &str,
    outside: Outside,
) -> io::Result<Status> {
    let alloc = rt.alloc();
    let mut words = Vec::new(alloc);
    for word in asked.split_whitespace() {
        words.push(String::from_str(alloc, word)?)?;
    }
    let map = file_map(alloc, files, outside.most)?;
    let mut store = MemoryStore::new(map, vec![in alloc; outside.read]?);
    let mut sink = MemorySink::new(alloc, 2_000_000, 8, vec![in alloc; outside.write]?)?;
    let status = prem(alloc, &words, &mut store, &mut sink);
    let written = shown(alloc, sink.bytes())?;
    println!(rt; "{asked}{about} => {status:?} {written}")?;
    Ok(status)
}

/// Tells the answers over each beginning of the newest file.
fn tell_cuts(rt: &(impl Print + AllocGlobal), files: &[Built], asked: &str) -> io::Result<()> {
    let Some(newest) = files.last() else {
        return Ok(());
    };
    for most in 0..newest.bytes.len() {
        let about = format!(in rt.alloc(); ", {most} bytes")?;
        tell_answer(rt, files, asked, &about, Outside { most, ..WHOLE })?;
    }
    Ok(())
}

/// Tells the answers with a store that fails.
fn tell_reads(rt: &(impl Print + AllocGlobal), files: &[Built], asked: &str) -> io::Result<()> {
    for read in 1..1000u64 {
        let about = format!(in rt.alloc(); ", read {read}")?;
        let status = tell_answer(rt, files, asked, &about, Outside { read, ..WHOLE })?;
        if status != Status::ReadFault {
            return Ok(());
        }
    }
    Ok(())
}

/// Tells the answers with a sink that fails.
fn tell_writes(rt: &(impl Print + AllocGlobal), files: &[Built], asked: &str) -> io::Result<()> {
    for write in 1..1000u64 {
        let about = format!(in rt.alloc(); ", write {write}")?;
        let status = tell_answer(rt, files, asked, &about, Outside { write, ..WHOLE })?;
        if status != Status::WriteFault {
            return Ok(());
        }
    }
    Ok(())
}

/// Tells the answers that a line asks for.
pub fn tell(rt: &(impl Print + AllocGlobal), files: &[Built], line: &str) -> io::Result<()> {
    match line.split_once(' ') {
        Some(("answer", asked)) => {
            let _status = tell_answer(rt, files, asked, "", WHOLE)?;
            Ok(())
        }
        Some(("cuts", asked)) => tell_cuts(rt, files, asked),
        Some(("reads", asked)) => tell_reads(rt, files, asked),
        Some(("writes", asked)) => tell_writes(rt, files, asked),
        Some(("#", _)) => println!(rt; "{line}"),
        _ => Ok(()),
    }
}
