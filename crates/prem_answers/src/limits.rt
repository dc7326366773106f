// Answers to the longest sources that are taken, and to those that are one longer.

use crate::sources::{on_one_line, one};
use std::alloc::{AllocError, Global};
use std::io;

/// A source of this many statements `out(1);`.
fn ones(alloc: Global, statements: usize) -> Result<String, AllocError> {
    let mut source = String::from_str(alloc, "void job(void){")?;
    for _ in 0..statements {
        source.push_str(" out(1);")?;
    }
    source.push_str("}")?;
    Ok(source)
}

/// A source of one statement, whose expression has one literal and this many additions of 1.
fn sum(alloc: Global, additions: usize) -> Result<String, AllocError> {
    let mut source = String::from_str(alloc, "void job(void){ out(1")?;
    for _ in 0..additions {
        source.push_str("+1")?;
    }
    source.push_str("); }")?;
    Ok(source)
}

/// Tells the status, the number of bytes written, and the last 48 of them.
fn tell_end(rt: &impl Print, alloc: Global, name: &str, source: &str) -> io::Result<()> {
    let (status, written) = one(alloc, source.as_bytes())?;
    let count = written.len();
    let end = on_one_line(alloc, &written[count.saturating_sub(48)..])?;
    println!(rt; "{name} => {status:?} {count} {end}")
}

pub fn tell(rt: &impl Print, alloc: Global) -> io::Result<()> {
    // A statement `out(1);` counts two: the statement and its literal. 4103 words and the stack lie in 1027 lines. The
    // first line and the stack's come in twice, and the latter is written back once: a switch, 4107 of cost, 1029
    // fills and a write back.
    tell_end(rt, alloc, "2048 statements", ones(alloc, 2048)?.as_str())?;
    tell_end(rt, alloc, "2049 statements", ones(alloc, 2049)?.as_str())?;
    // 127 additions are 255 tokens, 128 are 257. 263 words and the stack lie in 67 lines: a switch, 267 of cost, and 67
    // fills.
    tell_end(rt, alloc, "127 additions", sum(alloc, 127)?.as_str())?;
    tell_end(rt, alloc, "128 additions", sum(alloc, 128)?.as_str())
}
