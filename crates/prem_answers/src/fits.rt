// Answers of the response test, of the times of sets and of profiles, over the same files in memory and an outside that fails at calls.
//
// Each line of the file is one as those of commands.

use crate::commands::{asked_in, files};
use crate::sources::on_one_line;
use prem_io::{MemorySink, MemoryStore};
use prem_profile::profiles;
use prem_resp::fit;
use prem_time::time;
use std::rt::Files;
use std::{fs, io};

/// Which program answers.
#[derive(Clone, Copy)]
pub enum FitProgram {
    Response,
    Times,
    Profile,
}

/// Tells the answer to a line. The sink takes four bytes in a call.
fn tell_line(
    rt: &(impl Print + Files + AllocGlobal),
    program: FitProgram,
    line: &str,
) -> io::Result<()> {
    let alloc = rt.alloc();
    let asked = asked_in(alloc, line)?;
    let mut store = MemoryStore::new(files(rt)?, vec![in alloc; asked.read_fault]?);
    let mut sink = MemorySink::new(alloc, 100_000, 4, vec![in alloc; asked.write_fault]?)?;
    let status = match program {
        FitProgram::Response => {
            let status = fit(alloc, &asked.words, &mut store, &mut sink);
            format!(in alloc; "{status:?}")?
        }
        FitProgram::Times => {
            let status = time(alloc, &asked.words, &mut store, &mut sink);
            format!(in alloc; "{status:?}")?
        }
        FitProgram::Profile => {
            let status = profiles(alloc, &asked.words, &mut store, &mut sink);
            format!(in alloc; "{status:?}")?
        }
    };
    let written = on_one_line(alloc, sink.bytes())?;
    let word = match program {
        FitProgram::Response => "response",
        FitProgram::Times => "times",
        FitProgram::Profile => "profile",
    };
    println!(rt; "{word}: {line} => {status} {written}")
}

/// Tells the answers to the lines of a file.
pub fn tell(
    rt: &(impl Print + Files + AllocGlobal),
    program: FitProgram,
    name: &str,
) -> io::Result<()> {
    let file = fs::read_to_string(rt, name)?;
    for line in file.lines() {
        tell_line(rt, program, line)?;
    }
    Ok(())
}
