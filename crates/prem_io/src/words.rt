// The words of the command line.
use std::rt::Env;
use std::{env, io};

/// Why the words of the command line can't be had.
#[derive(Clone, Copy, Debug, PartialEq, Eq)]
pub enum WordsFault {
    /// There was no memory.
    OutOfMemory,
    /// A word isn't UTF-8, or the system has a fault.
    Unread,
}

impl WordsFault {
    ghost use Rattle.std.specs.Prelude.{◌≡◌};
    ghost use Rattle.prem_io.specs.WordsCode.{words_code};

    /// The exit status of a program that has no words: 6 for want of memory, as where memory is wanted later, else 9.
    pub fn code(self) -> u8
        ensures { result ≡ words_code self }
    {
        match self {
            WordsFault::OutOfMemory => 6,
            WordsFault::Unread => 9,
        }
    }
}

impl From<io::Error> for WordsFault {
    fn from(error: io::Error) -> WordsFault {
        match error.kind() {
            io::ErrorKind::OutOfMemory => WordsFault::OutOfMemory,
            _ => WordsFault::Unread,
        }
    }
}

/// The words of the command line, without the program's name.
fn read_words(rt: &(impl Env + AllocGlobal)) -> io::Result<Vec<String>> {
    let mut words = Vec::new(rt.alloc());
    for word in env::args(rt)?.skip(1) {
        words.push(word)?;
    }
    Ok(words)
}

/// The words of the command line, without the program's name.
pub fn words_of(rt: &(impl Env + AllocGlobal)) -> Result<Vec<String>, WordsFault> {
    Ok(read_words(rt)?)
}
