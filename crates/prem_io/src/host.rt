// The outside itself: the files and the standard output of the computer.
ghost use Rattle.std.specs.Prelude.{◌≡◌, ◌≤◌, ◌<◌, ℕ, [], None, OnOk, OnErr, IfOk, IsErrOf, length, vec_len};
ghost use Rattle.prem_io.specs.Answers.{read_faults, write_faults};
ghost use Rattle.prem_io.specs.Counts.{Rose};

use crate::sink::{Sink, SinkFailed};
use crate::store::{Store, StoreFail};
use std::alloc::Global;
use std::fs::File;
use std::io;
use std::io::Read;
use std::marker::Model;
use std::rt::Files;

/// The files of the computer, of which contracts see the count of faults alone.
///
/// Only a file that isn't there is `Missing`. A folder, a path that can't be and a read that fails are faults.
#[derive(Drop)]
pub struct DiskStore<'r, R: Files> {
    rt: &'r R,
    faults: u64,
}

impl<'r, R: Files> Model for DiskStore<'r, R> {
    ghost Value = { ℕ };

    ghost view = { λ s. s.faults };
}

impl<'r, R: Files> DiskStore<'r, R> {
    /// The files that the runtime reaches.
    pub fn new(rt: &'r R) -> DiskStore<'r, R>
        ensures { result ≡ 0 }
    {
        DiskStore { rt, faults: 0 }
    }
}

/// Reads a file up to one byte past the limit, behind what is there.
fn read_past<R: Files>(rt: &R, name: &str, limit: usize, into: &mut Vec<u8>) -> io::Result<()> {
    let file = File::open(rt, name)?;
    let _count = file
        .take((limit as u64).saturating_add(1))
        .read_to_end(into)?;
    Ok(())
}

/// A file that isn't there and want of memory have answers of their own. All else is a fault.
fn fail_of(error: &io::Error) -> StoreFail {
    match error.kind() {
        io::ErrorKind::NotFound => StoreFail::Missing,
        io::ErrorKind::OutOfMemory => StoreFail::OutOfMemory,
        _ => StoreFail::Failed,
    }
}

impl<'r, R: Files> Store for DiskStore<'r, R> {
    ghost files = { λ _. None };

    ghost faults = { λ s. s };

    fn read_file(
        &mut self,
        _alloc: Global,
        name: &str,
        limit: usize,
        into: &mut Vec<u8>,
    ) -> Result<(), StoreFail>
        requires { into.old.items ≡ [] }
        ensures limit { OnOk result (vec_len into.new ≤ limit) }
        ensures refused { OnErr result (into.new.items ≡ []) }
        ensures failed { IsErrOf result StoreFail.Failed → Rose self.old self.new }
        ensures count { self.old ≤ self.new }
        ensures after { self.new ≡ read_faults result self.old }
    {
        let fail = match read_past(self.rt, name, limit, into) {
            Ok(()) if into.len() <= limit => return Ok(()),
            Ok(()) => StoreFail::TooLong,
            Err(error) => fail_of(&error),
        };
        into.clear();
        if fail == StoreFail::Failed {
            self.faults = self.faults.saturating_add(1);
        }
        Err(fail)
    }
}

/// The standard output of the program, of which contracts see the count of faults alone.
///
/// An output that takes nothing of a piece that isn't empty has a fault.
#[derive(Drop)]
pub struct OutSink<'r, R: Print> {
    rt: &'r R,
    faults: u64,
}

impl<'r, R: Print> Model for OutSink<'r, R> {
    ghost Value = { ℕ };

    ghost view = { λ s. s.faults };
}

impl<'r, R: Print> OutSink<'r, R> {
    /// The output that the runtime reaches.
    pub fn new(rt: &'r R) -> OutSink<'r, R>
        ensures { result ≡ 0 }
    {
        OutSink { rt, faults: 0 }
    }
}

impl<'r, R: Print> Sink for OutSink<'r, R> {
    ghost bytes = { λ _. None };

    ghost faults = { λ s. s };

    fn write(&mut self, piece: &[u8]) -> Result<usize, SinkFailed>
        ensures most { IfOk result (λ n. n ≤ length piece.now) }
        ensures least { IfOk result (λ n. 0 < length piece.now → 0 < n) }
        ensures failed { OnErr result (Rose self.old self.new) }
        ensures count { self.old ≤ self.new }
        ensures after { self.new ≡ write_faults result self.old }
    {
        match self.rt.write_some(piece) {
            Ok(count) if count > 0 || piece.is_empty() => Ok(count),
            _ => {
                self.faults = self.faults.saturating_add(1);
                Err(SinkFailed)
            }
        }
    }
}
