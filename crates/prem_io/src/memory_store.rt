// Stores that hold their files in memory.
ghost use Rattle.std.specs.Prelude.{◌≡◌, ◌≤◌, ◌<◌, [], Some, None, Contains, IsErrOf, IsSomeAnd, OnOk, OnErr, ◌↔◌, length, vec_len};
ghost use Rattle.prem_io.specs.Counts.{counted};
ghost use Rattle.prem_io.specs.Files.{Files, stored};
ghost use Rattle.prem_io.specs.MemoryStore.{StoreState, after_read};

use crate::file_map::FileMap;
use crate::store::{Store, StoreFail};
use std::alloc::Global;
use std::marker::Model;

/// A store of files in memory that fails at given calls, to try out what comes of faults.
#[derive(Drop)]
pub struct MemoryStore {
    files: FileMap,
    failing: Vec<u64>,
    calls: u64,
    faults: u64,
}

impl Model for MemoryStore {
    ghost Value = { StoreState };

    ghost view = { λ s. record {
      files = s.files;
      failing = s.failing.items;
      calls = s.calls;
      faults = s.faults;
    } };
}

impl MemoryStore {
    /// A store of these files that fails at the calls of these numbers, counted from 1. It takes no memory.
    pub fn new(files: FileMap, failing: Vec<u64>) -> MemoryStore
        ensures { result ≡ record { files = files; failing = failing.items; calls = 0; faults = 0 } }
    {
        MemoryStore {
            files,
            failing,
            calls: 0,
            faults: 0,
        }
    }
}

impl Store for MemoryStore {
    ghost files = { λ s. Some s.files };

    ghost faults = { λ s. s.faults };

    fn read_file(
        &mut self,
        _alloc: Global,
        name: &str,
        limit: usize,
        into: &mut Vec<u8>,
    ) -> Result<(), StoreFail>
        requires { into.old.items ≡ [] }

        ensures limit { OnOk result (vec_len into.new ≤ limit) }
        ensures refused { OnErr result (into.new.items ≡ []) }
        ensures count { self.old.faults ≤ self.new.faults }
        ensures bytes { OnOk result (stored self.old.files name.now ≡ Some into.new.items) }
        ensures missing { IsErrOf result StoreFail.Missing → stored self.old.files name.now ≡ None }
        ensures too_long { IsErrOf result StoreFail.TooLong
            → IsSomeAnd (stored self.old.files name.now) (λ bytes. limit < length bytes) }

        // It fails at the calls of the given numbers alone.
        ensures when { IsErrOf result StoreFail.Failed
            ↔ Contains self.old.failing (counted self.old.calls) }
        ensures after { self.new ≡ after_read self.old result }
    {
        self.calls = self.calls.saturating_add(1);
        if self.failing.contains(&self.calls) {
            self.faults = self.faults.saturating_add(1);
            return Err(StoreFail::Failed);
        }
        copy_file(&self.files, name, limit, into)
    }
}

/// A store of files in memory that never fails.
#[derive(Drop)]
pub struct SteadyStore {
    files: FileMap,
}

impl Model for SteadyStore {
    ghost Value = { Files };

    ghost view = { λ s. s.files };
}

impl SteadyStore {
    /// A store of these files. It takes no memory.
    pub fn new(files: FileMap) -> SteadyStore
        ensures { result ≡ files }
    {
        SteadyStore { files }
    }
}

impl Store for SteadyStore {
    ghost files = { λ s. Some s };

    ghost faults = { λ _. 0 };

    fn read_file(
        &mut self,
        _alloc: Global,
        name: &str,
        limit: usize,
        into: &mut Vec<u8>,
    ) -> Result<(), StoreFail> {
        copy_file(&self.files, name, limit, into)
    }
}

/// Copies the file of this name, where it has at most `limit` bytes.
fn copy_file(files: &FileMap, name: &str, limit: usize, into: &mut Vec<u8>) -> Result<(), StoreFail>
    requires { into.old.items ≡ [] }
    ensures limit { OnOk result (vec_len into.new ≤ limit) }
    ensures bytes { OnOk result (stored files.now name.now ≡ Some into.new.items) }
    ensures refused { OnErr result (into.new.items ≡ []) }
    ensures missing { IsErrOf result StoreFail.Missing → stored files.now name.now ≡ None }
    ensures too_long { IsErrOf result StoreFail.TooLong
        → IsSomeAnd (stored files.now name.now) (λ bytes. limit < length bytes) }
    ensures failed { IsErrOf result StoreFail.Failed → ⊥ }
{
    let Some(bytes) = files.find(name) else {
        return Err(StoreFail::Missing);
    };
    if bytes.len() > limit {
        return Err(StoreFail::TooLong);
    }
    match into.extend_from_slice(bytes) {
        Ok(()) => Ok(()),
        Err(_) => Err(StoreFail::OutOfMemory),
    }
}
