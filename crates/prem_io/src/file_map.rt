// Files in memory.
ghost use Rattle.std.specs.Prelude.{◌≡◌, ◌∷◌, ◌++◌, [], false, IsTrue, IsSome, IfOk, OnErr, ◌↔◌, map};
ghost use Rattle.std.specs.Option.{option_copied};
ghost use Rattle.prem_io.specs.Files.{Files, stored, HasDistinctNames};

use std::alloc::{AllocError, Global};
use std::marker::Model;

/// A file: its name and its bytes.
#[derive(Drop)]
struct FileEntry {
    name: String,
    bytes: Vec<u8>,
}

/// Files with distinct names, in the order in which they were added.
#[derive(Drop)]
pub struct FileMap {
    entries: Vec<FileEntry>,
}

ghost use Rattle.prem_io.specs.FileEntry.{file_of};

impl Model for FileMap {
    ghost Value = { Files };

    ghost view = { λ m. map file_of m.entries.items };

    ghost invariant = { λ m. HasDistinctNames (map file_of m.entries.items) };
}

impl FileMap {
    /// No file. It takes no memory.
    pub fn new(alloc: Global) -> FileMap
        ensures { result ≡ [] }
    {
        FileMap {
            entries: Vec::new(alloc),
        }
    }

    /// Puts a file behind the others and answers true, or answers false where the name is there.
    ///
    /// Where it doesn't add the file, for want of memory too, nothing changes.
    pub fn add(&mut self, alloc: Global, name: &str, bytes: &[u8]) -> Result<bool, AllocError>
        ensures there { IfOk result (λ added. (added ≡ false) ↔ IsSome (stored self.old name.now)) }
        ensures added { IfOk result
            (λ added. IsTrue added → self.new ≡ self.old ++ (name.now, bytes.now) ∷ []) }
        ensures kept { IfOk result (λ added. added ≡ false → self.new ≡ self.old) }
        ensures err { OnErr result (self.new ≡ self.old) }
        ensures distinct { HasDistinctNames self.new }
    {
        if self.find(name).is_some() {
            return Ok(false);
        }
        let entry = FileEntry {
            name: String::from_str(alloc, name)?,
            bytes: bytes.to_vec(alloc)?,
        };
        self.entries.push(entry)?;
        Ok(true)
    }

    /// The bytes of the file of this name.
    pub(crate) fn find(&self, name: &str) -> Option<&[u8]>
        ensures { option_copied result ≡ stored self.now name.now }
    {
        for entry in &self.entries {
            if entry.name.as_str() == name {
                return Some(entry.bytes.as_slice());
            }
        }
        None
    }
}
