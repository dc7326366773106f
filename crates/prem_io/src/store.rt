// Stores of files.
ghost use Rattle.std.specs.Prelude.{◌≡◌, ◌≤◌, ◌<◌, ℕ, [], Option, Some, None, IfSome, IsSomeAnd, OnOk, OnErr, IsErrOf, length, vec_len};
ghost use Rattle.prem_io.specs.Counts.{Rose};
ghost use Rattle.prem_io.specs.Files.{Files, stored};

use std::alloc::Global;

/// Why a file wasn't read.
#[derive(Clone, Copy, Debug, PartialEq, Eq)]
pub enum StoreFail {
    /// There is no file of this name.
    Missing,
    /// The file has more bytes than the limit.
    TooLong,
    /// The store had a fault, which it counted.
    Failed,
    /// There was no memory for the bytes.
    OutOfMemory,
}

/// Files by name, with a count of faults that never falls.
pub trait Store {
    // The files, where the store tells them.
    ghost files: { Self → Option Files };

    // The faults so far.
    ghost faults: { Self → ℕ };

    /// Reads a whole file of at most `limit` bytes into the empty vector, which a refusal leaves empty.
    ///
    /// No call changes the files. A fault and want of memory may come in place of any other answer.
    fn read_file(
        &mut self,
        alloc: Global,
        name: &str,
        limit: usize,
        into: &mut Vec<u8>,
    ) -> Result<(), StoreFail>
        requires { into.old.items ≡ [] }

        ensures limit { OnOk result (vec_len into.new ≤ limit) }
        ensures refused { OnErr result (into.new.items ≡ []) }
        ensures failed { IsErrOf result StoreFail.Failed → Rose (faults self.old) (faults self.new) }
        ensures count { faults self.old ≤ faults self.new }

        // Where the files are told, these leave one answer beside a fault and want of memory: `Missing`
        // where no file has the name, `TooLong` where its bytes pass the limit, else `Ok` with its bytes.
        ensures bytes { IfSome (files self.old)
            (λ told. OnOk result (stored told name.now ≡ Some into.new.items)) }
        ensures missing { IsErrOf result StoreFail.Missing
            → IfSome (files self.old) (λ told. stored told name.now ≡ None) }
        ensures too_long { IsErrOf result StoreFail.TooLong
            → IfSome (files self.old)
            (λ told. IsSomeAnd (stored told name.now) (λ bytes. limit < length bytes)) }
        ensures same { files self.new ≡ files self.old };
}
