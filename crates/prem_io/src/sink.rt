// Sinks of bytes.
ghost use Rattle.std.specs.Prelude.{◌≡◌, ◌≤◌, ◌<◌, ℕ, List, Option, IfOk, OnErr, length, take};
ghost use Rattle.std.specs.Io.KnownBytes.{append_known};
ghost use Rattle.prem_io.specs.Counts.{Rose};

/// The sink had a fault, which it counted, and took nothing.
#[derive(Clone, Copy, Debug, PartialEq, Eq)]
pub struct SinkFailed;

/// Bytes that are taken piece by piece, with a count of faults that never falls.
pub trait Sink {
    // The bytes so far, where the sink tells them.
    ghost bytes: { Self → Option (List ℕ) };

    // The faults so far.
    ghost faults: { Self → ℕ };

    /// Takes bytes from the front of the piece and answers how many: at least one of a piece that isn't
    /// empty. It takes no memory.
    fn write(&mut self, piece: &[u8]) -> Result<usize, SinkFailed>
        ensures most { IfOk result (λ n. n ≤ length piece.now) }
        ensures least { IfOk result (λ n. 0 < length piece.now → 0 < n) }
        ensures taken { IfOk result
            (λ n. bytes self.new ≡ append_known (bytes self.old) (take n piece.now)) }

        ensures refused { OnErr result (bytes self.new ≡ bytes self.old) }
        ensures failed { OnErr result (Rose (faults self.old) (faults self.new)) }
        ensures count { faults self.old ≤ faults self.new };
}
