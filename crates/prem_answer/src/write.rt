// Writing a text to a sink.
ghost use Rattle.std.specs.Prelude.{◌≡◌, ◌≤◌, ℕ, OnOk, OnErr, take};
ghost use Rattle.std.specs.Io.KnownBytes.{append_known};
ghost use Rattle.prem_io.specs.Counts.{Rose};

use prem_io::{Sink, SinkFailed};

/// Writes the whole text, piece by piece. Where the sink has a fault, a prefix of the text is written.
pub fn write_all<K: Sink>(sink: &mut K, text: &[u8]) -> Result<(), SinkFailed>
    ensures ok { OnOk result (K.bytes sink.new ≡ append_known (K.bytes sink.old) text.now) }
    ensures prefix { OnErr result ((n : ℕ) × (K.bytes sink.new ≡ append_known (K.bytes sink.old) (take n text.now))) }
    ensures failed { OnErr result (Rose (K.faults sink.old) (K.faults sink.new)) }
    ensures later { K.faults sink.old ≤ K.faults sink.new }
{
    let mut at = 0usize;
    while at < text.len() {
        at += sink.write(&text[at..])?;
    }
    Ok(())
}
