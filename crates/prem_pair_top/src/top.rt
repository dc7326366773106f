// The top call.
ghost use Rattle.std.specs.Prelude.{◌≡◌, ◌≤◌, map, string_bytes};
ghost use Rattle.prem_io.specs.Counts.{Rose};
ghost use Rattle.prem_pair_top.specs.Answer.{Answered, IsComplete, pair_tool};

use crate::answer::pair_answer;
use crate::words::asked_of;
use prem_answer::{Answer, Halt, PlainStatus as PairStatus, Tool, run_plain_tool, usage};
use prem_io::{Sink, Store};
use std::alloc::Global;

/// The usage line.
const USAGE: &str = "usage: prem_pair SET SET2 RUN RUN2 [--cycles N] [--intervals]\n";

/// The program.
struct PairTool;

impl Tool for PairTool {
    ghost meaning = { pair_tool };

    fn answer<S: Store>(alloc: Global, words: &[String], store: &mut S) -> Result<Answer, Halt> {
        match asked_of(words) {
            Some(asked) => pair_answer(alloc, &asked, store),
            None => usage(alloc, USAGE),
        }
    }
}

/// Does what the words say: reads from the store, and writes the whole answer to the sink.
///
/// Two compiled sets are run on two cores with one bus, and the run is told. The stages are the words, the first set with its sources,
/// the second, which has no device, both run files, the rules, the run and the writing; the first one that doesn't go through decides.
/// The text is built whole before the first write, and writing takes no memory.
pub fn run_pair<S: Store, K: Sink>(
    alloc: Global,
    words: &[String],
    store: &mut S,
    sink: &mut K,
) -> PairStatus
    ensures answered { Answered (map string_bytes words.now) (S.files store.old) (K.bytes sink.old) (K.bytes sink.new) result }

    // Where the files are there and in form, no rule is broken and no fault is counted, the run is told, but for want of memory.
    ensures complete { (Rose (S.faults store.old) (S.faults store.new) → ⊥) → (Rose (K.faults sink.old) (K.faults sink.new) → ⊥) → IsComplete (map string_bytes words.now) (S.files store.old) (K.bytes sink.old) (K.bytes sink.new) result }

    // A fault is answered only where it was counted.
    ensures read { result ≡ PairStatus.ReadFault → Rose (S.faults store.old) (S.faults store.new) }
    ensures write { result ≡ PairStatus.WriteFault → Rose (K.faults sink.old) (K.faults sink.new) }

    // What stops before the writing leaves the sink as it was.
    ensures unread { result ≡ PairStatus.ReadFault → sink.new ≡ sink.old }
    ensures memory { result ≡ PairStatus.OutOfMemory → sink.new ≡ sink.old }

    ensures files { S.files store.new ≡ S.files store.old }
    ensures reads_counted { S.faults store.old ≤ S.faults store.new }
    ensures writes_counted { K.faults sink.old ≤ K.faults sink.new }
{
    run_plain_tool::<PairTool, S, K>(alloc, words, store, sink)
}
