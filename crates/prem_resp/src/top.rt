// The top call.
ghost use Rattle.std.specs.Prelude.{◌≡◌, ◌≤◌, map, string_bytes};
ghost use Rattle.prem_io.specs.Counts.{Rose};
ghost use Rattle.prem_resp.specs.Answer.{Answered, IsComplete, fit_tool};

use crate::answer::fit_answer;
use crate::words::asked_of;
use prem_answer::{Answer, Halt, PlainStatus as FitStatus, Tool, run_plain_tool, usage};
use prem_io::{Sink, Store};
use std::alloc::Global;

/// The usage line.
const USAGE: &str = "usage: prem_resp SET\n";

/// The program.
struct FitTool;

impl Tool for FitTool {
    ghost meaning = { fit_tool };

    fn answer<S: Store>(alloc: Global, words: &[String], store: &mut S) -> Result<Answer, Halt> {
        match asked_of(words) {
            Some(name) => fit_answer(alloc, name, store),
            None => usage(alloc, USAGE),
        }
    }
}

/// Does what the words say: reads from the store, and writes the whole answer to the sink.
///
/// A set is compiled, and of each task it is told what a job takes, what blocks it, and how long the busy period of its level lasts, where
/// that is within the task's period; and last whether all are. The stages are the words, the set's file with its sources, the rules
/// and the writing; the first one that doesn't go through decides. The text is built whole before the first write, and writing takes
/// no memory. Where the last line is `fits`, each job of each task ends within its period, in every run of the set's image.
pub fn fit<S: Store, K: Sink>(
    alloc: Global,
    words: &[String],
    store: &mut S,
    sink: &mut K,
) -> FitStatus
    ensures answered { Answered (map string_bytes words.now) (S.files store.old) (K.bytes sink.old) (K.bytes sink.new) result }

    // Where the files are there and in form, no rule is broken and no fault is counted, the set is tested, but for want of memory.
    ensures complete { (Rose (S.faults store.old) (S.faults store.new) → ⊥) → (Rose (K.faults sink.old) (K.faults sink.new) → ⊥) → IsComplete (map string_bytes words.now) (S.files store.old) (K.bytes sink.old) (K.bytes sink.new) result }

    // A fault is answered only where it was counted.
    ensures read { result ≡ FitStatus.ReadFault → Rose (S.faults store.old) (S.faults store.new) }
    ensures write { result ≡ FitStatus.WriteFault → Rose (K.faults sink.old) (K.faults sink.new) }

    // What stops before the writing leaves the sink as it was.
    ensures unread { result ≡ FitStatus.ReadFault → sink.new ≡ sink.old }
    ensures memory { result ≡ FitStatus.OutOfMemory → sink.new ≡ sink.old }

    ensures files { S.files store.new ≡ S.files store.old }
    ensures reads_counted { S.faults store.old ≤ S.faults store.new }
    ensures writes_counted { K.faults sink.old ≤ K.faults sink.new }
{
    run_plain_tool::<FitTool, S, K>(alloc, words, store, sink)
}
