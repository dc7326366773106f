// The program's call.
ghost use Rattle.std.specs.Prelude.{◌≡◌, ◌≤◌, map, string_bytes};
ghost use Rattle.prem_io.specs.Counts.{Rose};
ghost use Rattle.prem_answer.specs.Tool.{Answered, IsComplete};
ghost use Rattle.prem_annotate_answer.specs.Answers.{annotate_tool};

use crate::answer::annotate_answer;
use crate::words::asked_of;
use prem_answer::{Answer, Halt, Status, Tool, run_tool, usage};
use prem_io::{Sink, Store};
use std::alloc::Global;

/// The usage line.
const USAGE: &str = "usage: prem_annotate SET TASK\n";

/// The program.
struct AnnotateTool;

impl Tool for AnnotateTool {
    ghost meaning = { annotate_tool };

    fn answer<S: Store>(alloc: Global, words: &[String], store: &mut S) -> Result<Answer, Halt> {
        match asked_of(words) {
            Some((set, task)) => annotate_answer(alloc, set, task, store),
            None => usage(alloc, USAGE),
        }
    }
}

/// Does what the words `SET TASK` say: reads the set and its sources from the store, and writes the text of the task with the annotations
/// that it needs to the sink.
///
/// `Done` comes where the set has the task, and no rule stands against the set with the annotations of all tasks. `Missing` comes where it
/// has no such task or a file isn't there. All other answers are those of `prem check SET` to the set that is told. The text is built whole
/// before the first write.
pub fn annotate<S: Store, K: Sink>(
    alloc: Global,
    words: &[String],
    store: &mut S,
    sink: &mut K,
) -> Status
    ensures answered { Answered annotate_tool (map string_bytes words.now) (S.files store.old) (K.bytes sink.old) (K.bytes sink.new) result }

    // Where the files are there and in form, the set has the task, no rule stands against it and no fault is counted, its text is written,
    // but for want of memory.
    ensures complete { (Rose (S.faults store.old) (S.faults store.new) → ⊥) → (Rose (K.faults sink.old) (K.faults sink.new) → ⊥) → IsComplete annotate_tool (map string_bytes words.now) (S.files store.old) (K.bytes sink.old) (K.bytes sink.new) result }

    // A fault is answered only where it was counted.
    ensures read { result ≡ Status.ReadFault → Rose (S.faults store.old) (S.faults store.new) }
    ensures write { result ≡ Status.WriteFault → Rose (K.faults sink.old) (K.faults sink.new) }

    // What stops before the writing leaves the sink as it was.
    ensures unread { result ≡ Status.ReadFault → sink.new ≡ sink.old }
    ensures memory { result ≡ Status.OutOfMemory → sink.new ≡ sink.old }

    ensures files { S.files store.new ≡ S.files store.old }
    ensures reads_counted { S.faults store.old ≤ S.faults store.new }
    ensures writes_counted { K.faults sink.old ≤ K.faults sink.new }
{
    run_tool::<AnnotateTool, S, K>(alloc, words, store, sink)
}
