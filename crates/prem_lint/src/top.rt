// The program's call.
ghost use Rattle.std.specs.Prelude.{◌≡◌, ◌≤◌, map, string_bytes};
ghost use Rattle.prem_io.specs.Counts.{Rose};
ghost use Rattle.prem_answer.specs.Tool.{Answered, IsComplete};
ghost use Rattle.prem_lint.specs.Answers.{lint_tool};

use crate::answer::lint_answer;
use prem_answer::{Answer, Halt, Status, Tool, run_tool, usage};
use prem_command::{WordsFail, name_of};
use prem_io::{Sink, Store};
use std::alloc::Global;

/// The usage line.
const USAGE: &str = "usage: prem_lint SET\n";

/// The program.
struct LintTool;

impl Tool for LintTool {
    ghost meaning = { lint_tool };

    fn answer<S: Store>(alloc: Global, words: &[String], store: &mut S) -> Result<Answer, Halt> {
        match name_of(alloc, words) {
            Ok(set) => lint_answer(alloc, set, store),
            Err(WordsFail::Usage) => usage(alloc, USAGE),
            Err(WordsFail::OutOfMemory) => Err(Halt::OutOfMemory),
        }
    }
}

/// Does what the words `SET` say: reads the set and its sources from the store, and writes the first broken rule to the sink, or nothing.
///
/// `Done` comes exactly where `prem check SET` answers Done, and then nothing is written. `Refused` comes where a rule is broken or the
/// set file isn't in its form. All other answers are those of `prem check SET`. The text is built whole before the first write.
pub fn lint<S: Store, K: Sink>(
    alloc: Global,
    words: &[String],
    store: &mut S,
    sink: &mut K,
) -> Status
    ensures answered { Answered lint_tool (map string_bytes words.now) (S.files store.old) (K.bytes sink.old) (K.bytes sink.new) result }

    // Where the files are there and in form, no rule is broken and no fault is counted, nothing is said, but for want of memory.
    ensures complete { (Rose (S.faults store.old) (S.faults store.new) → ⊥) → (Rose (K.faults sink.old) (K.faults sink.new) → ⊥) → IsComplete lint_tool (map string_bytes words.now) (S.files store.old) (K.bytes sink.old) (K.bytes sink.new) result }

    // A fault is answered only where it was counted.
    ensures read { result ≡ Status.ReadFault → Rose (S.faults store.old) (S.faults store.new) }
    ensures write { result ≡ Status.WriteFault → Rose (K.faults sink.old) (K.faults sink.new) }

    // What stops before the writing leaves the sink as it was.
    ensures unread { result ≡ Status.ReadFault → sink.new ≡ sink.old }
    ensures memory { result ≡ Status.OutOfMemory → sink.new ≡ sink.old }

    ensures files { S.files store.new ≡ S.files store.old }
    ensures reads_counted { S.faults store.old ≤ S.faults store.new }
    ensures writes_counted { K.faults sink.old ≤ K.faults sink.new }
{
    run_tool::<LintTool, S, K>(alloc, words, store, sink)
}
