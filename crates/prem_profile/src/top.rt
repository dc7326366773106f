// The top call.
ghost use Rattle.std.specs.Prelude.{◌≡◌, ◌≤◌, map, string_bytes};
ghost use Rattle.prem_io.specs.Counts.{Rose};
ghost use Rattle.prem_answer.specs.Tool.{Answered, IsComplete};
ghost use Rattle.prem_profile.specs.Answer.{profile_tool};

use crate::answer::profile_answer;
use crate::words::asked_of;
use prem_answer::{Answer, Halt, Status, Tool, run_tool, usage};
use prem_io::{Sink, Store};
use std::alloc::Global;

/// The usage line.
const USAGE: &str = "usage: prem_profile SET RUN [--cycles N] | prem_profile --bound SET\n";

/// The program.
struct ProfileTool;

impl Tool for ProfileTool {
    ghost meaning = { profile_tool };

    fn answer<S: Store>(alloc: Global, words: &[String], store: &mut S) -> Result<Answer, Halt> {
        match asked_of(words) {
            Some(asked) => profile_answer(alloc, &asked, store),
            None => usage(alloc, USAGE),
        }
    }
}

/// Tells the profile that the words ask for: reads from the store, and writes the whole answer to the sink.
///
/// The stages are the words, the files with their forms, the rules, the run and the writing; the first one that doesn't go through
/// decides, with the status and the text that `prem run` has for it. The text is built whole before the first write.
pub fn profiles<S: Store, K: Sink>(
    alloc: Global,
    words: &[String],
    store: &mut S,
    sink: &mut K,
) -> Status
    ensures answered { Answered profile_tool (map string_bytes words.now) (S.files store.old) (K.bytes sink.old) (K.bytes sink.new) result }

    // Where the files are there and in form, no rule is broken and no fault is counted, the profile is told, but for want of memory.
    ensures complete { (Rose (S.faults store.old) (S.faults store.new) → ⊥) → (Rose (K.faults sink.old) (K.faults sink.new) → ⊥) → IsComplete profile_tool (map string_bytes words.now) (S.files store.old) (K.bytes sink.old) (K.bytes sink.new) result }

    // A fault is answered only where it was counted.
    ensures read { result ≡ Status.ReadFault → Rose (S.faults store.old) (S.faults store.new) }
    ensures write { result ≡ Status.WriteFault → Rose (K.faults sink.old) (K.faults sink.new) }

    // What stops before the writing leaves the sink as it was.
    ensures unread { result ≡ Status.ReadFault → sink.new ≡ sink.old }
    ensures memory { result ≡ Status.OutOfMemory → sink.new ≡ sink.old }

    ensures files { S.files store.new ≡ S.files store.old }
    ensures reads_counted { S.faults store.old ≤ S.faults store.new }
    ensures writes_counted { K.faults sink.old ≤ K.faults sink.new }
{
    run_tool::<ProfileTool, S, K>(alloc, words, store, sink)
}
