// The top call.
ghost use Rattle.std.specs.Prelude.{◌≡◌, ◌≤◌, map, string_bytes};
ghost use Rattle.prem_io.specs.Counts.{Rose};
ghost use Rattle.prem_time.specs.Answer.{Answered, IsComplete, time_tool};

use crate::answer::time_answer;
use crate::words::asked_of;
use prem_answer::{Answer, Halt, PlainStatus as TimeStatus, Tool, run_plain_tool, usage};
use prem_io::{Sink, Store};
use std::alloc::Global;

/// The usage line.
const USAGE: &str = "usage: prem_time SET [DEVICE=CYCLES ..]\n";

/// The program.
struct TimeTool;

impl Tool for TimeTool {
    ghost meaning = { time_tool };

    fn answer<S: Store>(alloc: Global, words: &[String], store: &mut S) -> Result<Answer, Halt> {
        match asked_of(alloc, words)? {
            Some(asked) => time_answer(alloc, &asked, store),
            None => usage(alloc, USAGE),
        }
    }
}

/// Does what the words say: reads from the store, and writes the whole answer to the sink.
///
/// A set is compiled, and of each task it is told what a job takes at most, by the rule and where each line that has room in the cache is
/// counted once; its longest stretch or interval; what blocks it; how long the busy period of its level lasts, where that is within the task's
/// period; and its marked functions. Of each device that the words name with a distance of its requests it is told how long these wait at
/// most, and how many come in as many cycles. Then comes the cycle by which all jobs have ended, and last whether all busy periods are
/// within the periods, and all devices that are named have a wait and room in their queues. The stages are the words, the set's file with
/// its sources, the rules, the devices that are named and the writing; the first one that doesn't go through decides. The text is built
/// whole before the first write, and writing takes no memory.
///
/// In every run of the set's image no job and no interval takes more than is told of its task, and the run has finished by the limit.
/// Where the last line is `fits`, each job of each task has ended within the told length behind its release; and where the devices keep
/// their distances, each request of one that is named has been transferred within the told wait, and none is dropped.
pub fn time<S: Store, K: Sink>(
    alloc: Global,
    words: &[String],
    store: &mut S,
    sink: &mut K,
) -> TimeStatus
    ensures answered { Answered (map string_bytes words.now) (S.files store.old) (K.bytes sink.old) (K.bytes sink.new) result }

    // Where the files are there and in form, no rule is broken and no fault is counted, the set is tested, but for want of memory.
    ensures complete { (Rose (S.faults store.old) (S.faults store.new) → ⊥) → (Rose (K.faults sink.old) (K.faults sink.new) → ⊥) → IsComplete (map string_bytes words.now) (S.files store.old) (K.bytes sink.old) (K.bytes sink.new) result }

    // A fault is answered only where it was counted.
    ensures read { result ≡ TimeStatus.ReadFault → Rose (S.faults store.old) (S.faults store.new) }
    ensures write { result ≡ TimeStatus.WriteFault → Rose (K.faults sink.old) (K.faults sink.new) }

    // What stops before the writing leaves the sink as it was.
    ensures unread { result ≡ TimeStatus.ReadFault → sink.new ≡ sink.old }
    ensures memory { result ≡ TimeStatus.OutOfMemory → sink.new ≡ sink.old }

    ensures files { S.files store.new ≡ S.files store.old }
    ensures reads_counted { S.faults store.old ≤ S.faults store.new }
    ensures writes_counted { K.faults sink.old ≤ K.faults sink.new }
{
    run_plain_tool::<TimeTool, S, K>(alloc, words, store, sink)
}
