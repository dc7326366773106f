// The top call.
ghost use Rattle.std.specs.Prelude.{◌≡◌, ◌≤◌, map, string_bytes};
ghost use Rattle.prem_io.specs.Counts.{Rose};
ghost use Rattle.prem_answer.specs.Tool.{Answered, IsComplete};
ghost use Rattle.prem_chart.specs.Answer.{chart_tool};

use crate::answer::chart_answer;
use crate::words::{Parted, asked_of, part_words};
use prem_answer::{Answer, Halt, Status, Tool, run_tool, usage};
use prem_io::{Sink, Store};
use std::alloc::Global;

/// The usage line.
const USAGE: &str = "usage: prem_chart SET RUN [--from N] [--to N] [--every DEVICE=CYCLES ..]\n";

/// The program.
struct ChartTool;

impl Tool for ChartTool {
    ghost meaning = { chart_tool };

    fn answer<S: Store>(alloc: Global, words: &[String], store: &mut S) -> Result<Answer, Halt> {
        let Parted {
            plain,
            every,
            behind,
        } = part_words(alloc, words)?;
        match asked_of(alloc, &plain, &every, behind)? {
            Some(asked) => chart_answer(alloc, &asked, store),
            None => usage(alloc, USAGE),
        }
    }
}

/// Draws what the words ask for: reads from the store, and writes the whole answer to the sink.
///
/// The stages are the words, the files with their forms, the rules, the devices that are named, the distances of the run's requests, the
/// run and the writing; the first one that doesn't go through decides, with the status and the text that `prem run` has for it. The text
/// is built whole before the first write.
///
/// For each device that the words name with a distance, the picture has a row in which each of its requests that has come has a bar, from
/// its cycle to its last moment, so many cycles later as `prem_time` tells of its wait; and none where that tells no wait, or one in which
/// more requests come than the queue holds. Without such words nothing of this is looked at.
pub fn draw<S: Store, K: Sink>(
    alloc: Global,
    words: &[String],
    store: &mut S,
    sink: &mut K,
) -> Status
    ensures answered { Answered chart_tool (map string_bytes words.now) (S.files store.old) (K.bytes sink.old) (K.bytes sink.new) result }

    // Where the files are there and in form, no rule is broken and no fault is counted, the picture is drawn, but for want of memory.
    ensures complete { (Rose (S.faults store.old) (S.faults store.new) → ⊥) → (Rose (K.faults sink.old) (K.faults sink.new) → ⊥) → IsComplete chart_tool (map string_bytes words.now) (S.files store.old) (K.bytes sink.old) (K.bytes sink.new) result }

    // A fault is answered only where it was counted.
    ensures read { result ≡ Status.ReadFault → Rose (S.faults store.old) (S.faults store.new) }
    ensures write { result ≡ Status.WriteFault → Rose (K.faults sink.old) (K.faults sink.new) }

    // What stops before the writing leaves the sink as it was.
    ensures unread { result ≡ Status.ReadFault → sink.new ≡ sink.old }
    ensures memory { result ≡ Status.OutOfMemory → sink.new ≡ sink.old }

    ensures files { S.files store.new ≡ S.files store.old }
    ensures reads_counted { S.faults store.old ≤ S.faults store.new }
    ensures writes_counted { K.faults sink.old ≤ K.faults sink.new }
{
    run_tool::<ChartTool, S, K>(alloc, words, store, sink)
}
