// A program: what it answers to its words, and how a call of it reads, answers and writes.
ghost use Rattle.std.specs.Prelude.{◌≡◌, ◌≤◌, ◌⊎◌, IsErrOf, IsTrue, Ok, map, string_bytes};
ghost use Rattle.prem_io.specs.Counts.{Rose};
ghost use Rattle.prem_answer.specs.Statuses.{plain_status};
ghost use Rattle.prem_answer.specs.Stages.{Comes, IsGiven, is_settled, reply_of};
ghost use Rattle.prem_answer.specs.Tool.{Answered, Ends, IsComplete, IsPlainlyComplete, IsTool, PlainlyAnswered, ToolMeaning, usage_reply, words_stages};

use crate::answer::{Answer, Halt};
use crate::status::{PlainStatus, Status};
use crate::write::write_all;
use prem_io::{Sink, Store};
use std::alloc::Global;

/// A program that answers to its words over the files of a store.
pub trait Tool {
    /// Which words ask for what, what is answered and promised, and when it succeeds.
    ghost meaning: { ToolMeaning };

    /// The answer to the words, over what the store gives.
    fn answer<S: Store>(alloc: Global, words: &[String], store: &mut S) -> Result<Answer, Halt>
        ensures answer { Comes reply_of (IsGiven (S.files store.old) (words_stages meaning (map string_bytes words.now))) result }
        ensures fault { IsErrOf result Halt.ReadFault → Rose (S.faults store.old) (S.faults store.new) }
        ensures later { S.faults store.old ≤ S.faults store.new }
        ensures same { S.files store.new ≡ S.files store.old };
}

/// The usage line, where the words are no command.
pub fn usage(alloc: Global, line: &str) -> Result<Answer, Halt>
    ensures usage { Comes reply_of (λ given. given ≡ Ok (usage_reply line.now)) result }
    ensures unread { IsErrOf result Halt.ReadFault → ⊥ }
{
    Ok(Answer {
        status: Status::Usage,
        text: line.as_bytes().to_vec(alloc)?,
    })
}

/// Writes an answer.
fn finish<K: Sink>(sink: &mut K, answer: Answer) -> Status
    requires { IsTrue (is_settled answer.status) }
    ensures ends { Ends (answer.status, answer.text.items) (K.bytes sink.old) (K.bytes sink.new) result }
    ensures write { result ≡ Status.WriteFault → Rose (K.faults sink.old) (K.faults sink.new) }
    ensures others { IsTrue (is_settled result) ⊎ (result ≡ Status.WriteFault) }
    ensures later { K.faults sink.old ≤ K.faults sink.new }
{
    match write_all(sink, &answer.text) {
        Ok(()) => answer.status,
        Err(_) => Status::WriteFault,
    }
}

/// Does what the words say: reads from the store, and writes the whole answer to the sink.
///
/// The first stage that doesn't go through decides the answer. The text is built whole before the first write, and writing takes no
/// memory.
pub fn run_tool<T: Tool, S: Store, K: Sink>(
    alloc: Global,
    words: &[String],
    store: &mut S,
    sink: &mut K,
) -> Status
    requires { IsTool T.meaning }
    ensures answered { Answered T.meaning (map string_bytes words.now) (S.files store.old) (K.bytes sink.old) (K.bytes sink.new) result }

    // Where the words succeed and no fault is counted, the answer is written whole, but for want of memory.
    ensures complete { (Rose (S.faults store.old) (S.faults store.new) → ⊥) → (Rose (K.faults sink.old) (K.faults sink.new) → ⊥) → IsComplete T.meaning (map string_bytes words.now) (S.files store.old) (K.bytes sink.old) (K.bytes sink.new) result }

    // A fault is answered only where it was counted.
    ensures read { result ≡ Status.ReadFault → Rose (S.faults store.old) (S.faults store.new) }
    ensures write { result ≡ Status.WriteFault → Rose (K.faults sink.old) (K.faults sink.new) }

    // What stops before the writing leaves the sink as it was.
    ensures unread { result ≡ Status.ReadFault → sink.new ≡ sink.old }
    ensures memory { result ≡ Status.OutOfMemory → sink.new ≡ sink.old }

    ensures files { S.files store.new ≡ S.files store.old }
    ensures reads_counted { S.faults store.old ≤ S.faults store.new }
    ensures writes_counted { K.faults sink.old ≤ K.faults sink.new }
{
    match T::answer(alloc, words, store) {
        Ok(answer) => finish(sink, answer),
        Err(Halt::Answered(answer)) => finish(sink, answer),
        Err(Halt::ReadFault) => Status::ReadFault,
        Err(Halt::OutOfMemory) => Status::OutOfMemory,
    }
}

/// A status as that of a program of which no answer tells of a trap.
fn plain_status(status: Status) -> PlainStatus
    ensures { result ≡ plain_status status }
{
    match status {
        Status::Done | Status::Trap => PlainStatus::Done,
        Status::Refused => PlainStatus::Refused,
        Status::Usage => PlainStatus::Usage,
        Status::Form => PlainStatus::Form,
        Status::ReadFault => PlainStatus::ReadFault,
        Status::WriteFault => PlainStatus::WriteFault,
        Status::OutOfMemory => PlainStatus::OutOfMemory,
        Status::Missing => PlainStatus::Missing,
    }
}

/// The same, for a program of which no answer tells of a trap.
pub fn run_plain_tool<T: Tool, S: Store, K: Sink>(
    alloc: Global,
    words: &[String],
    store: &mut S,
    sink: &mut K,
) -> PlainStatus
    requires { IsTool T.meaning }
    ensures answered { PlainlyAnswered T.meaning (map string_bytes words.now) (S.files store.old) (K.bytes sink.old) (K.bytes sink.new) result }
    ensures complete { (Rose (S.faults store.old) (S.faults store.new) → ⊥) → (Rose (K.faults sink.old) (K.faults sink.new) → ⊥) → IsPlainlyComplete T.meaning (map string_bytes words.now) (S.files store.old) (K.bytes sink.old) (K.bytes sink.new) result }
    ensures read { result ≡ PlainStatus.ReadFault → Rose (S.faults store.old) (S.faults store.new) }
    ensures write { result ≡ PlainStatus.WriteFault → Rose (K.faults sink.old) (K.faults sink.new) }
    ensures unread { result ≡ PlainStatus.ReadFault → sink.new ≡ sink.old }
    ensures memory { result ≡ PlainStatus.OutOfMemory → sink.new ≡ sink.old }
    ensures files { S.files store.new ≡ S.files store.old }
    ensures reads_counted { S.faults store.old ≤ S.faults store.new }
    ensures writes_counted { K.faults sink.old ≤ K.faults sink.new }
{
    plain_status(run_tool::<T, S, K>(alloc, words, store, sink))
}
