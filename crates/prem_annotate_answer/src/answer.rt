// A set is read and annotated, and a task's text told.
ghost use Rattle.std.specs.Prelude.{◌≡◌, ◌≤◌, IfOk, IfSome, IsErrOf, IsNone, None, Ok, Some, map};
ghost use Rattle.prem_io.specs.Counts.{Rose};
ghost use Rattle.prem_tasks.specs.SetOf.{set_of, task_of};
ghost use Rattle.prem_answer.specs.Stages.{Comes, IsGiven, reply_of};
ghost use Rattle.prem_annotate.specs.Writing.Text.{annotated_text};
ghost use Rattle.prem_annotate_answer.specs.Written.{text_named, unannotated};
ghost use Rattle.prem_annotate_answer.specs.Answers.{annotate_reply, annotate_stages, asked, judged_reply, text_reply};

use crate::set::annotate_set;
use prem_answer::refusal::refused;
use prem_answer::{Answer, Halt, Status, missing};
use prem_exec::sources::read_task_set;
use prem_io::Store;
use prem_tasks::{Stop, TaskSet, TaskText};
use std::alloc::{AllocError, Global};

/// The text of the task with a name.
fn text_named<'a>(tasks: &'a [TaskText], name: &str) -> Option<&'a [u8]>
    ensures some { IfSome result (λ text. text_named name.now (map task_of tasks.entry.now) ≡ Some text.now) }
    ensures none { IsNone result → text_named name.now (map task_of tasks.entry.now) ≡ None }
{
    for task in tasks {
        if task.name.text() == name {
            return Some(task.text.items());
        }
    }
    None
}

/// The answer by an annotated set.
fn annotated_answer(alloc: Global, tasks: &[TaskText], name: &str) -> Result<Answer, AllocError>
    ensures { IfOk result (λ a. reply_of a ≡ text_reply name.now (text_named name.now (map task_of tasks.now))) }
{
    match text_named(tasks, name) {
        Some(text) => Ok(Answer {
            status: Status::Done,
            text: text.to_vec(alloc)?,
        }),
        None => missing(alloc, name),
    }
}

/// The answer to a set with a task of the name: it is annotated, or the first rule that stands against it is told.
#[tactic(auto, using(crate::proofs::Tool::told_is, crate::proofs::Tool::refused_is))]
fn judged(alloc: Global, set: &TaskSet, name: &str) -> Result<Answer, Halt>
    ensures answer { Comes reply_of (λ given. given ≡ Ok (judged_reply name.now (set_of set.now) (unannotated annotated_text (set_of set.now)))) result }
    ensures unread { IsErrOf result Halt.ReadFault → ⊥ }
{
    match annotate_set(alloc, set) {
        Ok(new) => Ok(annotated_answer(alloc, new.tasks(), name)?),
        Err(Stop::Refused(refusal)) => Ok(refused(alloc, set.tasks(), &refusal)?),
        Err(Stop::OutOfMemory) => Err(Halt::OutOfMemory),
    }
}

/// The answer to a set.
fn set_answer(alloc: Global, set: &TaskSet, name: &str) -> Result<Answer, Halt>
    ensures answer { Comes reply_of (λ given. given ≡ Ok (annotate_reply name.now (set_of set.now))) result }
    ensures unread { IsErrOf result Halt.ReadFault → ⊥ }
{
    match text_named(set.tasks(), name) {
        Some(_) => judged(alloc, set, name),
        None => Ok(missing(alloc, name)?),
    }
}

/// The answer to the names of a set's file and of one of its tasks: the set and its sources are read, it is annotated, and the
/// task's text is told. The first of these stages that doesn't go through decides.
pub fn annotate_answer<S: Store>(
    alloc: Global,
    name: &str,
    task: &str,
    store: &mut S,
) -> Result<Answer, Halt>
    ensures answer { Comes reply_of (IsGiven (S.files store.old) (annotate_stages (asked name.now task.now))) result }
    ensures fault { IsErrOf result Halt.ReadFault → Rose (S.faults store.old) (S.faults store.new) }
    ensures later { S.faults store.old ≤ S.faults store.new }
    ensures same { S.files store.new ≡ S.files store.old }
{
    let set = match read_task_set(alloc, store, name) {
        Ok(set) => set,
        Err(halt) => return Err(halt),
    };
    set_answer(alloc, &set, task)
}
