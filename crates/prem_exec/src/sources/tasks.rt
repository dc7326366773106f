// The tasks of a set, each with the text of its source.
ghost use Rattle.std.specs.Prelude.{◌≡◌, ◌≤◌, ◌<◌, [], ◌∷◌, ◌++◌, IfOk, IfSome, IsNone, IsErrOf, length, map};
ghost use Rattle.prem_list.specs.Sequence.{items_of};
ghost use Rattle.prem_io.specs.Counts.{Rose};
ghost use Rattle.prem_tasks.specs.SetOf.{task_of};
ghost use Rattle.prem_answer.specs.Stages.{Comes, IsReadAsBy};
ghost use Rattle.prem_exec.specs.Sources.Sources.{Passes, entry_head, head_of, reading_behind, source_limit, task_of_source, task_with};

use prem_answer::{Halt, Telling, read_file_by};
use prem_io::Store;
use prem_list::Sequence;
use prem_plant::Label;
use prem_set::TaskEntry;
use prem_tasks::TaskText;
use std::alloc::{AllocError, Global};

/// The bytes that a source has at most.
const SOURCE_LIMIT: usize = 1_048_576;

/// A task with its text.
fn task_with(alloc: Global, entry: &TaskEntry, text: Vec<u8>) -> Result<TaskText, AllocError>
    ensures { IfOk result (λ t. task_of t ≡ task_with entry.now text.items) }
{
    Ok(TaskText {
        name: Label::new(alloc, entry.name.text())?,
        text: Sequence::from_vec(text),
        period: entry.period,
        jobs: entry.jobs,
    })
}

/// Reads the source of a task.
fn read_task<S: Store>(
    alloc: Global,
    telling: Telling,
    store: &mut S,
    entry: &TaskEntry,
) -> Result<TaskText, Halt>
    ensures task { Comes task_of (IsReadAsBy telling (S.files store.old) source_limit entry.now.source (task_of_source entry.now)) result }
    ensures head { IfOk result (λ t. head_of (task_of t) ≡ entry_head entry.now) }
    ensures fault { IsErrOf result Halt.ReadFault → Rose (S.faults store.old) (S.faults store.new) }
    ensures later { S.faults store.old ≤ S.faults store.new }
    ensures same { S.files store.new ≡ S.files store.old }
{
    let text = match read_file_by(alloc, telling, store, entry.source.text(), SOURCE_LIMIT) {
        Ok(text) => text,
        Err(halt) => return Err(halt),
    };
    Ok(task_with(alloc, entry, text)?)
}

/// The first entry, and those behind it.
fn first_entry(entries: &[TaskEntry]) -> Option<(&TaskEntry, &[TaskEntry])>
    ensures some { IfSome result (λ f. entries.now ≡ f.0.now ∷ f.1.now) }
    ensures none { IsNone result → entries.now ≡ [] }
    ensures fewer { IfSome result (λ f. length f.1.now < length entries.now) }
{
    match entries {
        [entry, rest @ ..] => Some((entry, rest)),
        [] => None,
    }
}

/// Reads the sources of tasks that stand behind others.
pub fn read_behind<S: Store>(
    alloc: Global,
    telling: Telling,
    store: &mut S,
    front: Sequence<TaskText>,
    entries: &[TaskEntry],
) -> Result<Sequence<TaskText>, Halt>
    ensures tasks { Comes (λ ts. map task_of (items_of ts)) (Passes (S.files store.old) (reading_behind telling (map task_of (items_of front)) entries.now)) result }
    ensures heads { IfOk result (λ ts. map (λ t. head_of (task_of t)) (items_of ts) ≡ map (λ t. head_of (task_of t)) (items_of front) ++ map entry_head entries.now) }
    ensures fault { IsErrOf result Halt.ReadFault → Rose (S.faults store.old) (S.faults store.new) }
    ensures later { S.faults store.old ≤ S.faults store.new }
    ensures same { S.files store.new ≡ S.files store.old }
{
    let mut tasks = front;
    match first_entry(entries) {
        None => Ok(tasks),
        Some((entry, rest)) => {
            let task = match read_task(alloc, telling, store, entry) {
                Ok(task) => task,
                Err(halt) => return Err(halt),
            };
            tasks.push(task)?;
            read_behind(alloc, telling, store, tasks, rest)
        }
    }
}
