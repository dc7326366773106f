// The run file of a task set.
ghost use Rattle.std.specs.Prelude.{◌≡◌, ◌≤◌, IfOk, IsErrOf, map};
ghost use Rattle.prem_io.specs.Counts.{Rose};
ghost use Rattle.prem_tasks.specs.SetOf.{set_of};
ghost use Rattle.prem_set.specs.Run.Lawful.{IsLawfulRun};
ghost use Rattle.prem_answer.specs.Stages.{Comes, IsReadAs, IsReadAsBy};
ghost use Rattle.prem_exec.specs.Sources.Sources.{input_of, names_of, run_limit, run_of_bytes, run_of_bytes_by};

use crate::line_form;
use prem_answer::{Halt, Telling, read_file_by};
use prem_gate::RunInput;
use prem_io::Store;
use prem_plant::Label;
use prem_set::run::{Names, RunFail, read_run};
use prem_tasks::{TaskSet, TaskText};
use std::alloc::{AllocError, Global};

/// The bytes that a run file has at most.
const RUN_LIMIT: usize = 4_194_304;

/// Copies of the names of tasks.
fn labels_of(alloc: Global, tasks: &[TaskText]) -> Result<Vec<Label>, AllocError>
    ensures { IfOk result (λ labels. labels.items ≡ map (λ t. t.name) tasks.now) }
{
    let mut labels = Vec::new(alloc);
    'tasks: for task in tasks {
        labels.push(Label::new(alloc, task.name.text())?)?;
    }
    Ok(labels)
}

/// The names by which run files and mail files speak of a set.
pub fn names_of(alloc: Global, set: &TaskSet) -> Result<Names, AllocError>
    ensures { IfOk result (λ names. names ≡ names_of (set_of set.now)) }
{
    let labels = labels_of(alloc, set.tasks())?;
    Names::new(alloc, &labels, set.devices())
}

/// Reads a run file of a task set.
pub fn read_run_file<S: Store>(
    alloc: Global,
    store: &mut S,
    name: &str,
    set: &TaskSet,
) -> Result<RunInput, Halt>
    ensures input { Comes input_of (IsReadAs (S.files store.old) run_limit name.now (run_of_bytes (set_of set.now) name.now)) result }
    ensures lawful { IfOk result (IsLawfulRun (names_of (set_of set.now))) }
    ensures fault { IsErrOf result Halt.ReadFault → Rose (S.faults store.old) (S.faults store.new) }
    ensures later { S.faults store.old ≤ S.faults store.new }
    ensures same { S.files store.new ≡ S.files store.old }
{
    read_run_file_by(alloc, Telling::Whole, store, name, set)
}

/// The same, where an answer tells so much of a file that isn't in its form.
pub fn read_run_file_by<S: Store>(
    alloc: Global,
    telling: Telling,
    store: &mut S,
    name: &str,
    set: &TaskSet,
) -> Result<RunInput, Halt>
    ensures input { Comes input_of (IsReadAsBy telling (S.files store.old) run_limit name.now (run_of_bytes_by telling (set_of set.now) name.now)) result }
    ensures lawful { IfOk result (IsLawfulRun (names_of (set_of set.now))) }
    ensures fault { IsErrOf result Halt.ReadFault → Rose (S.faults store.old) (S.faults store.new) }
    ensures later { S.faults store.old ≤ S.faults store.new }
    ensures same { S.files store.new ≡ S.files store.old }
{
    let bytes = match read_file_by(alloc, telling, store, name, RUN_LIMIT) {
        Ok(bytes) => bytes,
        Err(halt) => return Err(halt),
    };
    let names = names_of(alloc, set)?;
    match read_run(alloc, &bytes, &names) {
        Ok(input) => Ok(input),
        Err(RunFail::Line { n, which }) => {
            Err(Halt::Answered(line_form(alloc, telling, name, n, which)?))
        }
        Err(RunFail::OutOfMemory) => Err(Halt::OutOfMemory),
    }
}
