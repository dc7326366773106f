// A task set: its file and its sources.
ghost use Rattle.std.specs.Prelude.{◌≡◌, ◌≢◌, ◌≤◌, IfOk, IsErrOf, map, string_bytes};
ghost use Rattle.prem_list.specs.Sequence.{items_of};
ghost use Rattle.prem_io.specs.Counts.{Rose};
ghost use Rattle.prem_tasks.specs.Lawful.{IsSet as IsTaskSet};
ghost use Rattle.prem_tasks.specs.SetOf.{set_of, task_of};
ghost use Rattle.prem_set.specs.Lawful.{IsSet};
ghost use Rattle.prem_set.specs.Views.{set_view};
ghost use Rattle.prem_set.specs.declared.fault.SetFail.TheVariants.{OutOfMemory};
ghost use Rattle.prem_answer.specs.Stages.{Comes, IsReadAsBy, form_by, reply_of};
ghost use Rattle.prem_exec.specs.Sources.Sources.{Passes, at_path, reading_set, reading_set_by, reading_sources, set_limit, set_of_bytes_by, set_why, set_with};

use crate::sources::tasks::read_behind;
use prem_answer::{Answer, Halt, Telling, form_by, read_file_by};
use prem_io::Store;
use prem_list::Sequence;
use prem_plant::Label;
use prem_set::{SetFail, SetFile, read_set};
use prem_tasks::{TaskSet, TaskText};
use std::alloc::{AllocError, Global};

/// The bytes that a set file has at most.
const SET_LIMIT: usize = 65_536;

/// A fault and a path.
fn at_path(alloc: Global, word: &str, path: &Label) -> Result<String, AllocError>
    ensures { IfOk result (λ s. string_bytes s ≡ at_path word.now path.now) }
{
    let path = path.text();
    format!(in alloc; "{word} {path}")
}

/// Why bytes are no set. Want of memory is no reason.
fn set_why(alloc: Global, fail: &SetFail) -> Result<String, AllocError>
    requires { fail.now ≢ OutOfMemory }
    ensures { IfOk result (λ s. string_bytes s ≡ set_why fail.now) }
{
    match fail {
        SetFail::NotToml => String::from_str(alloc, "toml"),
        SetFail::Key { path } => at_path(alloc, "key", path),
        SetFail::Kind { path } => at_path(alloc, "kind", path),
        SetFail::Value { path } => at_path(alloc, "value", path),
        SetFail::Limit { path } => at_path(alloc, "limit", path),
        SetFail::OutOfMemory => unreachable!(),
    }
}

/// The answer to a set file that isn't one.
fn set_form(
    alloc: Global,
    telling: Telling,
    name: &str,
    fail: SetFail,
) -> Result<Answer, AllocError>
    requires { fail ≢ OutOfMemory }
    ensures { IfOk result (λ a. reply_of a ≡ form_by telling name.now (set_why fail)) }
{
    let why = set_why(alloc, &fail)?;
    form_by(alloc, telling, name, &why)
}

/// Reads a set file. An answer tells so much of one that isn't in its form.
pub fn read_set_file<S: Store>(
    alloc: Global,
    telling: Telling,
    store: &mut S,
    name: &str,
) -> Result<SetFile, Halt>
    ensures set { Comes set_view (IsReadAsBy telling (S.files store.old) set_limit name.now (set_of_bytes_by telling name.now)) result }
    ensures lawful { IfOk result (λ set. IsSet (set_view set)) }
    ensures fault { IsErrOf result Halt.ReadFault → Rose (S.faults store.old) (S.faults store.new) }
    ensures later { S.faults store.old ≤ S.faults store.new }
    ensures same { S.files store.new ≡ S.files store.old }
{
    let bytes = match read_file_by(alloc, telling, store, name, SET_LIMIT) {
        Ok(bytes) => bytes,
        Err(halt) => return Err(halt),
    };
    match read_set(alloc, &bytes) {
        Ok(set) => Ok(set),
        Err(SetFail::OutOfMemory) => Err(Halt::OutOfMemory),
        Err(fail) => Err(Halt::Answered(set_form(alloc, telling, name, fail)?)),
    }
}

/// The set of a file with the texts of its sources.
fn set_with(file: SetFile, tasks: Sequence<TaskText>) -> TaskSet
    requires { IsTaskSet file.plant (items_of file.devices) (items_of tasks) }
    ensures { set_of result ≡ set_with (set_view file) (map task_of (items_of tasks)) }
{
    match TaskSet::new(file.plant, file.devices, tasks) {
        Some(set) => set,
        None => unreachable!(),
    }
}

/// Reads the sources of a set file.
pub fn read_sources<S: Store>(
    alloc: Global,
    telling: Telling,
    store: &mut S,
    file: SetFile,
) -> Result<TaskSet, Halt>
    requires { IsSet (set_view file) }
    ensures set { Comes set_of (Passes (S.files store.old) (reading_sources telling (set_view file))) result }
    ensures devices { IfOk result (λ set. (set_of set).devices ≡ (set_view file).devices) }
    ensures fault { IsErrOf result Halt.ReadFault → Rose (S.faults store.old) (S.faults store.new) }
    ensures later { S.faults store.old ≤ S.faults store.new }
    ensures same { S.files store.new ≡ S.files store.old }
{
    let tasks = match read_behind(
        alloc,
        telling,
        store,
        Sequence::new(alloc),
        file.tasks.items(),
    ) {
        Ok(tasks) => tasks,
        Err(halt) => return Err(halt),
    };
    Ok(set_with(file, tasks))
}

/// Reads the file of a task set, and its sources.
pub fn read_task_set<S: Store>(alloc: Global, store: &mut S, name: &str) -> Result<TaskSet, Halt>
    ensures set { Comes set_of (Passes (S.files store.old) (reading_set name.now)) result }
    ensures fault { IsErrOf result Halt.ReadFault → Rose (S.faults store.old) (S.faults store.new) }
    ensures later { S.faults store.old ≤ S.faults store.new }
    ensures same { S.files store.new ≡ S.files store.old }
{
    read_task_set_by(alloc, Telling::Whole, store, name)
}

/// The same, where an answer tells so much of a file that isn't in its form.
pub fn read_task_set_by<S: Store>(
    alloc: Global,
    telling: Telling,
    store: &mut S,
    name: &str,
) -> Result<TaskSet, Halt>
    ensures set { Comes set_of (Passes (S.files store.old) (reading_set_by telling name.now)) result }
    ensures fault { IsErrOf result Halt.ReadFault → Rose (S.faults store.old) (S.faults store.new) }
    ensures later { S.faults store.old ≤ S.faults store.new }
    ensures same { S.files store.new ≡ S.files store.old }
{
    let file = match read_set_file(alloc, telling, store, name) {
        Ok(file) => file,
        Err(halt) => return Err(halt),
    };
    read_sources(alloc, telling, store, file)
}
