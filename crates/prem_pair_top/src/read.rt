// The second set, which has no device.
ghost use Rattle.std.specs.Prelude.{◌≡◌, ◌≤◌, [], IfOk, IsErrOf};
ghost use Rattle.prem_io.specs.Counts.{Rose};
ghost use Rattle.prem_tasks.specs.SetOf.{set_of};
ghost use Rattle.prem_set.specs.Lawful.{IsSet};
ghost use Rattle.prem_set.specs.Views.{set_view};
ghost use Rattle.prem_answer.specs.Stages.{Comes, IsReadAsBy};
ghost use Rattle.prem_exec.specs.Sources.Sources.{Passes, set_limit};
ghost use Rattle.prem_pair_top.specs.Stages.{other_of_bytes, reading_other};

use prem_answer::{Halt, Telling, form};
use prem_exec::sources::{read_set_file, read_sources};
use prem_io::Store;
use prem_set::SetFile;
use prem_tasks::TaskSet;
use std::alloc::Global;

/// Reads a set file without devices.
fn read_other_file<S: Store>(alloc: Global, store: &mut S, name: &str) -> Result<SetFile, Halt>
    ensures set { Comes set_view (IsReadAsBy Telling.Brief (S.files store.old) set_limit name.now (other_of_bytes name.now)) result }
    ensures lawful { IfOk result (λ set. IsSet (set_view set)) }
    ensures none { IfOk result (λ set. (set_view set).devices ≡ []) }
    ensures fault { IsErrOf result Halt.ReadFault → Rose (S.faults store.old) (S.faults store.new) }
    ensures later { S.faults store.old ≤ S.faults store.new }
    ensures same { S.files store.new ≡ S.files store.old }
{
    let file = match read_set_file(alloc, Telling::Brief, store, name) {
        Ok(file) => file,
        Err(halt) => return Err(halt),
    };
    match file.devices.items() {
        [] => Ok(file),
        [_, ..] => Err(Halt::Answered(form(alloc, name, "limit device")?)),
    }
}

/// Reads the file of a set without devices, and its sources.
pub(crate) fn read_other_set<S: Store>(
    alloc: Global,
    store: &mut S,
    name: &str,
) -> Result<TaskSet, Halt>
    ensures set { Comes set_of (Passes (S.files store.old) (reading_other name.now)) result }
    ensures none { IfOk result (λ set. (set_of set).devices ≡ []) }
    ensures fault { IsErrOf result Halt.ReadFault → Rose (S.faults store.old) (S.faults store.new) }
    ensures later { S.faults store.old ≤ S.faults store.new }
    ensures same { S.files store.new ≡ S.files store.old }
{
    let file = match read_other_file(alloc, store, name) {
        Ok(file) => file,
        Err(halt) => return Err(halt),
    };
    read_sources(alloc, Telling::Brief, store, file)
}
