// A set is read, compiled and told.
ghost use Rattle.std.specs.Prelude.{◌≡◌, ◌≤◌, IfOk, IsErrOf, Ok};
ghost use Rattle.prem_io.specs.Counts.{Rose};
ghost use Rattle.prem_tasks.specs.SetOf.{set_of};
ghost use Rattle.prem_answer.specs.declared.status.Status.TheVariants.{Done};
ghost use Rattle.prem_answer.specs.Stages.{Comes, IsGiven, reply_of};
ghost use Rattle.prem_time.specs.Words.{AreDistances};
ghost use Rattle.prem_time.specs.Asked.{asked_in, distances_in};
ghost use Rattle.prem_time.specs.Devices.{unknown_in};
ghost use Rattle.prem_time.specs.Stages.{found_reply, time_reply, time_stages, unknown_reply};
ghost use Rattle.prem_time.specs.Told.{HasDevices, HasLoads, text_by};

use crate::devices::{Bus, bus_of, tops_of, unknown_in};
use crate::limit::limit_of;
use crate::lines::{all_held, push_devices, push_end, tasks_text};
use crate::loads::loads_of;
use crate::waits::waits_of;
use crate::words::{Distance, TimesAsked};
use prem_answer::refusal::uncompiled;
use prem_answer::{Answer, Halt, Status};
use prem_compile::TaskSet;
use prem_exec::sources::read_task_set;
use prem_io::Store;
use prem_plant::Device;
use prem_resp::{all_within, busy_periods};
use prem_wcet::{Timed, time_set};
use std::alloc::{AllocError, Global};

/// The text of a set that breaks no rule.
fn set_text(
    alloc: Global,
    devices: &[Device],
    bus: &Bus,
    timed: &Timed,
) -> Result<Vec<u8>, AllocError>
    requires loads { HasLoads timed.now }
    requires devices { HasDevices devices.now bus.now timed.now }
    ensures { IfOk result (λ text. text.items ≡ text_by devices.now bus.now timed.now) }
{
    let tasks = timed.compiled.image.tasks.items();
    let times = timed.tasks.items();
    let loads = loads_of(alloc, tasks, times)?;
    let found = busy_periods(alloc, &loads)?;
    let waits = waits_of(alloc, bus, &loads, &found, times)?;
    let fits = all_within(&found) && all_held(devices, &bus.named, &waits);
    let bounds = timed.compiled.jobs.items();
    let mut text = tasks_text(alloc, tasks, bounds, times, &loads, &found)?;
    push_devices(alloc, &mut text, devices, &bus.named, &waits)?;
    push_end(alloc, &mut text, limit_of(tasks, &loads), fits)?;
    Ok(text)
}

/// The answer to a set that breaks no rule and has all devices that are named.
fn times_answer(
    alloc: Global,
    devices: &[Device],
    bus: &Bus,
    timed: &Timed,
) -> Result<Answer, AllocError>
    requires loads { HasLoads timed.now }
    requires devices { HasDevices devices.now bus.now timed.now }
    ensures { IfOk result (λ a. reply_of a ≡ (Done, text_by devices.now bus.now timed.now)) }
{
    Ok(Answer {
        status: Status::Done,
        text: set_text(alloc, devices, bus, timed)?,
    })
}

/// The answer to a set that breaks no rule and has no device of this name.
fn unknown(alloc: Global, name: &[u8]) -> Result<Answer, AllocError>
    ensures { IfOk result (λ a. reply_of a ≡ unknown_reply name.now) }
{
    let mut text = b"refused * device ".to_vec(alloc)?;
    text.extend_from_slice(name)?;
    text.extend_from_slice(b"\n")?;
    Ok(Answer {
        status: Status::Refused,
        text,
    })
}

/// The answer to a set that breaks no rule.
fn named_answer(
    alloc: Global,
    distances: &[Distance],
    devices: &[Device],
    bus: &Bus,
    timed: &Timed,
) -> Result<Answer, AllocError>
    requires loads { HasLoads timed.now }
    requires devices { HasDevices devices.now bus.now timed.now }
    ensures { IfOk result (λ a. reply_of a ≡ found_reply (unknown_in (distances_in distances.now) devices.now) (text_by devices.now bus.now timed.now)) }
{
    match unknown_in(distances, devices) {
        Some(name) => unknown(alloc, name),
        None => times_answer(alloc, devices, bus, timed),
    }
}

/// The answer to a set: it is compiled and told, or the first rule that it breaks is, or a device that it hasn't got.
fn set_answer(alloc: Global, set: &TaskSet, distances: &[Distance]) -> Result<Answer, Halt>
    requires { AreDistances (distances_in distances.now) }
    ensures answer { Comes reply_of (λ given. given ≡ Ok (time_reply (distances_in distances.now) (set_of set.now))) result }
    ensures unread { IsErrOf result Halt.ReadFault → ⊥ }
{
    let devices = set.devices();
    let bus = bus_of(alloc, distances, devices)?;
    let tops = tops_of(alloc, &bus)?;
    match time_set(alloc, set, &tops) {
        Ok(timed) => Ok(named_answer(alloc, distances, devices, &bus, &timed)?),
        Err(fail) => uncompiled(alloc, set, fail),
    }
}

/// The answer to the name of a set's file and distances: the set and its sources are read, and it is compiled and told. The first of
/// these stages that doesn't go through decides.
pub(crate) fn time_answer<S: Store>(
    alloc: Global,
    asked: &TimesAsked,
    store: &mut S,
) -> Result<Answer, Halt>
    requires { AreDistances (distances_in asked.now.distances.items) }
    ensures answer { Comes reply_of (IsGiven (S.files store.old) (time_stages (asked_in asked.now))) result }
    ensures fault { IsErrOf result Halt.ReadFault → Rose (S.faults store.old) (S.faults store.new) }
    ensures later { S.faults store.old ≤ S.faults store.new }
    ensures same { S.files store.new ≡ S.files store.old }
{
    let set = match read_task_set(alloc, store, asked.set) {
        Ok(set) => set,
        Err(halt) => return Err(halt),
    };
    set_answer(alloc, &set, &asked.distances)
}
