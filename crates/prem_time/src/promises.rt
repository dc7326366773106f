// What is promised to the devices that words name.
ghost use Rattle.std.specs.Prelude.{◌≡◌, ◌≤◌, IfOk, None, length};
ghost use Rattle.prem_tasks.specs.Broken.{broken};
ghost use Rattle.prem_tasks.specs.SetOf.{set_of};
ghost use Rattle.prem_time.specs.Words.{AreDistances};
ghost use Rattle.prem_time.specs.Asked.{distances_in};
ghost use Rattle.prem_time.specs.Promises.{promise_told, promises_by, promises_in, promises_told, wait_held};
ghost use Rattle.prem_time.specs.Told.{AreTold, HasDevices, HasLoads, IsSpan, waits_by};

use crate::devices::{Bus, Named, bus_of, tops_of};
use crate::lines::is_held;
use crate::loads::loads_of;
use crate::waits::waits_of;
use crate::words::Distance;
use prem_compile::{CompileFail, TaskSet};
use prem_plant::Device;
use prem_resp::busy_periods;
use prem_wcet::{Timed, time_set};
use std::alloc::{AllocError, Global};

/// What is promised to a device that words name.
#[derive(Clone, Copy)]
pub struct Promise {
    /// The device's number in its set.
    pub device: usize,
    /// How many cycles its requests are apart at least.
    pub every: u64,
    /// How many cycles they wait at most, if there is such a number and the queue holds as many requests as come in as many cycles.
    pub wait: Option<u64>,
}

/// A wait, where the queue holds as many requests as come in it.
fn wait_held(every: u64, queue: u32, wait: Option<u64>) -> Option<u64>
    requires { IsSpan every wait }
    ensures { result ≡ wait_held every queue wait }
{
    if is_held(every, queue, wait) {
        wait
    } else {
        None
    }
}

/// What is promised to a device with such a wait.
fn promise_told(device: &Device, named: Named, wait: Option<u64>) -> Promise
    requires { IsSpan named.every wait }
    ensures { result ≡ promise_told device.now named wait }
{
    Promise {
        device: named.number,
        every: named.every,
        wait: wait_held(named.every, device.queue, wait),
    }
}

/// What is promised to each device that is named.
fn promises_told(
    alloc: Global,
    devices: &[Device],
    named: &[Named],
    waits: &[Option<u64>],
) -> Result<Vec<Promise>, AllocError>
    requires { AreTold devices.now named.now waits.now }
    ensures { IfOk result (λ all. all.items ≡ promises_told devices.now named.now waits.now) }
{
    let mut all = Vec::new(alloc);
    for i in 0..named.len() {
        all.push(promise_told(&devices[named[i].number], named[i], waits[i]))?;
    }
    Ok(all)
}

/// How long the requests of the devices that are named wait at most, if that is known.
fn waits_by(
    alloc: Global,
    bus: &Bus,
    devices: &[Device],
    timed: &Timed,
) -> Result<Vec<Option<u64>>, AllocError>
    requires loads { HasLoads timed.now }
    requires devices { HasDevices devices.now bus.now timed.now }
    ensures { IfOk result (λ waits. waits.items ≡ waits_by bus.now timed.now) }
{
    let _devices = devices;
    let tasks = timed.compiled.image.tasks.items();
    let times = timed.tasks.items();
    let loads = loads_of(alloc, tasks, times)?;
    let found = busy_periods(alloc, &loads)?;
    let waits = waits_of(alloc, bus, &loads, &found, times)?;
    Ok(waits)
}

/// What is promised by the times of a set.
fn promises_by(
    alloc: Global,
    devices: &[Device],
    bus: &Bus,
    timed: &Timed,
) -> Result<Vec<Promise>, AllocError>
    requires loads { HasLoads timed.now }
    requires devices { HasDevices devices.now bus.now timed.now }
    ensures { IfOk result (λ all. all.items ≡ promises_by devices.now bus.now timed.now) }
{
    let waits = waits_by(alloc, bus, devices, timed)?;
    let all = promises_told(alloc, devices, &bus.named, &waits)?;
    Ok(all)
}

/// What is promised to each device of a set that words name, in the order of the set. It fails only for want of memory.
///
/// Conditions: the set breaks no rule, and each distance is one that words tell.
pub fn promises_of(
    alloc: Global,
    set: &TaskSet,
    distances: &[Distance],
) -> Result<Vec<Promise>, AllocError>
    requires distances { AreDistances (distances_in distances.now) }
    requires lawful { broken (set_of set.now) ≡ None }
    ensures promises { IfOk result (λ all. all.items ≡ promises_in (set_of set.now) (distances_in distances.now)) }
    ensures few { IfOk result (λ all. length all.items ≤ 8) }
{
    let devices = set.devices();
    let bus = bus_of(alloc, distances, devices)?;
    let tops = tops_of(alloc, &bus)?;
    match time_set(alloc, set, &tops) {
        Ok(timed) => {
            let all = promises_by(alloc, devices, &bus, &timed)?;
            Ok(all)
        }
        Err(CompileFail::OutOfMemory) => Err(AllocError),
        Err(CompileFail::Refused(_)) => unreachable!(),
    }
}
