// How long the requests of the devices that words name wait at most.
ghost use Rattle.std.specs.Prelude.{◌≡◌, ◌≤◌, ◌<◌, ◌^◌, All, IfOk, length, map, slice_index_or, true};
ghost use Rattle.std.specs.List.{AllByRecursion};
ghost use Rattle.prem_resp.specs.Lines.{all_within};
ghost use Rattle.prem_latency.specs.Wait.{IsAsking};
ghost use Rattle.prem_wcet.specs.TimedOf.{times_in};
ghost use Rattle.prem_time.specs.Devices.{closing_of, closings_of, wait_by};
ghost use Rattle.prem_time.specs.Told.{AreNamed, HasClosed, HasFound, IsClosedAt, closed_told, waits_told};

use crate::devices::Bus;
use prem_latency::{Asking, Closing, top, wait_length};
use prem_resp::all_within;
use prem_resp::busy::{Busy, Load};
use prem_wcet::TaskTimes;
use std::alloc::{AllocError, Global};

/// The greatest wait that is told.
const MOST_CYCLES: u64 = 1 << 40;

/// How long jobs take at most behind their release; where that isn't known, a period.
fn length_of(load: &Load, busy: Busy) -> u64
    ensures { result ≡ (closing_of load.now busy 0 0).length }
{
    match busy {
        Busy::Within { length } => length,
        Busy::Past => u64::from(load.period),
    }
}

/// What a job of a task keeps closed to device number `i` of those that are named.
fn closed_at(times: &TaskTimes, i: usize) -> u64
    requires { IsClosedAt i (times_in times.now) }
    ensures closed { result ≡ slice_index_or (times_in times.now).closed i 0 }
    ensures small { result ≤ 2 ^ 40 }
{
    times.closed.items()[i]
}

/// What a task keeps from device number `i` of those that are named.
fn closing_of(load: &Load, busy: Busy, times: &TaskTimes, i: usize, cost: u32) -> Closing
    requires { IsClosedAt i (times_in times.now) }
    ensures { result ≡ closing_of load.now busy (slice_index_or (times_in times.now).closed i 0) cost }
{
    Closing {
        period: load.period,
        length: length_of(load, busy),
        closed: closed_at(times, i) + u64::from(cost),
    }
}

/// What all tasks keep from device number `i` of those that are named.
fn closings_of(
    alloc: Global,
    loads: &[Load],
    found: &[Busy],
    times: &[TaskTimes],
    i: usize,
    cost: u32,
) -> Result<Vec<Closing>, AllocError>
    requires found { length found.now ≡ length loads.now }
    requires times { length times.now ≡ length loads.now }
    requires closed { AllByRecursion (IsClosedAt i) (map times_in times.now) }
    ensures { IfOk result (λ tasks. tasks.items ≡ closings_of loads.now found.now (closed_told (map times_in times.now) i) cost) }
{
    let mut tasks = Vec::new(alloc);
    for k in 0..loads.len() {
        tasks.push(closing_of(&loads[k], found[k], &times[k], i, cost))?;
    }
    Ok(tasks)
}

/// How long the requests of device number `i` of those that are named wait at most, if that is no more than is told.
fn wait_found(
    alloc: Global,
    askings: &[Asking],
    number: usize,
    i: usize,
    loads: &[Load],
    found: &[Busy],
    times: &[TaskTimes],
) -> Result<Option<u64>, AllocError>
    requires askings { All IsAsking askings.now }
    requires few { length askings.now ≤ 8 }
    requires there { number < length askings.now }
    requires found { HasFound loads.now found.now (map times_in times.now) }
    requires closed { AllByRecursion (IsClosedAt i) (map times_in times.now) }
    requires all { all_within found.now ≡ true }
    ensures { IfOk result (λ wait. wait ≡ wait_by askings.now loads.now found.now (closed_told (map times_in times.now) i) number) }
{
    let tasks = closings_of(alloc, loads, found, times, i, top(askings, number))?;
    Ok(wait_length(askings, &tasks, number, MOST_CYCLES))
}

/// The same where all tasks are in time.
fn wait_of(
    alloc: Global,
    askings: &[Asking],
    number: usize,
    i: usize,
    loads: &[Load],
    found: &[Busy],
    times: &[TaskTimes],
) -> Result<Option<u64>, AllocError>
    requires askings { All IsAsking askings.now }
    requires few { length askings.now ≤ 8 }
    requires there { number < length askings.now }
    requires found { HasFound loads.now found.now (map times_in times.now) }
    requires closed { AllByRecursion (IsClosedAt i) (map times_in times.now) }
    ensures { IfOk result (λ wait. wait ≡ wait_by askings.now loads.now found.now (closed_told (map times_in times.now) i) number) }
{
    if !all_within(found) {
        return Ok(None);
    }
    wait_found(alloc, askings, number, i, loads, found, times)
}

/// How long the requests of each device that is named wait at most.
pub(crate) fn waits_of(
    alloc: Global,
    bus: &Bus,
    loads: &[Load],
    found: &[Busy],
    times: &[TaskTimes],
) -> Result<Vec<Option<u64>>, AllocError>
    requires named { AreNamed bus.now }
    requires found { HasFound loads.now found.now (map times_in times.now) }
    requires closed { AllByRecursion (HasClosed (length bus.now.named.items)) (map times_in times.now) }
    ensures { IfOk result (λ waits. waits.items ≡ waits_told bus.now.askings.items loads.now found.now (map times_in times.now) 0 bus.now.named.items) }
{
    let askings = &bus.askings;
    let named = &bus.named;
    let mut waits = Vec::new(alloc);
    for i in 0..named.len() {
        waits.push(wait_of(alloc, askings, named[i].number, i, loads, found, times)?)?;
    }
    Ok(waits)
}
