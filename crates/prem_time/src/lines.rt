// What is written of the times of a set.
ghost use Rattle.std.specs.Prelude.{◌≡◌, [], ◌∷◌, ◌++◌, All, IfOk, OnOk, length, map, string_bytes};
ghost use Rattle.prem_line.specs.Spelled.{ended};
ghost use Rattle.prem_resp.specs.Busy.Busy.{IsLoad};
ghost use Rattle.prem_wcet.specs.TimedOf.{interval_of, times_in};
ghost use Rattle.prem_time.specs.Devices.{all_held, is_held, told_with};
ghost use Rattle.prem_time.specs.Lines.{busy_text, device_line, interval_line, last_line, limit_line, numbers_text, task_line, task_text, tasks_text, wait_text};
ghost use Rattle.prem_time.specs.Told.{AreTold, IsSpan, devices_told, told_by, tolds_told};

use crate::devices::Named;
use prem_image::TaskRecord;
use prem_latency::requests_in;
use prem_plant::Device;
use prem_resp::busy::{Busy, Load, blocking};
use prem_wcet::{IntervalTime, TaskTimes};
use std::alloc::{AllocError, Global};

/// What is told of a busy period behind what blocks the task.
fn busy_text(alloc: Global, busy: Busy) -> Result<String, AllocError>
    ensures { IfOk result (λ s. string_bytes s ≡ busy_text busy) }
{
    match busy {
        Busy::Within { length } => format!(in alloc; " length {length}"),
        Busy::Past => String::from_str(alloc, " past"),
    }
}

/// What is told of a task behind its name.
#[derive(Clone, Copy)]
struct TaskLine {
    bound: u64,
    load: Load,
    blocks: u64,
    busy: Busy,
}

/// What is told of it before its busy period.
#[tactic(auto, unfolding(crate::specs::Lines::numbers_text))]
fn numbers_text(alloc: Global, line: TaskLine) -> Result<String, AllocError>
    ensures { IfOk result (λ s. string_bytes s ≡ numbers_text line.bound line.load.cost line.load.longest line.blocks) }
{
    let (bound, blocks) = (line.bound, line.blocks);
    let (wcet, longest) = (line.load.cost, line.load.longest);
    format!(in alloc; " bound {bound} wcet {wcet} longest {longest} blocks {blocks}")
}

/// The line of a task.
fn push_line(
    alloc: Global,
    text: &mut Vec<u8>,
    name: &str,
    line: TaskLine,
) -> Result<(), AllocError>
    ensures { OnOk result (text.new.items ≡ text.old.items ++ (task_line name.now line.bound line.load.cost line.load.longest line.blocks line.busy ++ 10 ∷ [])) }
{
    text.extend_from_slice(b"task ")?;
    text.extend_from_slice(name.as_bytes())?;
    text.extend_from_slice(numbers_text(alloc, line)?.as_bytes())?;
    text.extend_from_slice(busy_text(alloc, line.busy)?.as_bytes())?;
    text.extend_from_slice(b"\n")
}

/// The line of a marked function.
fn push_interval(
    alloc: Global,
    text: &mut Vec<u8>,
    interval: &IntervalTime,
) -> Result<(), AllocError>
    ensures { OnOk result (text.new.items ≡ text.old.items ++ (interval_line (interval_of interval.now) ++ 10 ∷ [])) }
{
    let (stated, opens) = (interval.stated, interval.opens);
    text.extend_from_slice(b"interval ")?;
    text.extend_from_slice(interval.name.bytes())?;
    text.extend_from_slice(format!(in alloc; " stated {stated} opens {opens}\n")?.as_bytes())
}

/// The lines of marked functions.
fn push_intervals(
    alloc: Global,
    text: &mut Vec<u8>,
    intervals: &[IntervalTime],
) -> Result<(), AllocError>
    ensures { OnOk result (text.new.items ≡ text.old.items ++ ended (map interval_line (map interval_of intervals.now))) }
{
    for interval in intervals {
        push_interval(alloc, text, interval)?;
    }
    Ok(())
}

/// The line of a task, and those of its marked functions.
fn push_task(
    alloc: Global,
    text: &mut Vec<u8>,
    task: &TaskRecord,
    times: &TaskTimes,
    line: TaskLine,
) -> Result<(), AllocError>
    ensures { OnOk result (text.new.items ≡ text.old.items ++ task_text (told_by task.now line.bound (times_in times.now)) line.load line.blocks line.busy) }
{
    push_line(alloc, text, task.name.text(), line)?;
    push_intervals(alloc, text, times.intervals.items())
}

/// The lines of all tasks.
fn push_tasks(
    alloc: Global,
    text: &mut Vec<u8>,
    tasks: &[TaskRecord],
    bounds: &[u64],
    times: &[TaskTimes],
    loads: &[Load],
    found: &[Busy],
) -> Result<(), AllocError>
    requires checked { All IsLoad loads.now }
    requires bounds { length bounds.now ≡ length tasks.now }
    requires times { length times.now ≡ length tasks.now }
    requires loads { length loads.now ≡ length tasks.now }
    requires found { length found.now ≡ length tasks.now }
    ensures { OnOk result (text.new.items ≡ text.old.items ++ tasks_text loads.now 0 (tolds_told tasks.now bounds.now (map times_in times.now)) found.now) }
{
    for i in 0..tasks.len() {
        let line = TaskLine {
            bound: bounds[i],
            load: loads[i],
            blocks: blocking(loads, i),
            busy: found[i],
        };
        push_task(alloc, text, &tasks[i], &times[i], line)?;
    }
    Ok(())
}

/// The line of the cycle by which all jobs have ended.
fn push_limit(alloc: Global, text: &mut Vec<u8>, limit: u64) -> Result<(), AllocError>
    ensures { OnOk result (text.new.items ≡ text.old.items ++ ended (limit_line limit ∷ [])) }
{
    text.extend_from_slice(format!(in alloc; "limit {limit}\n")?.as_bytes())
}

/// The last line.
fn last_line(fits: bool) -> &'static str
    ensures { result.now ≡ ended (last_line fits ∷ []) }
{
    if fits { "fits\n" } else { "late\n" }
}

/// Each task with the rule's bound of its jobs, what they take at most, its longest stretch or interval, what blocks them, its busy
/// period and its marked functions.
pub(crate) fn tasks_text(
    alloc: Global,
    tasks: &[TaskRecord],
    bounds: &[u64],
    times: &[TaskTimes],
    loads: &[Load],
    found: &[Busy],
) -> Result<Vec<u8>, AllocError>
    requires checked { All IsLoad loads.now }
    requires bounds { length bounds.now ≡ length tasks.now }
    requires times { length times.now ≡ length tasks.now }
    requires loads { length loads.now ≡ length tasks.now }
    requires found { length found.now ≡ length tasks.now }
    ensures { IfOk result (λ text. text.items ≡ tasks_text loads.now 0 (tolds_told tasks.now bounds.now (map times_in times.now)) found.now) }
{
    let mut text = Vec::new(alloc);
    push_tasks(alloc, &mut text, tasks, bounds, times, loads, found)?;
    Ok(text)
}

/// How long the requests of a device wait, and how many come in as many cycles.
#[tactic(auto, unfolding(crate::specs::Lines::wait_text))]
fn wait_text(alloc: Global, every: u64, queue: u32, wait: Option<u64>) -> Result<String, AllocError>
    requires { IsSpan every wait }
    ensures { IfOk result (λ s. string_bytes s ≡ wait_text every queue wait) }
{
    match wait {
        Some(wait) => {
            let queued = requests_in(every, wait);
            format!(in alloc; " wait {wait} queued {queued} of {queue}")
        }
        None => String::from_str(alloc, " late"),
    }
}

/// The line of a device that is named.
fn push_device(
    alloc: Global,
    text: &mut Vec<u8>,
    device: &Device,
    every: u64,
    wait: Option<u64>,
) -> Result<(), AllocError>
    requires { IsSpan every wait }
    ensures { OnOk result (text.new.items ≡ text.old.items ++ (device_line (told_with device.now every wait) ++ 10 ∷ [])) }
{
    let cost = device.cost;
    text.extend_from_slice(b"device ")?;
    text.extend_from_slice(device.name.text().as_bytes())?;
    text.extend_from_slice(format!(in alloc; " cost {cost} every {every}")?.as_bytes())?;
    text.extend_from_slice(wait_text(alloc, every, device.queue, wait)?.as_bytes())?;
    text.extend_from_slice(b"\n")
}

/// The lines of all devices that are named.
pub(crate) fn push_devices(
    alloc: Global,
    text: &mut Vec<u8>,
    devices: &[Device],
    named: &[Named],
    waits: &[Option<u64>],
) -> Result<(), AllocError>
    requires { AreTold devices.now named.now waits.now }
    ensures { OnOk result (text.new.items ≡ text.old.items ++ ended (map device_line (devices_told devices.now named.now waits.now))) }
{
    for i in 0..named.len() {
        push_device(
            alloc,
            text,
            &devices[named[i].number],
            named[i].every,
            waits[i],
        )?;
    }
    Ok(())
}

/// Whether there is a wait, and the queue holds as many requests as come in it.
pub(crate) fn is_held(every: u64, queue: u32, wait: Option<u64>) -> bool
    requires { IsSpan every wait }
    ensures { result ≡ is_held every queue wait }
{
    match wait {
        Some(wait) => requests_in(every, wait) <= u64::from(queue),
        None => false,
    }
}

/// Whether this is so of each device that is named.
pub(crate) fn all_held(devices: &[Device], named: &[Named], waits: &[Option<u64>]) -> bool
    requires { AreTold devices.now named.now waits.now }
    ensures { result ≡ all_held (devices_told devices.now named.now waits.now) }
{
    for i in 0..named.len() {
        if !is_held(named[i].every, devices[named[i].number].queue, waits[i]) {
            return false;
        }
    }
    true
}

/// The cycle by which all jobs have ended, and last whether all is in time.
pub(crate) fn push_end(
    alloc: Global,
    text: &mut Vec<u8>,
    limit: u64,
    fits: bool,
) -> Result<(), AllocError>
    ensures { OnOk result (text.new.items ≡ (text.old.items ++ ended (limit_line limit ∷ [])) ++ ended (last_line fits ∷ [])) }
{
    push_limit(alloc, text, limit)?;
    text.extend_from_slice(last_line(fits).as_bytes())
}
