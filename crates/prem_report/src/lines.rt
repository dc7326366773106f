// The lines of a report.
ghost use Rattle.std.specs.Prelude.{◌≡◌, ◌++◌, IfOk, OnOk, string_bytes};
ghost use Rattle.prem_cycle.specs.FactsOf.{report_in};
ghost use Rattle.prem_cycle.specs.Runs.Transfer.Lengths.{device_cost};
ghost use Rattle.prem_report.specs.Report.{task_name, device_name, output_line, task_line, kind_word, interval_line, direction_word, transfer_line, transfer_time, transfer_word, cycles_line, cache_line, phase_line, device_line, cause_word, trap_place, trap_cause};

use prem_cycle::{Cause, DeviceFacts, EndedInterval, Facts};
use prem_gate::Transfer;
use prem_image::{DeviceRecord, TaskRecord};
use std::alloc::{AllocError, Global};

/// The name of a task, and nothing where there is no such task.
pub fn task_name(tasks: &[TaskRecord], k: usize) -> &str
    ensures { result.now ≡ task_name tasks.now k }
{
    match tasks.get(k) {
        Some(task) => task.name.text(),
        None => "",
    }
}

/// The name of a device, and nothing where there is no such device.
pub fn device_name(devices: &[DeviceRecord], k: usize) -> &str
    ensures { result.now ≡ device_name devices.now k }
{
    match devices.get(k) {
        Some(device) => device.device.name.text(),
        None => "",
    }
}

/// The cycles of a device's transfer, which each of its transfers in a run takes.
fn device_cost(devices: &[DeviceRecord], k: usize) -> u32
    ensures { result ≡ device_cost devices.now k }
{
    match devices.get(k) {
        Some(device) => device.device.cost,
        None => 0,
    }
}

/// Puts the line of an output word behind a text.
pub fn write_output(text: &mut String, word: u32) -> Result<(), AllocError>
    ensures { OnOk result (string_bytes text.new ≡ string_bytes text.old ++ output_line word) }
{
    write!(text, "out {word}\n")
}

/// The line of a task and its jobs that have ended.
pub fn task_line(alloc: Global, name: &str, ended: u32) -> Result<String, AllocError>
    ensures { IfOk result (λ s. string_bytes s ≡ task_line name.now ended) }
{
    format!(in alloc; "task {name} jobs {ended}\n")
}

/// The word for a kind of interval.
fn kind_word(predictable: bool) -> &'static str
    ensures { result.now ≡ kind_word predictable }
{
    if predictable {
        "predictable"
    } else {
        "compatible"
    }
}

/// Puts the line of an interval that has ended behind a text.
pub fn write_interval(
    text: &mut String,
    tasks: &[TaskRecord],
    ended: &EndedInterval,
) -> Result<(), AllocError>
    ensures { OnOk result (string_bytes text.new ≡ string_bytes text.old ++ interval_line tasks.now ended.now) }
{
    let name = task_name(tasks, ended.task as usize);
    let kind = kind_word(ended.predictable);
    let (first, length) = (ended.first, ended.length);
    write!(text, "interval {name} {kind} {first} {length}\n")
}

/// The word for the direction of a transfer.
fn direction_word(put: Option<u32>) -> &'static str
    ensures { result.now ≡ direction_word put }
{
    match put {
        Some(_) => "put",
        None => "get",
    }
}

/// Puts the device of a transfer, its first cycle and its cycles behind a text.
fn write_transfer_time(
    text: &mut String,
    devices: &[DeviceRecord],
    ended: &Transfer,
) -> Result<(), AllocError>
    ensures { OnOk result (string_bytes text.new ≡ string_bytes text.old ++ transfer_time devices.now ended.now) }
{
    let name = device_name(devices, ended.device as usize);
    let cost = device_cost(devices, ended.device as usize);
    let first = ended.first;
    write!(text, "transfer {name} {first} {cost} ")
}

/// Puts the way a transfer went, its line and its word behind a text.
fn write_transfer_word(text: &mut String, ended: &Transfer) -> Result<(), AllocError>
    ensures { OnOk result (string_bytes text.new ≡ string_bytes text.old ++ transfer_word ended.now) }
{
    let direction = direction_word(ended.request.put);
    let (line, value) = (ended.request.line, ended.value);
    write!(text, "{direction} {line} {value}\n")
}

/// Puts the line of a transfer that has ended behind a text.
pub fn write_transfer(
    text: &mut String,
    devices: &[DeviceRecord],
    ended: &Transfer,
) -> Result<(), AllocError>
    ensures { OnOk result (string_bytes text.new ≡ string_bytes text.old ++ transfer_line devices.now ended.now) }
{
    write_transfer_time(text, devices, ended)?;
    write_transfer_word(text, ended)
}

/// The line of the cycles that have passed.
pub fn cycles_line(alloc: Global, cycles: u64) -> Result<String, AllocError>
    ensures { IfOk result (λ s. string_bytes s ≡ cycles_line cycles) }
{
    format!(in alloc; "cycles {cycles}\n")
}

/// The line of what the cache counted.
pub fn cache_line(alloc: Global, facts: &Facts) -> Result<String, AllocError>
    ensures { IfOk result (λ s. string_bytes s ≡ cache_line (report_in facts.now).counts) }
{
    let (hits, misses, writebacks) = (facts.hits, facts.misses, facts.writebacks);
    format!(in alloc; "hits {hits} misses {misses} writebacks {writebacks}\n")
}

/// The line of what was counted in phases and on the bus.
pub fn phase_line(alloc: Global, facts: &Facts) -> Result<String, AllocError>
    ensures { IfOk result (λ s. string_bytes s ≡ phase_line (report_in facts.now).counts) }
{
    let (misses, stores) = (facts.exec_misses, facts.memory_stores);
    let (clashes, overruns) = (facts.clashes, facts.overruns);
    format!(in alloc;
        "execmisses {misses} memstores {stores} clashes {clashes} overruns {overruns}\n"
    )
}

/// The line of a device.
pub fn device_line(
    alloc: Global,
    name: &str,
    transferred: usize,
    device: &DeviceFacts,
) -> Result<String, AllocError>
    ensures { IfOk result (λ s. string_bytes s ≡ device_line name.now transferred device.now) }
{
    let (dropped, waiting) = (device.dropped, device.waiting);
    format!(in alloc;
        "device {name} transferred {transferred} dropped {dropped} waiting {waiting}\n"
    )
}

/// The word for a cause.
fn cause_word(cause: Cause) -> &'static str
    ensures { result.now ≡ cause_word cause }
{
    match cause {
        Cause::Decode => "decode",
        Cause::Align => "align",
        Cause::Outside => "outside",
        Cause::Ecall => "ecall",
        Cause::Ebreak => "ebreak",
        Cause::Phase => "phase",
    }
}

/// Where a run trapped, up to the digits of the place.
pub fn trap_place(alloc: Global, name: &str) -> Result<String, AllocError>
    ensures { IfOk result (λ s. string_bytes s ≡ trap_place name.now) }
{
    format!(in alloc; "trap {name} 0x")
}

/// Why a run trapped, behind the digits of the place.
pub fn trap_cause(alloc: Global, cause: Cause) -> Result<String, AllocError>
    ensures { IfOk result (λ s. string_bytes s ≡ trap_cause cause) }
{
    let word = cause_word(cause);
    format!(in alloc; " {word}\n")
}
