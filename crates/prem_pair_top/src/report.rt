// The text that tells of a run of two cores.
ghost use Rattle.std.specs.Prelude.{◌≡◌, ◌+◌, ◌++◌, [], OnOk, IfOk, if◌then◌else◌, string_bytes};
ghost use Rattle.std.specs.List.{flat_map};
ghost use Rattle.prem_cycle.specs.FactsOf.{report_in};
ghost use Rattle.prem_report.specs.Report.{cache_line, counts_text, interval_line, phase_line, transfer_line};
ghost use Rattle.prem_pair_top.specs.Report.{both_counts, core_line, core_text, pair_stop_line, pair_text, stop_in, stop_tasks};

use prem_cycle::{Facts, Stop};
use prem_image::{DeviceRecord, TaskRecord};
use prem_pair::PairStop;
use prem_report::{
    cycles_line, push_devices, push_intervals, push_stop, push_tasks, push_transfers,
};
use std::alloc::{AllocError, Global};

/// What is reported: the tasks of both cores, and the devices of the first.
#[derive(Clone, Copy)]
pub(crate) struct Reported<'a> {
    pub tasks: &'a [TaskRecord],
    pub others: &'a [TaskRecord],
    pub devices: &'a [DeviceRecord],
    /// Whether intervals and transfers are told.
    pub times: bool,
}

/// The line of a core.
fn core_line(alloc: Global, core: u8) -> Result<String, AllocError>
    ensures { IfOk result (λ s. string_bytes s ≡ core_line core) }
{
    format!(in alloc; "core {core}\n")
}

/// The lines of a core's intervals, where they are asked for.
fn push_core_times(
    alloc: Global,
    text: &mut Vec<u8>,
    tasks: &[TaskRecord],
    times: bool,
    facts: &Facts,
) -> Result<(), AllocError>
    ensures { OnOk result (text.new.items ≡ text.old.items ++ (if times then flat_map (interval_line tasks.now) (report_in facts.now).intervals else [])) }
{
    if times {
        push_intervals(alloc, text, tasks, facts.intervals.items())?;
    }
    Ok(())
}

/// The lines of a core: those of its tasks, and of its intervals where they are asked for.
fn push_core(
    alloc: Global,
    text: &mut Vec<u8>,
    core: u8,
    tasks: &[TaskRecord],
    times: bool,
    facts: &Facts,
) -> Result<(), AllocError>
    ensures { OnOk result (text.new.items ≡ text.old.items ++ core_text core tasks.now times (report_in facts.now)) }
{
    text.extend_from_slice(core_line(alloc, core)?.as_bytes())?;
    push_tasks(alloc, text, tasks, facts.tasks.items())?;
    push_core_times(alloc, text, tasks, times, facts)
}

/// The lines of transfers, where they are asked for.
fn push_pair_times(
    alloc: Global,
    text: &mut Vec<u8>,
    devices: &[DeviceRecord],
    times: bool,
    facts: &Facts,
) -> Result<(), AllocError>
    ensures { OnOk result (text.new.items ≡ text.old.items ++ (if times then flat_map (transfer_line devices.now) (report_in facts.now).transfers else [])) }
{
    if times {
        push_transfers(alloc, text, devices, facts.transfers.items())?;
    }
    Ok(())
}

/// A count of both cores.
fn sum(one: u64, other: u64) -> u128
    ensures { result ≡ one + other }
{
    u128::from(one) + u128::from(other)
}

/// The line of what both caches counted.
fn cache_line(alloc: Global, one: &Facts, other: &Facts) -> Result<String, AllocError>
    ensures { IfOk result (λ s. string_bytes s ≡ cache_line (both_counts (report_in one.now).counts (report_in other.now).counts)) }
{
    let hits = sum(one.hits, other.hits);
    let misses = sum(one.misses, other.misses);
    let writebacks = sum(one.writebacks, other.writebacks);
    format!(in alloc; "hits {hits} misses {misses} writebacks {writebacks}\n")
}

/// The line of what was counted in phases of both cores, and on the bus.
fn phase_line(alloc: Global, one: &Facts, other: &Facts) -> Result<String, AllocError>
    ensures { IfOk result (λ s. string_bytes s ≡ phase_line (both_counts (report_in one.now).counts (report_in other.now).counts)) }
{
    let misses = sum(one.exec_misses, other.exec_misses);
    let stores = sum(one.memory_stores, other.memory_stores);
    let clashes = sum(one.clashes, other.clashes);
    let overruns = sum(one.overruns, other.overruns);
    format!(in alloc;
        "execmisses {misses} memstores {stores} clashes {clashes} overruns {overruns}\n"
    )
}

/// The lines of what both cores counted.
fn push_counts(
    alloc: Global,
    text: &mut Vec<u8>,
    cycles: u64,
    one: &Facts,
    other: &Facts,
) -> Result<(), AllocError>
    ensures { OnOk result (text.new.items ≡ text.old.items ++ counts_text cycles (both_counts (report_in one.now).counts (report_in other.now).counts)) }
{
    text.extend_from_slice(cycles_line(alloc, cycles)?.as_bytes())?;
    text.extend_from_slice(cache_line(alloc, one, other)?.as_bytes())?;
    text.extend_from_slice(phase_line(alloc, one, other)?.as_bytes())
}

/// Why the run stopped, as one core's run would tell it.
fn stop_in(stop: PairStop) -> Stop
    ensures { result ≡ stop_in stop }
{
    match stop {
        PairStop::Finished => Stop::Finished,
        PairStop::Trap {
            task,
            pc,
            cause,
            ..
        } => Stop::Trap { task, pc, cause },
        PairStop::LogFull { length, .. } => Stop::LogFull { length },
        PairStop::Limit => Stop::Limit,
    }
}

/// The tasks of which a stop speaks.
fn stop_tasks<'a>(
    tasks: &'a [TaskRecord],
    others: &'a [TaskRecord],
    stop: PairStop,
) -> &'a [TaskRecord]
    ensures { result.now ≡ stop_tasks tasks.entry.now others.entry.now stop }
{
    match stop {
        PairStop::Trap { core, .. } => { if core == 1 { others } else { tasks } }
        PairStop::Finished | PairStop::LogFull { .. } | PairStop::Limit => tasks,
    }
}

/// The line that tells why the run stopped.
fn push_pair_stop(
    alloc: Global,
    text: &mut Vec<u8>,
    reported: &Reported<'_>,
    stop: PairStop,
) -> Result<(), AllocError>
    ensures { OnOk result (text.new.items ≡ text.old.items ++ pair_stop_line reported.now.tasks.now reported.now.others.now stop) }
{
    let tasks = stop_tasks(reported.tasks, reported.others, stop);
    push_stop(alloc, text, tasks, stop_in(stop))
}

/// The text that tells of a run of two cores over so many cycles: the lines of each core, the transfers where they are
/// asked for, what was counted, the devices, and why it stopped.
pub(crate) fn pair_report(
    alloc: Global,
    reported: &Reported<'_>,
    cycles: u64,
    one: &Facts,
    other: &Facts,
    stop: PairStop,
) -> Result<Vec<u8>, AllocError>
    ensures { IfOk result (λ text. text.items ≡ pair_text reported.now.tasks.now reported.now.others.now reported.now.devices.now reported.now.times cycles (report_in one.now) (report_in other.now) stop) }
{
    let mut text = Vec::new(alloc);
    push_core(alloc, &mut text, 0, reported.tasks, reported.times, one)?;
    push_core(alloc, &mut text, 1, reported.others, reported.times, other)?;
    push_pair_times(alloc, &mut text, reported.devices, reported.times, one)?;
    push_counts(alloc, &mut text, cycles, one, other)?;
    push_devices(alloc, &mut text, reported.devices, one)?;
    push_pair_stop(alloc, &mut text, reported, stop)?;
    Ok(text)
}
