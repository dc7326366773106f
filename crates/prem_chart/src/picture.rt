// The whole picture.
ghost use Rattle.std.specs.Prelude.{◌≡◌, ◌≤◌, ◌++◌, IfOk, OnOk, length};
ghost use Rattle.prem_cycle.specs.FactsOf.{report_in};
ghost use Rattle.prem_chart.specs.Places.{IsView};
ghost use Rattle.prem_chart.specs.Xml.{IsWellFormed};
ghost use Rattle.prem_chart.specs.Picture.{chart_text, counts_text, end_text, frame_text, head_text, rows_text, stop_word};

use crate::axis::push_axis;
use crate::head::{
    bus_text, cache_text, phase_text, push_ground, push_keys, push_title, time_text,
};
use crate::note::Note;
use crate::phases::{push_misses, push_windows};
use crate::promises::push_promises;
use crate::rows::{push_device_keys, push_labels, push_releases};
use crate::shapes::{push_intervals, push_transfers};
use crate::view::{Canvas, View};
use prem_cycle::{Facts, Stop};
use prem_gate::Request;
use prem_image::{DeviceRecord, TaskRecord};
use prem_time::Promise;
use std::alloc::{AllocError, Global};

/// The word for why a run stopped.
fn stop_word(stop: Stop) -> &'static str
    ensures { result.now ≡ stop_word stop }
{
    match stop {
        Stop::Finished => "finished",
        Stop::Limit => "stopped",
        Stop::LogFull { .. } => "full",
        Stop::Trap { .. } => "trapped",
    }
}

/// What was counted over so many cycles.
fn push_counts(
    alloc: Global,
    text: &mut Vec<u8>,
    cycles: u64,
    stop: Stop,
    facts: &Facts,
) -> Result<(), AllocError>
    ensures { OnOk result (text.new.items ≡ text.old.items ++ counts_text cycles stop (report_in facts.now).counts) }
{
    text.extend_from_slice(time_text(alloc, cycles)?.as_bytes())?;
    text.extend_from_slice(stop_word(stop).as_bytes())?;
    text.extend_from_slice(cache_text(alloc, facts.hits, facts.misses)?.as_bytes())?;
    text.extend_from_slice(phase_text(alloc, facts.exec_misses, facts.writebacks)?.as_bytes())?;
    text.extend_from_slice(bus_text(alloc, facts.clashes)?.as_bytes())
}

/// The head of a picture.
#[tactic(auto, unfolding(crate::specs::Picture::head_text))]
fn push_head(
    alloc: Global,
    text: &mut Vec<u8>,
    sheet: Canvas,
    set: &str,
    devices: &[DeviceRecord],
    facts: &Facts,
    cycles: u64,
    stop: Stop,
) -> Result<(), AllocError>
    requires { length devices.now ≡ sheet.devices }
    ensures { OnOk result (text.new.items ≡ text.old.items ++ head_text sheet set.now devices.now (report_in facts.now) cycles stop) }
{
    push_ground(alloc, text, sheet)?;
    push_title(text, set)?;
    push_counts(alloc, text, cycles, stop, facts)?;
    push_keys(text)?;
    push_device_keys(alloc, text, devices, sheet.devices)
}

/// What is behind the bars: the axis, and the names of the rows.
#[tactic(auto, unfolding(crate::specs::Picture::frame_text))]
fn push_frame(
    alloc: Global,
    text: &mut Vec<u8>,
    sheet: Canvas,
    tasks: &[TaskRecord],
) -> Result<(), AllocError>
    requires view { IsView sheet.view }
    requires tasks { length tasks.now ≡ sheet.tasks }
    ensures { OnOk result (text.new.items ≡ text.old.items ++ frame_text sheet tasks.now) }
{
    push_axis(alloc, text, sheet)?;
    push_labels(alloc, text, sheet, tasks, sheet.tasks)
}

/// What is in the rows: intervals, phases, idle time, transfers and misses.
#[tactic(auto, unfolding(crate::specs::Picture::rows_text))]
fn push_rows(
    alloc: Global,
    text: &mut Vec<u8>,
    sheet: Canvas,
    tasks: &[TaskRecord],
    devices: &[DeviceRecord],
    facts: &Facts,
    notes: &[Note],
) -> Result<(), AllocError>
    requires { IsView sheet.view }
    ensures { OnOk result (text.new.items ≡ text.old.items ++ rows_text sheet tasks.now devices.now (report_in facts.now) notes.now) }
{
    push_intervals(alloc, text, sheet, tasks, facts.intervals.items())?;
    push_windows(alloc, text, sheet, tasks, notes)?;
    push_transfers(alloc, text, sheet, devices, facts.transfers.items())?;
    push_misses(alloc, text, sheet, tasks, notes)
}

/// The end of a picture.
#[tactic(auto, unfolding(crate::specs::Picture::end_text))]
fn push_end(text: &mut Vec<u8>) -> Result<(), AllocError>
    ensures { OnOk result (text.new.items ≡ text.old.items ++ end_text) }
{
    text.extend_from_slice(b"</svg>\n")
}

/// The picture of a run, part by part.
fn drawn(
    alloc: Global,
    view: View,
    set: &str,
    tasks: &[TaskRecord],
    devices: &[DeviceRecord],
    facts: &Facts,
    cycles: u64,
    stop: Stop,
    notes: &[Note],
    requests: &[Request],
    promises: &[Promise],
) -> Result<Vec<u8>, AllocError>
    requires view { IsView view }
    requires tasks { length tasks.now ≤ 65535 }
    requires devices { length devices.now ≤ 65535 }
    requires promises { length promises.now ≤ 65535 }
    ensures { IfOk result (λ text. text.items ≡ chart_text view set.now tasks.now devices.now (report_in facts.now) cycles stop notes.now requests.now promises.now) }
{
    let sheet = Canvas {
        view,
        tasks: tasks.len() as u16,
        devices: devices.len() as u16,
        promised: promises.len() as u16,
    };
    let mut text = Vec::new(alloc);
    push_head(alloc, &mut text, sheet, set, devices, facts, cycles, stop)?;
    push_frame(alloc, &mut text, sheet, tasks)?;
    push_rows(alloc, &mut text, sheet, tasks, devices, facts, notes)?;
    push_releases(alloc, &mut text, sheet, tasks, sheet.tasks)?;
    push_promises(
        alloc,
        &mut text,
        sheet,
        devices,
        requests,
        cycles,
        promises,
        sheet.promised,
    )?;
    push_end(&mut text)?;
    Ok(text)
}

/// The picture of a run of the set of this name, which took so many cycles: the text of an SVG file. It fails only for want of memory.
///
/// It has one bar for each ended interval and each transfer of which a cycle is in the window, from the place of its first cycle there to
/// that of the cycle behind its last one there, and no other ones. Below them each promise has a row, in which each request of its device
/// that has come has such a bar, from its own cycle to its last moment, where there is one. It is well-formed XML, whatever the names are.
pub fn chart(
    alloc: Global,
    view: View,
    set: &str,
    tasks: &[TaskRecord],
    devices: &[DeviceRecord],
    facts: &Facts,
    cycles: u64,
    stop: Stop,
    notes: &[Note],
    requests: &[Request],
    promises: &[Promise],
) -> Result<Vec<u8>, AllocError>
    requires view { IsView view }
    requires tasks { length tasks.now ≤ 65535 }
    requires devices { length devices.now ≤ 65535 }
    requires promises { length promises.now ≤ 65535 }
    ensures picture { IfOk result (λ text. text.items ≡ chart_text view set.now tasks.now devices.now (report_in facts.now) cycles stop notes.now requests.now promises.now) }
    ensures well_formed { IfOk result (λ text. IsWellFormed text.items) }
{
    let text = drawn(
        alloc, view, set, tasks, devices, facts, cycles, stop, notes, requests, promises,
    )?;
    Ok(text)
}
