// The bars of intervals and transfers.
ghost use Rattle.std.specs.Prelude.{◌≡◌, ◌++◌, IfOk, OnOk, string_bytes};
ghost use Rattle.std.specs.List.{flat_map};
ghost use Rattle.prem_cycle.specs.Runs.Transfer.Lengths.{device_cost};
ghost use Rattle.prem_report.specs.Report.{device_name, direction_word, kind_word, task_name};
ghost use Rattle.prem_chart.specs.Places.{IsView};
ghost use Rattle.prem_chart.specs.Bars.{shape_text};
ghost use Rattle.prem_chart.specs.Shapes.{interval_bar, interval_look, interval_shape, interval_shapes, interval_told, transfer_bar, transfer_shape, transfer_shapes, transfer_told};

use crate::bars::push_shape;
use crate::placing::{bar_of, bus_top, is_shown, task_top};
use crate::view::{Bar, Canvas, Look};
use prem_cycle::EndedInterval;
use prem_gate::Transfer;
use prem_image::{DeviceRecord, TaskRecord};
use std::alloc::{AllocError, Global};

/// The name of a task, and nothing where there is no such task.
pub(crate) fn task_name(tasks: &[TaskRecord], k: usize) -> &str
    ensures { result.now ≡ task_name tasks.now k }
{
    match tasks.get(k) {
        Some(task) => task.name.text(),
        None => "",
    }
}

/// The name of a device, and nothing where there is no such device.
pub(crate) fn device_name(devices: &[DeviceRecord], k: usize) -> &str
    ensures { result.now ≡ device_name devices.now k }
{
    match devices.get(k) {
        Some(device) => device.device.name.text(),
        None => "",
    }
}

/// The cycles of a device's transfer, and none where there is no such device.
fn device_cost(devices: &[DeviceRecord], k: usize) -> u32
    ensures { result ≡ device_cost devices.now k }
{
    match devices.get(k) {
        Some(device) => device.device.cost,
        None => 0,
    }
}

/// What a kind of interval looks like.
fn interval_look(predictable: bool) -> Look
    ensures { result ≡ interval_look predictable }
{
    if predictable {
        Look::Predictable
    } else {
        Look::Compatible
    }
}

/// The bar of an interval.
fn interval_bar(sheet: Canvas, ended: &EndedInterval) -> Bar
    requires { IsView sheet.view }
    ensures { result ≡ interval_bar sheet ended.now }
{
    let look = interval_look(ended.predictable);
    let y = task_top(sheet, ended.task) + 170;
    bar_of(sheet.view, look, y, 260, ended.first, ended.length)
}

/// The word for a kind of interval.
fn kind_word(predictable: bool) -> &'static str
    ensures { result.now ≡ kind_word predictable }
{
    if predictable {
        "predictable"
    } else {
        "compatible"
    }
}

/// What is told of an interval, behind the name of its task.
#[tactic(auto, unfolding(crate::specs::Shapes::interval_told))]
fn interval_told(alloc: Global, ended: &EndedInterval) -> Result<String, AllocError>
    ensures { IfOk result (λ s. string_bytes s ≡ interval_told ended.now) }
{
    let kind = kind_word(ended.predictable);
    let (first, length) = (ended.first, ended.length);
    format!(in alloc; ": {kind} interval, {length} cycles from {first}")
}

/// The bar of an interval, with what it tells.
fn push_interval(
    alloc: Global,
    text: &mut Vec<u8>,
    sheet: Canvas,
    tasks: &[TaskRecord],
    ended: &EndedInterval,
) -> Result<(), AllocError>
    requires { IsView sheet.view }
    ensures { OnOk result (text.new.items ≡ text.old.items ++ shape_text (interval_shape sheet tasks.now ended.now)) }
{
    let told = interval_told(alloc, ended)?;
    let owner = task_name(tasks, ended.task as usize);
    push_shape(
        alloc,
        text,
        owner,
        &told,
        &interval_bar(sheet, ended),
        ended.length,
    )
}

/// The bars of the intervals of which a cycle is in the window.
pub fn push_intervals(
    alloc: Global,
    text: &mut Vec<u8>,
    sheet: Canvas,
    tasks: &[TaskRecord],
    intervals: &[EndedInterval],
) -> Result<(), AllocError>
    requires { IsView sheet.view }
    ensures { OnOk result (text.new.items ≡ text.old.items ++ flat_map shape_text (interval_shapes sheet tasks.now intervals.now)) }
{
    'intervals: for interval in intervals {
        if is_shown(sheet.view, interval.first, interval.length) {
            push_interval(alloc, text, sheet, tasks, interval)?;
        }
    }
    Ok(())
}

/// The bar of a transfer of so many cycles.
fn transfer_bar(sheet: Canvas, cost: u32, ended: &Transfer) -> Bar
    requires { IsView sheet.view }
    ensures { result ≡ transfer_bar sheet cost ended.now }
{
    let y = bus_top(sheet) + 100;
    let look = Look::Device(ended.device);
    bar_of(sheet.view, look, y, 260, ended.first, u64::from(cost))
}

/// The word for the direction of a transfer.
fn direction_word(put: Option<u32>) -> &'static str
    ensures { result.now ≡ direction_word put }
{
    match put {
        Some(_) => "put",
        None => "get",
    }
}

/// What is told of a transfer of so many cycles, behind the name of its device.
#[tactic(auto, unfolding(crate::specs::Shapes::transfer_told))]
fn transfer_told(alloc: Global, cost: u32, ended: &Transfer) -> Result<String, AllocError>
    ensures { IfOk result (λ s. string_bytes s ≡ transfer_told cost ended.now) }
{
    let direction = direction_word(ended.request.put);
    let (line, value, first) = (ended.request.line, ended.value, ended.first);
    format!(in alloc; ": {direction} of {value} at line {line}, {cost} cycles from {first}")
}

/// The bar of a transfer, with what it tells.
fn push_transfer(
    alloc: Global,
    text: &mut Vec<u8>,
    sheet: Canvas,
    devices: &[DeviceRecord],
    ended: &Transfer,
) -> Result<(), AllocError>
    requires { IsView sheet.view }
    ensures { OnOk result (text.new.items ≡ text.old.items ++ shape_text (transfer_shape sheet devices.now ended.now)) }
{
    let cost = device_cost(devices, ended.device as usize);
    let told = transfer_told(alloc, cost, ended)?;
    let owner = device_name(devices, ended.device as usize);
    push_shape(
        alloc,
        text,
        owner,
        &told,
        &transfer_bar(sheet, cost, ended),
        u64::from(cost),
    )
}

/// The bars of the transfers of which a cycle is in the window.
pub fn push_transfers(
    alloc: Global,
    text: &mut Vec<u8>,
    sheet: Canvas,
    devices: &[DeviceRecord],
    transfers: &[Transfer],
) -> Result<(), AllocError>
    requires { IsView sheet.view }
    ensures { OnOk result (text.new.items ≡ text.old.items ++ flat_map shape_text (transfer_shapes sheet devices.now transfers.now)) }
{
    'transfers: for transfer in transfers {
        let cost = device_cost(devices, transfer.device as usize);
        if is_shown(sheet.view, transfer.first, u64::from(cost)) {
            push_transfer(alloc, text, sheet, devices, transfer)?;
        }
    }
    Ok(())
}
