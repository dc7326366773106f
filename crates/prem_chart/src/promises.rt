// The rows of devices that are promised to be served in time: one bar for each request, up to its last moment.
ghost use Rattle.std.specs.Prelude.{◌≡◌, ◌++◌, [], IfOk, OnOk, length, slice_get, string_bytes};
ghost use Rattle.std.specs.Option.{option_map_or};
ghost use Rattle.prem_chart.specs.Places.{IsView};
ghost use Rattle.prem_chart.specs.Promises.{all_promises, apart_text, has_come, level_of, next_level, promise_label, promise_name, promise_row, request_bar, request_shown, request_told, requests_from, row_text, served_told, within_text};

use crate::bars::push_owner;
use crate::phases::push_shown;
use crate::placing::{bar_of, promise_top};
use crate::rows::{base_text, name_start};
use crate::shapes::device_name;
use crate::text::push_escaped;
use crate::view::{Bar, Canvas, Look};
use prem_gate::Request;
use prem_image::DeviceRecord;
use prem_time::Promise;
use std::alloc::{AllocError, Global};

/// What is told of the row of a device, behind its name.
#[tactic(auto, unfolding(crate::specs::Promises::served_told))]
fn served_told(alloc: Global, every: u64, wait: Option<u64>) -> Result<String, AllocError>
    ensures { IfOk result (λ s. string_bytes s ≡ served_told every wait) }
{
    match wait {
        Some(wait) => format!(in alloc;
            ": requests at least {every} cycles apart, transferred within {wait} cycles</title>"
        ),
        None => format!(in alloc; ": requests at least {every} cycles apart, late</title>"),
    }
}

/// How far apart requests are at least, behind the name of a row.
#[tactic(auto, unfolding(crate::specs::Promises::apart_text))]
fn apart_text(alloc: Global, y: u32, every: u64) -> Result<String, AllocError>
    ensures { IfOk result (λ s. string_bytes s ≡ apart_text y every) }
{
    format!(in alloc; "</text><text class=\"every\" x=\"1250\" y=\"{y}\">every {every}</text>")
}

/// How long they wait at most, below that.
#[tactic(auto, unfolding(crate::specs::Promises::within_text))]
fn within_text(alloc: Global, y: u32, wait: Option<u64>) -> Result<String, AllocError>
    ensures { IfOk result (λ s. string_bytes s ≡ within_text y wait) }
{
    match wait {
        Some(wait) => format!(in alloc;
            "<text class=\"every\" x=\"1250\" y=\"{y}\">within {wait}</text></g>\n"
        ),
        None => format!(in alloc; "<text class=\"every\" x=\"1250\" y=\"{y}\">late</text></g>\n"),
    }
}

/// The name of the row of the device with this name, behind its title.
fn push_promise_name(
    alloc: Global,
    text: &mut Vec<u8>,
    sheet: Canvas,
    row: u16,
    device: &str,
    promise: Promise,
) -> Result<(), AllocError>
    ensures { OnOk result (text.new.items ≡ text.old.items ++ promise_name sheet row device.now promise) }
{
    let top = promise_top(sheet, row);
    text.extend_from_slice(name_start(alloc, top + 170)?.as_bytes())?;
    push_escaped(text, device.as_bytes())?;
    text.extend_from_slice(apart_text(alloc, top + 290, promise.every)?.as_bytes())?;
    text.extend_from_slice(within_text(alloc, top + 410, promise.wait)?.as_bytes())?;
    text.extend_from_slice(base_text(alloc, top + 430)?.as_bytes())
}

/// The name of the row of a device.
fn push_promise_label(
    alloc: Global,
    text: &mut Vec<u8>,
    sheet: Canvas,
    devices: &[DeviceRecord],
    row: u16,
    promise: Promise,
) -> Result<(), AllocError>
    ensures { OnOk result (text.new.items ≡ text.old.items ++ promise_label sheet devices.now row promise) }
{
    let device = device_name(devices, promise.device);
    push_owner(text, device)?;
    text.extend_from_slice(served_told(alloc, promise.every, promise.wait)?.as_bytes())?;
    push_promise_name(alloc, text, sheet, row, device, promise)
}

/// What is told of a request, behind the name of its device.
#[tactic(auto, unfolding(crate::specs::Promises::request_told))]
fn request_told(alloc: Global, line: u32, wait: u64, cycle: u64) -> Result<String, AllocError>
    ensures { IfOk result (λ s. string_bytes s ≡ request_told line wait cycle) }
{
    format!(in alloc; ": request for line {line}, transferred within {wait} cycles from {cycle}")
}

/// The bar of a request, from the cycle in which it comes to its last moment.
fn request_bar(sheet: Canvas, row: u16, level: u8, wait: u64, request: &Request) -> Bar
    requires { IsView sheet.view }
    ensures { result ≡ request_bar sheet row level wait request.now }
{
    let y = promise_top(sheet, row) + 60 + 60 * u32::from(level);
    let look = Look::Device(request.device);
    bar_of(sheet.view, look, y, 50, request.cycle, wait)
}

/// The bar of a request, with what it tells, where one of its cycles is in the window.
fn push_request(
    alloc: Global,
    text: &mut Vec<u8>,
    sheet: Canvas,
    devices: &[DeviceRecord],
    row: u16,
    level: u8,
    wait: u64,
    request: &Request,
) -> Result<(), AllocError>
    requires { IsView sheet.view }
    ensures { OnOk result (text.new.items ≡ text.old.items ++ request_shown sheet devices.now row wait level request.now) }
{
    let bar = request_bar(sheet, row, level, wait, request);
    let told = request_told(alloc, request.line, wait, request.cycle)?;
    let owner = device_name(devices, request.device as usize);
    push_shown(alloc, text, sheet, request.cycle, wait, owner, &told, &bar)
}

/// Whether a request is one of this device, and has come in a run of so many cycles.
fn has_come(device: usize, cycles: u64, request: &Request) -> bool
    ensures { result ≡ has_come device cycles request.now }
{
    usize::from(request.device) == device && request.cycle < cycles
}

/// The height of the next bar: six follow each other.
fn next_level(level: u8) -> u8
    ensures { result ≡ next_level level }
{
    if level < 5 { level + 1 } else { 0 }
}

/// The height of the bar of a request in this cycle, behind one of a height that ends before the cycle `behind`.
fn level_of(behind: u128, level: u8, cycle: u64) -> u8
    ensures { result ≡ level_of behind level cycle }
{
    if u128::from(cycle) < behind {
        next_level(level)
    } else {
        0
    }
}

/// The bars of the requests of a device that wait for so many cycles at most.
fn push_requests(
    alloc: Global,
    text: &mut Vec<u8>,
    sheet: Canvas,
    devices: &[DeviceRecord],
    requests: &[Request],
    cycles: u64,
    row: u16,
    device: usize,
    wait: u64,
) -> Result<(), AllocError>
    requires { IsView sheet.view }
    ensures { OnOk result (text.new.items ≡ text.old.items ++ requests_from sheet devices.now cycles row device wait 0 0 requests.now) }
{
    let mut behind = 0u128;
    let mut level = 0u8;
    'requests: for request in requests {
        if has_come(device, cycles, request) {
            level = level_of(behind, level, request.cycle);
            push_request(alloc, text, sheet, devices, row, level, wait, request)?;
            behind = u128::from(request.cycle) + u128::from(wait);
        }
    }
    Ok(())
}

/// What is in the row of a device: nothing where nothing is promised to it.
fn push_row(
    alloc: Global,
    text: &mut Vec<u8>,
    sheet: Canvas,
    devices: &[DeviceRecord],
    requests: &[Request],
    cycles: u64,
    row: u16,
    promise: Promise,
) -> Result<(), AllocError>
    requires { IsView sheet.view }
    ensures { OnOk result (text.new.items ≡ text.old.items ++ row_text sheet devices.now requests.now cycles row promise.device promise.wait) }
{
    match promise.wait {
        Some(wait) => push_requests(
            alloc,
            text,
            sheet,
            devices,
            requests,
            cycles,
            row,
            promise.device,
            wait,
        ),
        None => Ok(()),
    }
}

/// The row of a device, with its name.
fn push_promise(
    alloc: Global,
    text: &mut Vec<u8>,
    sheet: Canvas,
    devices: &[DeviceRecord],
    requests: &[Request],
    cycles: u64,
    row: u16,
    promise: Promise,
) -> Result<(), AllocError>
    requires { IsView sheet.view }
    ensures { OnOk result (text.new.items ≡ text.old.items ++ promise_row sheet devices.now requests.now cycles row promise) }
{
    push_promise_label(alloc, text, sheet, devices, row, promise)?;
    push_row(alloc, text, sheet, devices, requests, cycles, row, promise)
}

/// The row of the device with this place among those that are named, where there is one.
fn push_promise_at(
    alloc: Global,
    text: &mut Vec<u8>,
    sheet: Canvas,
    devices: &[DeviceRecord],
    requests: &[Request],
    cycles: u64,
    promises: &[Promise],
    row: u16,
) -> Result<(), AllocError>
    requires { IsView sheet.view }
    ensures { OnOk result (text.new.items ≡ text.old.items ++ option_map_or (promise_row sheet devices.now requests.now cycles row) (slice_get promises.now row) []) }
{
    match promises.get(row as usize) {
        Some(promise) => push_promise(alloc, text, sheet, devices, requests, cycles, row, *promise),
        None => Ok(()),
    }
}

/// The rows of so many devices, which are all that are named.
#[tactic(auto, unfolding(crate::specs::Promises::all_promises))]
pub(crate) fn push_promises(
    alloc: Global,
    text: &mut Vec<u8>,
    sheet: Canvas,
    devices: &[DeviceRecord],
    requests: &[Request],
    cycles: u64,
    promises: &[Promise],
    count: u16,
) -> Result<(), AllocError>
    requires view { IsView sheet.view }
    requires count { length promises.now ≡ count }
    ensures { OnOk result (text.new.items ≡ text.old.items ++ all_promises sheet devices.now requests.now cycles promises.now) }
{
    'rows: for row in 0..count {
        push_promise_at(alloc, text, sheet, devices, requests, cycles, promises, row)?;
    }
    Ok(())
}
