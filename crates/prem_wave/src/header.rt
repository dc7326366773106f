// The declarations of a dump.
ghost use Rattle.std.specs.Prelude.{◌≡◌, ◌+◌, ◌*◌, ◌≤◌, ◌^◌, ◌++◌, IfOk, OnOk, length, string_bytes};
ghost use Rattle.prem_wave.specs.Header.{bus_text, core_text, device_text, devices_text, header_end, header_text, is_in_name, line_end, name_byte, name_text, preamble, scope_end, scope_start, scope_text, task_text, tasks_text, variable_text};
ghost use Rattle.prem_wave.specs.Names.{device_names, task_names};

use prem_image::{DeviceRecord, TaskRecord};
use std::alloc::{AllocError, Global};

/// Whether names of a dump have this byte: a letter, a digit or `_`.
fn is_in_name(byte: u8) -> bool
    ensures { result ≡ is_in_name byte }
{
    (97 <= byte && byte <= 122)
        || (65 <= byte && byte <= 90)
        || (48 <= byte && byte <= 57)
        || byte == 95
}

/// Puts a byte of a name behind a text.
fn push_name_byte(text: &mut Vec<u8>, byte: u8) -> Result<(), AllocError>
    ensures { OnOk result (text.new.items ≡ text.old.items ++ name_byte byte) }
{
    if is_in_name(byte) {
        text.extend_from_slice(&[byte])
    } else {
        text.extend_from_slice(b"_")
    }
}

/// Puts a name behind a text, as names of a dump are.
fn push_name(text: &mut Vec<u8>, name: &[u8]) -> Result<(), AllocError>
    ensures { OnOk result (text.new.items ≡ text.old.items ++ name_text name.now) }
{
    'bytes: for byte in name {
        push_name_byte(text, *byte)?;
    }
    Ok(())
}

/// Puts the first words of the line of a part behind a text.
#[tactic(auto, unfolding(crate::specs::Header::scope_start))]
fn push_scope_start(text: &mut Vec<u8>) -> Result<(), AllocError>
    ensures { OnOk result (text.new.items ≡ text.old.items ++ scope_start) }
{
    text.extend_from_slice(b"$scope module ")
}

/// Puts the end of a line behind a text.
#[tactic(auto, unfolding(crate::specs::Header::line_end))]
fn push_line_end(text: &mut Vec<u8>) -> Result<(), AllocError>
    ensures { OnOk result (text.new.items ≡ text.old.items ++ line_end) }
{
    text.extend_from_slice(b" $end\n")
}

/// Puts the beginning of a part of this kind and name behind a text.
#[tactic(auto, unfolding(crate::specs::Header::scope_text))]
fn push_scope(text: &mut Vec<u8>, kind: &str, name: &str) -> Result<(), AllocError>
    ensures { OnOk result (text.new.items ≡ text.old.items ++ scope_text kind.now name.now) }
{
    push_scope_start(text)?;
    text.extend_from_slice(kind.as_bytes())?;
    push_name(text, name.as_bytes())?;
    push_line_end(text)
}

/// The line of a signal.
#[tactic(auto, unfolding(crate::specs::Header::variable_text))]
fn variable(alloc: Global, bits: u32, signal: usize, name: &str) -> Result<String, AllocError>
    ensures { IfOk result (λ s. string_bytes s ≡ variable_text bits signal name.now) }
{
    format!(in alloc; "$var wire {bits} {signal} {name} $end\n")
}

/// Puts the line of a signal behind a text.
fn push_variable(
    alloc: Global,
    text: &mut Vec<u8>,
    bits: u32,
    signal: usize,
    name: &str,
) -> Result<(), AllocError>
    ensures { OnOk result (text.new.items ≡ text.old.items ++ variable_text bits signal name.now) }
{
    text.extend_from_slice(variable(alloc, bits, signal, name)?.as_bytes())
}

/// Puts the end of a part behind a text.
#[tactic(auto, unfolding(crate::specs::Header::scope_end))]
fn push_scope_end(text: &mut Vec<u8>) -> Result<(), AllocError>
    ensures { OnOk result (text.new.items ≡ text.old.items ++ scope_end) }
{
    text.extend_from_slice(b"$upscope $end\n")
}

/// Puts what stands before all parts behind a text.
#[tactic(auto, unfolding(crate::specs::Header::preamble))]
fn push_preamble(text: &mut Vec<u8>) -> Result<(), AllocError>
    ensures { OnOk result (text.new.items ≡ text.old.items ++ preamble) }
{
    text.extend_from_slice(
        b"$comment Words are bytes: show them as ASCII. $end\n$version prem_wave $end\n$timescale 1 ns $end\n",
    )
}

/// Puts the end of the declarations behind a text.
#[tactic(auto, unfolding(crate::specs::Header::header_end))]
fn push_header_end(text: &mut Vec<u8>) -> Result<(), AllocError>
    ensures { OnOk result (text.new.items ≡ text.old.items ++ header_end) }
{
    text.extend_from_slice(b"$enddefinitions $end\n")
}

/// Puts the declarations of the core's signals behind a text.
#[tactic(auto, unfolding(crate::specs::Header::core_text))]
fn push_core(alloc: Global, text: &mut Vec<u8>) -> Result<(), AllocError>
    ensures { OnOk result (text.new.items ≡ text.old.items ++ core_text) }
{
    push_scope(text, "core", "")?;
    push_variable(alloc, text, 64, 0, "task")?;
    push_variable(alloc, text, 1, 1, "window")?;
    push_scope_end(text)
}

/// Puts the declarations of a task's signals behind a text.
#[tactic(auto, unfolding(crate::specs::Header::task_text))]
fn push_task(alloc: Global, text: &mut Vec<u8>, first: usize, name: &str) -> Result<(), AllocError>
    requires { first ≤ 2 ^ 32 }
    ensures { OnOk result (text.new.items ≡ text.old.items ++ task_text first name.now) }
{
    push_scope(text, "task_", name)?;
    push_variable(alloc, text, 64, first, "state")?;
    push_variable(alloc, text, 64, first + 1, "job")?;
    push_variable(alloc, text, 64, first + 2, "call")?;
    push_scope_end(text)
}

/// Puts the declarations of all tasks' signals behind a text.
fn push_tasks(
    alloc: Global,
    text: &mut Vec<u8>,
    first: usize,
    tasks: &[TaskRecord],
) -> Result<(), AllocError>
    requires first { first ≤ 2 ^ 16 }
    requires count { length tasks.now ≤ 65535 }
    ensures { OnOk result (text.new.items ≡ text.old.items ++ tasks_text first (task_names tasks.now)) }
{
    let mut signal = first;
    'tasks: for task in tasks {
        push_task(alloc, text, signal, task.name.text())?;
        signal += 3;
    }
    Ok(())
}

/// Puts the declarations of the signals of the bus and of the cache behind a text.
#[tactic(auto, unfolding(crate::specs::Header::bus_text))]
fn push_bus(alloc: Global, text: &mut Vec<u8>, first: usize) -> Result<(), AllocError>
    requires { first ≤ 2 ^ 32 }
    ensures { OnOk result (text.new.items ≡ text.old.items ++ bus_text first) }
{
    push_scope(text, "bus", "")?;
    push_variable(alloc, text, 64, first, "holder")?;
    push_variable(alloc, text, 1, first + 1, "miss")?;
    push_variable(alloc, text, 1, first + 2, "back")?;
    push_scope_end(text)
}

/// Puts the declarations of a device's signals behind a text.
#[tactic(auto, unfolding(crate::specs::Header::device_text))]
fn push_device(
    alloc: Global,
    text: &mut Vec<u8>,
    first: usize,
    name: &str,
) -> Result<(), AllocError>
    requires { first ≤ 2 ^ 32 }
    ensures { OnOk result (text.new.items ≡ text.old.items ++ device_text first name.now) }
{
    push_scope(text, "device_", name)?;
    push_variable(alloc, text, 64, first, "queue")?;
    push_variable(alloc, text, 64, first + 1, "line")?;
    push_variable(alloc, text, 64, first + 2, "transfer")?;
    push_scope_end(text)
}

/// Puts the declarations of all devices' signals behind a text.
fn push_devices(
    alloc: Global,
    text: &mut Vec<u8>,
    first: usize,
    devices: &[DeviceRecord],
) -> Result<(), AllocError>
    requires first { first ≤ 2 ^ 20 }
    requires count { length devices.now ≤ 65535 }
    ensures { OnOk result (text.new.items ≡ text.old.items ++ devices_text first (device_names devices.now)) }
{
    let mut signal = first;
    'devices: for device in devices {
        push_device(alloc, text, signal, device.device.name.text())?;
        signal += 3;
    }
    Ok(())
}

/// The declarations of the signals of these tasks and devices. It fails only for want of memory.
pub fn declarations(
    alloc: Global,
    tasks: &[TaskRecord],
    devices: &[DeviceRecord],
) -> Result<Vec<u8>, AllocError>
    requires tasks { length tasks.now ≤ 65535 }
    requires devices { length devices.now ≤ 65535 }
    ensures { IfOk result (λ text. text.items ≡ header_text (task_names tasks.now) (device_names devices.now)) }
{
    let mut text = Vec::new(alloc);
    let bus = 2 + 3 * tasks.len();
    push_preamble(&mut text)?;
    push_core(alloc, &mut text)?;
    push_tasks(alloc, &mut text, 2, tasks)?;
    push_bus(alloc, &mut text, bus)?;
    push_devices(alloc, &mut text, bus + 3, devices)?;
    push_header_end(&mut text)?;
    Ok(text)
}
