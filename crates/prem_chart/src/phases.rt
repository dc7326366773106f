// What a picture shows of notes: execution phases, idle time, when the bus is open to devices, and cache misses.
ghost use Rattle.std.specs.Prelude.{◌≡◌, ◌++◌, IfOk, OnOk, string_bytes};
ghost use Rattle.prem_chart.specs.Places.{IsView};
ghost use Rattle.prem_chart.specs.Bars.{shape};
ghost use Rattle.prem_chart.specs.Phases.{idle_cycles, idle_first, idle_shown, idle_told, miss_mark, miss_path, miss_text, miss_told, misses_text, open_shown, open_told, phase_shown, phase_told, shape_shown, window_cycles, window_text, windows_text};

use crate::bars::{cycle_told, push_owner, push_shape};
use crate::note::Note;
use crate::placing::{bar_of, bus_top, idle_top, is_shown, place, task_top};
use crate::shapes::task_name;
use crate::view::{Bar, Canvas, Look};
use prem_gate::Window;
use prem_image::TaskRecord;
use std::alloc::{AllocError, Global};

/// A shape, where one of its cycles is in the window.
pub(crate) fn push_shown(
    alloc: Global,
    text: &mut Vec<u8>,
    sheet: Canvas,
    first: u64,
    cycles: u64,
    owner: &str,
    told: &str,
    bar: &Bar,
) -> Result<(), AllocError>
    requires { IsView sheet.view }
    ensures { OnOk result (text.new.items ≡ text.old.items ++ shape_shown sheet first cycles (shape bar.now cycles owner.now told.now)) }
{
    if is_shown(sheet.view, first, cycles) {
        push_shape(alloc, text, owner, told, bar, cycles)?;
    }
    Ok(())
}

/// How long a window for transfers is open.
fn window_cycles(window: Window) -> u64
    ensures { result ≡ window_cycles window }
{
    window.close.saturating_sub(window.start)
}

/// What is told of an execution phase, behind the name of its task.
#[tactic(auto, unfolding(crate::specs::Phases::phase_told))]
fn phase_told(alloc: Global, cycles: u64, first: u64) -> Result<String, AllocError>
    ensures { IfOk result (λ s. string_bytes s ≡ phase_told cycles first) }
{
    format!(in alloc; ": execution phase, {cycles} cycles from {first}")
}

/// The execution phase of a task with this window.
fn push_phase(
    alloc: Global,
    text: &mut Vec<u8>,
    sheet: Canvas,
    tasks: &[TaskRecord],
    k: u16,
    window: Window,
) -> Result<(), AllocError>
    requires { IsView sheet.view }
    ensures { OnOk result (text.new.items ≡ text.old.items ++ phase_shown sheet tasks.now k window) }
{
    let cycles = window_cycles(window);
    let y = task_top(sheet, k) + 170;
    let bar = bar_of(sheet.view, Look::Execution, y, 260, window.start, cycles);
    let told = phase_told(alloc, cycles, window.start)?;
    let owner = task_name(tasks, k as usize);
    push_shown(alloc, text, sheet, window.start, cycles, owner, &told, &bar)
}

/// The first cycle of the idle time with this window.
fn idle_first(window: Window) -> u64
    ensures { result ≡ idle_first window }
{
    window.start.saturating_sub(1)
}

/// How long it is.
fn idle_cycles(window: Window) -> u64
    ensures { result ≡ idle_cycles window }
{
    window.close.saturating_sub(window.start.saturating_sub(1))
}

/// What is told of idle time.
#[tactic(auto, unfolding(crate::specs::Phases::idle_told))]
fn idle_told(alloc: Global, cycles: u64, first: u64) -> Result<String, AllocError>
    ensures { IfOk result (λ s. string_bytes s ≡ idle_told cycles first) }
{
    format!(in alloc; ": {cycles} cycles from {first}")
}

/// The idle time with this window.
fn push_idle(
    alloc: Global,
    text: &mut Vec<u8>,
    sheet: Canvas,
    window: Window,
) -> Result<(), AllocError>
    requires { IsView sheet.view }
    ensures { OnOk result (text.new.items ≡ text.old.items ++ idle_shown sheet window) }
{
    let (first, cycles) = (idle_first(window), idle_cycles(window));
    let y = idle_top(sheet) + 100;
    let bar = bar_of(sheet.view, Look::Idle, y, 140, first, cycles);
    let told = idle_told(alloc, cycles, first)?;
    push_shown(alloc, text, sheet, first, cycles, "idle", &told, &bar)
}

/// What is told of a window for transfers.
#[tactic(auto, unfolding(crate::specs::Phases::open_told))]
fn open_told(alloc: Global, cycles: u64, first: u64) -> Result<String, AllocError>
    ensures { IfOk result (λ s. string_bytes s ≡ open_told cycles first) }
{
    format!(in alloc; ": open to devices, {cycles} cycles from {first}")
}

/// A window for transfers, on the bus.
fn push_open(
    alloc: Global,
    text: &mut Vec<u8>,
    sheet: Canvas,
    window: Window,
) -> Result<(), AllocError>
    requires { IsView sheet.view }
    ensures { OnOk result (text.new.items ≡ text.old.items ++ open_shown sheet window) }
{
    let cycles = window_cycles(window);
    let y = bus_top(sheet) + 100;
    let bar = bar_of(sheet.view, Look::Open, y, 260, window.start, cycles);
    let told = open_told(alloc, cycles, window.start)?;
    push_shown(alloc, text, sheet, window.start, cycles, "bus", &told, &bar)
}

/// What a note tells of a window for transfers.
fn push_window(
    alloc: Global,
    text: &mut Vec<u8>,
    sheet: Canvas,
    tasks: &[TaskRecord],
    note: Note,
) -> Result<(), AllocError>
    requires { IsView sheet.view }
    ensures { OnOk result (text.new.items ≡ text.old.items ++ window_text sheet tasks.now note) }
{
    match note {
        Note::Phase { task, window } => {
            push_phase(alloc, text, sheet, tasks, task, window)?;
            push_open(alloc, text, sheet, window)
        }
        Note::Rest { window } => {
            push_idle(alloc, text, sheet, window)?;
            push_open(alloc, text, sheet, window)
        }
        Note::Miss { .. } => Ok(()),
    }
}

/// All execution phases, idle times and windows for transfers.
pub(crate) fn push_windows(
    alloc: Global,
    text: &mut Vec<u8>,
    sheet: Canvas,
    tasks: &[TaskRecord],
    notes: &[Note],
) -> Result<(), AllocError>
    requires { IsView sheet.view }
    ensures { OnOk result (text.new.items ≡ text.old.items ++ windows_text sheet tasks.now notes.now) }
{
    'notes: for note in notes {
        push_window(alloc, text, sheet, tasks, *note)?;
    }
    Ok(())
}

/// What is told of a cache miss, behind the name of its task.
#[tactic(auto, unfolding(crate::specs::Phases::miss_told))]
fn push_miss_told(text: &mut Vec<u8>) -> Result<(), AllocError>
    ensures { OnOk result (text.new.items ≡ text.old.items ++ miss_told) }
{
    text.extend_from_slice(b": cache miss")
}

/// The line of a cache miss at this place.
#[tactic(auto, unfolding(crate::specs::Phases::miss_path))]
fn miss_path(alloc: Global, x: u32, y: u32) -> Result<String, AllocError>
    ensures { IfOk result (λ s. string_bytes s ≡ miss_path x y) }
{
    format!(in alloc; "<path class=\"miss\" d=\"M{x} {y}v50\"/></g>\n")
}

/// The mark of a cache miss, behind the name of its task.
fn push_miss_mark(
    alloc: Global,
    text: &mut Vec<u8>,
    sheet: Canvas,
    k: u16,
    cycle: u64,
) -> Result<(), AllocError>
    requires { IsView sheet.view }
    ensures { OnOk result (text.new.items ≡ text.old.items ++ miss_mark sheet k cycle) }
{
    let (x, y) = (place(sheet.view, cycle), task_top(sheet, k) + 445);
    push_miss_told(text)?;
    text.extend_from_slice(cycle_told(alloc, cycle)?.as_bytes())?;
    text.extend_from_slice(miss_path(alloc, x, y)?.as_bytes())
}

/// What a note tells of a cache miss.
fn push_miss(
    alloc: Global,
    text: &mut Vec<u8>,
    sheet: Canvas,
    tasks: &[TaskRecord],
    note: Note,
) -> Result<(), AllocError>
    requires { IsView sheet.view }
    ensures { OnOk result (text.new.items ≡ text.old.items ++ miss_text sheet tasks.now note) }
{
    match note {
        Note::Phase { .. } | Note::Rest { .. } => {}
        Note::Miss { task, cycle } => {
            if is_shown(sheet.view, cycle, 1) {
                push_owner(text, task_name(tasks, task as usize))?;
                push_miss_mark(alloc, text, sheet, task, cycle)?;
            }
        }
    }
    Ok(())
}

/// All cache misses.
pub(crate) fn push_misses(
    alloc: Global,
    text: &mut Vec<u8>,
    sheet: Canvas,
    tasks: &[TaskRecord],
    notes: &[Note],
) -> Result<(), AllocError>
    requires { IsView sheet.view }
    ensures { OnOk result (text.new.items ≡ text.old.items ++ misses_text sheet tasks.now notes.now) }
{
    'notes: for note in notes {
        push_miss(alloc, text, sheet, tasks, *note)?;
    }
    Ok(())
}
