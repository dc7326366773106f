// Where cycles and rows stand in a picture.
ghost use Rattle.std.specs.Prelude.{◌≡◌, ◌≤◌, ◌+◌, ◌^◌};
ghost use Rattle.prem_chart.specs.Places.{IsView, axis_top, bar_of, behind_in, bus_top, height_of, held, idle_top, is_inside, place, promise_top, rows_top, task_top};

use crate::view::{Bar, Canvas, Look, View};

/// The beginning of the line of time, and its length, in tenths of a unit.
const TIME_LEFT: u64 = 1400;

const TIME_WIDTH: u64 = 10300;

/// A cycle of the window, or that end of it which is nearer.
fn held(view: View, cycle: u64) -> u64
    requires { IsView view }
    ensures is { result ≡ held view cycle }
    ensures from { view.first ≤ result }
    ensures up_to { result ≤ view.behind }
{
    cycle.max(view.first).min(view.behind)
}

/// The place of a cycle's beginning, in tenths of a unit.
#[tactic(auto, using(crate::proofs::Within::place_within))]
pub fn place(view: View, cycle: u64) -> u32
    requires { IsView view }
    ensures { result ≡ place view cycle }
{
    let place = TIME_LEFT
        + (held(view, cycle) - view.first) * TIME_WIDTH / (view.behind - view.first);
    place as u32
}

/// Whether one of the cycles from the first one up to the one behind is in the window.
pub fn is_inside(view: View, first: u64, behind: u64) -> bool
    ensures { result ≡ is_inside view first behind }
{
    first.max(view.first) < behind.min(view.behind)
}

/// The cycle behind so many cycles, or the end of the window where that comes before it.
fn behind_in(view: View, first: u64, cycles: u64) -> u64
    ensures { result ≡ behind_in view first cycles }
{
    match first.checked_add(cycles) {
        Some(behind) => behind.min(view.behind),
        None => view.behind,
    }
}

/// Whether one of so many cycles from the first one on is in the window.
pub(crate) fn is_shown(view: View, first: u64, cycles: u64) -> bool
    requires { IsView view }
    ensures { result ≡ is_inside view first (first + cycles) }
{
    is_inside(view, first, behind_in(view, first, cycles))
}

/// The bar of so many cycles from the first one on. It is a tenth of a unit wide at least: one without a width wouldn't be seen.
pub(crate) fn bar_of(view: View, look: Look, y: u32, height: u32, first: u64, cycles: u64) -> Bar
    requires { IsView view }
    ensures { result ≡ bar_of view look y height first (first + cycles) }
{
    let x = place(view, first);
    let behind = behind_in(view, first, cycles);
    Bar {
        look,
        x,
        y,
        width: place(view, behind).saturating_sub(x).max(1),
        height,
    }
}

/// The upper edge of the first row.
pub(crate) fn rows_top(sheet: Canvas) -> u32
    ensures is { result ≡ rows_top sheet }
    ensures small { result ≤ 2 ^ 24 }
{
    980 + 200 * ((u32::from(sheet.devices) + 3) / 4)
}

/// The upper edge of the row of a task.
pub(crate) fn task_top(sheet: Canvas, k: u16) -> u32
    ensures is { result ≡ task_top sheet k }
    ensures small { result ≤ 2 ^ 30 }
{
    rows_top(sheet) + 520 * u32::from(k)
}

/// The upper edge of the row of idle time.
pub(crate) fn idle_top(sheet: Canvas) -> u32
    ensures is { result ≡ idle_top sheet }
    ensures small { result ≤ 2 ^ 30 }
{
    rows_top(sheet) + 520 * u32::from(sheet.tasks)
}

/// The upper edge of the row of the bus.
pub(crate) fn bus_top(sheet: Canvas) -> u32
    ensures is { result ≡ bus_top sheet }
    ensures small { result ≤ 2 ^ 30 }
{
    rows_top(sheet) + 520 * u32::from(sheet.tasks) + 340
}

/// The upper edge of a row for what is promised to a device.
pub(crate) fn promise_top(sheet: Canvas, row: u16) -> u32
    ensures is { result ≡ promise_top sheet row }
    ensures small { result ≤ 2 ^ 30 }
{
    rows_top(sheet) + 520 * u32::from(sheet.tasks) + 780 + 520 * u32::from(row)
}

/// The upper edge of the axis, below the rows.
pub(crate) fn axis_top(sheet: Canvas) -> u32
    ensures is { result ≡ axis_top sheet }
    ensures small { result ≤ 2 ^ 30 }
{
    rows_top(sheet) + 520 * (u32::from(sheet.tasks) + u32::from(sheet.promised)) + 780
}

/// The height of the picture.
pub(crate) fn height_of(sheet: Canvas) -> u32
    ensures { result ≡ height_of sheet }
{
    rows_top(sheet) + 520 * (u32::from(sheet.tasks) + u32::from(sheet.promised)) + 1340
}
