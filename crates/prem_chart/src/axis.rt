// The axis: round numbers of cycles.
ghost use Rattle.std.specs.Prelude.{◌≡◌, ◌*◌, ◌<◌, ◌≤◌, ◌^◌, ◌++◌, IfOk, OnOk, string_bytes};
ghost use Rattle.prem_chart.specs.Places.{IsView};
ghost use Rattle.prem_chart.specs.Axis.{axis_name, axis_text, fitting, grid_text, multiples_before, tick_shown, tick_step, tick_text, ticks_text};

use crate::placing::{axis_top, place, rows_top};
use crate::view::Canvas;
use std::alloc::{AllocError, Global};

/// From one number of the axis to the next, in cycles: round ones, in order.
pub const STEPS: [u64; 45] = [
    1,
    2,
    5,
    10,
    20,
    50,
    100,
    200,
    500,
    1_000,
    2_000,
    5_000,
    10_000,
    20_000,
    50_000,
    100_000,
    200_000,
    500_000,
    1_000_000,
    2_000_000,
    5_000_000,
    10_000_000,
    20_000_000,
    50_000_000,
    100_000_000,
    200_000_000,
    500_000_000,
    1_000_000_000,
    2_000_000_000,
    5_000_000_000,
    10_000_000_000,
    20_000_000_000,
    50_000_000_000,
    100_000_000_000,
    200_000_000_000,
    500_000_000_000,
    1_000_000_000_000,
    2_000_000_000_000,
    5_000_000_000_000,
    10_000_000_000_000,
    20_000_000_000_000,
    50_000_000_000_000,
    100_000_000_000_000,
    200_000_000_000_000,
    500_000_000_000_000,
];

/// The greatest one.
pub const LAST_STEP: u64 = 1_000_000_000_000_000;

/// The first step of which at most twelve fit into so many cycles.
fn fitting(span: u64, steps: &[u64]) -> u64
    ensures { result ≡ fitting span steps.now }
{
    'steps: for step in steps {
        if u128::from(span) < 13 * u128::from(*step) {
            return *step;
        }
    }
    LAST_STEP
}

/// The cycles from one number of the axis to the next.
#[tactic(auto, using(crate::proofs::Steps::step_some), unfolding(crate::specs::Axis::tick_step))]
fn tick_step(span: u64) -> u64
    ensures is { result ≡ tick_step span }
    ensures some { 0 < result }
{
    fitting(span, &STEPS)
}

/// How often so many cycles fit before this one, rounded up.
fn multiples_before(step: u64, cycle: u64) -> u64
    requires some { 0 < step }
    requires early { cycle < 2 ^ 62 }
    ensures is { result ≡ multiples_before step cycle }
    ensures early { result ≤ 2 ^ 62 }
{
    if cycle % step == 0 {
        cycle / step
    } else {
        cycle / step + 1
    }
}

/// A line at this place.
#[tactic(auto, unfolding(crate::specs::Axis::grid_text))]
fn grid_text(alloc: Global, sheet: Canvas, x: u32) -> Result<String, AllocError>
    ensures { IfOk result (λ s. string_bytes s ≡ grid_text sheet x) }
{
    let (top, bottom) = (rows_top(sheet), axis_top(sheet) + 40);
    format!(in alloc; "<path class=\"grid\" d=\"M{x} {top}V{bottom}\"/>")
}

/// Its number.
#[tactic(auto, unfolding(crate::specs::Axis::tick_text))]
fn tick_text(alloc: Global, sheet: Canvas, x: u32, cycle: u64) -> Result<String, AllocError>
    ensures { IfOk result (λ s. string_bytes s ≡ tick_text sheet x cycle) }
{
    let y = axis_top(sheet) + 190;
    format!(in alloc; "<text class=\"axis\" x=\"{x}\" y=\"{y}\">{cycle}</text>\n")
}

/// A number of the axis, where it is in the window or just behind it.
fn push_tick(
    alloc: Global,
    text: &mut Vec<u8>,
    sheet: Canvas,
    multiple: u64,
    step: u64,
) -> Result<(), AllocError>
    requires { IsView sheet.view }
    ensures { OnOk result (text.new.items ≡ text.old.items ++ tick_shown sheet (multiple * step)) }
{
    let cycle = u128::from(multiple) * u128::from(step);
    if cycle <= u128::from(sheet.view.behind) {
        let cycle = cycle as u64;
        let x = place(sheet.view, cycle);
        text.extend_from_slice(grid_text(alloc, sheet, x)?.as_bytes())?;
        text.extend_from_slice(tick_text(alloc, sheet, x, cycle)?.as_bytes())?;
    }
    Ok(())
}

/// So many numbers of the axis, where they are in the window.
#[tactic(auto, unfolding(crate::specs::Axis::ticks_text))]
fn push_ticks(
    alloc: Global,
    text: &mut Vec<u8>,
    sheet: Canvas,
    step: u64,
    count: u32,
) -> Result<(), AllocError>
    requires view { IsView sheet.view }
    requires some { 0 < step }
    ensures { OnOk result (text.new.items ≡ text.old.items ++ ticks_text sheet step count) }
{
    let before = multiples_before(step, sheet.view.first);
    'ticks: for k in 0..count {
        push_tick(alloc, text, sheet, before + u64::from(k), step)?;
    }
    Ok(())
}

/// What the numbers are.
#[tactic(auto, unfolding(crate::specs::Axis::axis_name))]
fn axis_name(alloc: Global, sheet: Canvas) -> Result<String, AllocError>
    ensures { IfOk result (λ s. string_bytes s ≡ axis_name sheet) }
{
    let y = axis_top(sheet) + 400;
    format!(in alloc; "<text class=\"axis\" x=\"6550\" y=\"{y}\">cycles</text>\n")
}

/// The axis of a picture.
#[tactic(auto, unfolding(crate::specs::Axis::axis_text))]
pub(crate) fn push_axis(alloc: Global, text: &mut Vec<u8>, sheet: Canvas) -> Result<(), AllocError>
    requires { IsView sheet.view }
    ensures { OnOk result (text.new.items ≡ text.old.items ++ axis_text sheet) }
{
    let step = tick_step(sheet.view.behind - sheet.view.first);
    push_ticks(alloc, text, sheet, step, 14)?;
    text.extend_from_slice(axis_name(alloc, sheet)?.as_bytes())
}
