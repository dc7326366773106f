// Bars, and the text of one with whose it is and what it tells where one points at it.
ghost use Rattle.std.specs.Prelude.{◌≡◌, ◌++◌, IfOk, OnOk, string_bytes};
ghost use Rattle.prem_chart.specs.Bars.{bar_start, bar_text, cycle_told, is_numbered, look_class, number_room, number_shown, number_text, owner_text, rect_end, shape, shape_end, shape_text, shows_number, wide_class};

use crate::text::push_escaped;
use crate::view::{Bar, Look};
use std::alloc::{AllocError, Global};

/// The class of a bar. Each of eight devices has a colour of its own.
#[tactic(auto, unfolding(crate::specs::Bars::look_class))]
fn look_class(alloc: Global, look: Look) -> Result<String, AllocError>
    ensures { IfOk result (λ s. string_bytes s ≡ look_class look) }
{
    match look {
        Look::Compatible => String::from_str(alloc, "compatible"),
        Look::Predictable => String::from_str(alloc, "predictable"),
        Look::Execution => String::from_str(alloc, "execution"),
        Look::Idle => String::from_str(alloc, "idle"),
        Look::Open => String::from_str(alloc, "open"),
        Look::Device(k) => {
            let colour = k % 8;
            format!(in alloc; "d{colour}")
        }
    }
}

/// Bars that are wide enough have a white edge.
fn wide_class(width: u32) -> &'static str
    ensures { result.now ≡ wide_class width }
{
    if width >= 30 { " wide" } else { "" }
}

/// The rectangle of a bar up to its classes, behind its title.
#[tactic(auto, unfolding(crate::specs::Bars::bar_start))]
fn bar_start(alloc: Global, bar: &Bar) -> Result<String, AllocError>
    ensures { IfOk result (λ s. string_bytes s ≡ bar_start bar.now) }
{
    let class = look_class(alloc, bar.look)?;
    let wide = wide_class(bar.width);
    format!(in alloc; "</title><rect class=\"{class}{wide}")
}

/// The place and the size of a bar.
#[tactic(auto, unfolding(crate::specs::Bars::rect_end))]
fn rect_end(alloc: Global, bar: &Bar) -> Result<String, AllocError>
    ensures { IfOk result (λ s. string_bytes s ≡ rect_end bar.now) }
{
    let (x, y, width, height) = (bar.x, bar.y, bar.width, bar.height);
    format!(in alloc; "\" x=\"{x}\" y=\"{y}\" width=\"{width}\" height=\"{height}\"/>")
}

/// The rectangle of a bar, behind its title.
#[tactic(auto, unfolding(crate::specs::Bars::bar_text))]
fn push_bar(alloc: Global, text: &mut Vec<u8>, bar: &Bar) -> Result<(), AllocError>
    ensures { OnOk result (text.new.items ≡ text.old.items ++ bar_text bar.now) }
{
    text.extend_from_slice(bar_start(alloc, bar)?.as_bytes())?;
    text.extend_from_slice(rect_end(alloc, bar)?.as_bytes())
}

/// Whether bars like this have their cycles written in them.
fn is_numbered(look: Look) -> bool
    ensures { result ≡ is_numbered look }
{
    match look {
        Look::Compatible | Look::Execution | Look::Idle => true,
        Look::Predictable | Look::Open | Look::Device(_) => false,
    }
}

/// How wide a bar is at least in which so many cycles are written.
fn number_room(cycles: u64) -> u32
    ensures { result ≡ number_room cycles }
{
    if cycles < 100_000 { 420 } else { 700 }
}

/// Whether so many cycles are written in a bar.
fn shows_number(bar: &Bar, cycles: u64) -> bool
    ensures { result ≡ shows_number bar.now cycles }
{
    is_numbered(bar.look) && number_room(cycles) <= bar.width
}

/// The cycles in the middle of a bar.
#[tactic(auto, unfolding(crate::specs::Bars::number_text))]
fn number_text(alloc: Global, bar: &Bar, cycles: u64) -> Result<String, AllocError>
    ensures { IfOk result (λ s. string_bytes s ≡ number_text bar.now cycles) }
{
    let x = u64::from(bar.x) + u64::from(bar.width / 2);
    let y = u64::from(bar.y) + u64::from(bar.height / 2) + 42;
    format!(in alloc; "<text class=\"cycles\" x=\"{x}\" y=\"{y}\">{cycles}</text>")
}

/// The cycles of a bar, where there is room for them.
#[tactic(auto, unfolding(crate::specs::Bars::number_shown))]
fn push_number(alloc: Global, text: &mut Vec<u8>, bar: &Bar, cycles: u64) -> Result<(), AllocError>
    ensures { OnOk result (text.new.items ≡ text.old.items ++ number_shown bar.now cycles) }
{
    if shows_number(bar, cycles) {
        text.extend_from_slice(number_text(alloc, bar, cycles)?.as_bytes())?;
    }
    Ok(())
}

/// Whose a shape is, at its beginning.
#[tactic(auto, unfolding(crate::specs::Bars::owner_text))]
pub(crate) fn push_owner(text: &mut Vec<u8>, owner: &str) -> Result<(), AllocError>
    ensures { OnOk result (text.new.items ≡ text.old.items ++ owner_text owner.now) }
{
    text.extend_from_slice(b"<g><title>")?;
    push_escaped(text, owner.as_bytes())
}

/// The end of a shape.
#[tactic(auto, unfolding(crate::specs::Bars::shape_end))]
fn push_end(text: &mut Vec<u8>) -> Result<(), AllocError>
    ensures { OnOk result (text.new.items ≡ text.old.items ++ shape_end) }
{
    text.extend_from_slice(b"</g>\n")
}

/// A shape: a bar of so many cycles, with whose it is and what is told of it.
pub(crate) fn push_shape(
    alloc: Global,
    text: &mut Vec<u8>,
    owner: &str,
    told: &str,
    bar: &Bar,
    cycles: u64,
) -> Result<(), AllocError>
    ensures { OnOk result (text.new.items ≡ text.old.items ++ shape_text (shape bar.now cycles owner.now told.now)) }
{
    push_owner(text, owner)?;
    text.extend_from_slice(told.as_bytes())?;
    push_bar(alloc, text, bar)?;
    push_number(alloc, text, bar, cycles)?;
    push_end(text)
}

/// A cycle, at the end of a title.
#[tactic(auto, unfolding(crate::specs::Bars::cycle_told))]
pub(crate) fn cycle_told(alloc: Global, cycle: u64) -> Result<String, AllocError>
    ensures { IfOk result (λ s. string_bytes s ≡ cycle_told cycle) }
{
    format!(in alloc; ", cycle {cycle}</title>")
}
