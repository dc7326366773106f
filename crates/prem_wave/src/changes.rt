// What changes from one cycle to another, as a text.
ghost use Rattle.std.specs.Prelude.{◌≡◌, ◌++◌, OnOk, slice_get, string_bytes};
ghost use Rattle.prem_wave.specs.Dump.{change_line, changes_from, changes_text, is_known, moment_at, moments_text, same_value, time_text};
ghost use Rattle.prem_wave.specs.Changed.{has_changes};

use std::alloc::AllocError;
use std::fmt::Write;

/// Whether two values are the same.
fn same_value(before: Option<u64>, now: Option<u64>) -> bool
    ensures { result ≡ same_value before now }
{
    match (before, now) {
        (None, None) => true,
        (Some(m), Some(n)) => m == n,
        (None, Some(_)) | (Some(_), None) => false,
    }
}

/// Whether a signal had this value before, if it had one.
fn is_known(before: &[Option<u64>], signal: usize, now: Option<u64>) -> bool
    ensures { result ≡ is_known (slice_get before.now signal) now }
{
    match before.get(signal) {
        Some(value) => same_value(*value, now),
        None => false,
    }
}

/// Puts the new value of a signal behind a text.
fn push_change(text: &mut String, signal: usize, value: Option<u64>) -> Result<(), AllocError>
    ensures { OnOk result (string_bytes text.new ≡ string_bytes text.old ++ change_line signal value) }
{
    match value {
        Some(n) => write!(text, "b{n:b} {signal}\n"),
        None => write!(text, "bz {signal}\n"),
    }
}

/// Whether a signal has another value than before.
fn has_changes(before: &[Option<u64>], values: &[Option<u64>]) -> bool
    ensures { result ≡ has_changes (changes_from before.now 0 values.now) }
{
    'signals: for (signal, value) in values.iter().enumerate() {
        if !is_known(before, signal, *value) {
            return true;
        }
    }
    false
}

/// Puts the new values of all signals behind a text that have another one than before.
fn push_changes(
    text: &mut String,
    before: &[Option<u64>],
    values: &[Option<u64>],
) -> Result<(), AllocError>
    ensures { OnOk result (string_bytes text.new ≡ string_bytes text.old ++ changes_text (changes_from before.now 0 values.now)) }
{
    'signals: for (signal, value) in values.iter().enumerate() {
        if !is_known(before, signal, *value) {
            push_change(text, signal, *value)?;
        }
    }
    Ok(())
}

/// Puts a time behind a text.
pub fn push_time(text: &mut String, at: u64) -> Result<(), AllocError>
    ensures { OnOk result (string_bytes text.new ≡ string_bytes text.old ++ time_text at) }
{
    write!(text, "#{at}\n")
}

/// Puts a cycle with the new values behind a text, where a signal has another value than before.
#[tactic(auto, using(crate::proofs::Moments::none_at, crate::proofs::Moments::some_at))]
pub fn push_moment(
    text: &mut String,
    at: u64,
    before: &[Option<u64>],
    values: &[Option<u64>],
) -> Result<(), AllocError>
    ensures { OnOk result (string_bytes text.new ≡ string_bytes text.old ++ moments_text (moment_at at (changes_from before.now 0 values.now))) }
{
    if !has_changes(before, values) {
        return Ok(());
    }
    push_time(text, at)?;
    push_changes(text, before, values)
}
