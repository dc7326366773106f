// The run of an image, of which a dump is written as it goes.
ghost use Rattle.std.specs.Prelude.{◌≡◌, ℕ, ◌≤◌, ◌<◌, ◌-◌, ◌^◌, ◌++◌, ◌&&◌, nat_lt, max, unwrap_or, length, drop, IfOk, OnOk, Some, true, false};
ghost use Rattle.prem_list.specs.Sequence.{items_of};
ghost use Rattle.prem_sched.specs.Schedule.{is_ready, task_at};
ghost use Rattle.prem_cycle.specs.State.{rule_in};
ghost use Rattle.prem_cycle.specs.Cycle.{is_over};
ghost use Rattle.prem_cycle.specs.Run.{cycles_of};
ghost use Rattle.prem_cycle.specs.FactsOf.{stop_of};
ghost use Rattle.prem_cycle.specs.Inputs.{FitsRun, image_run, setup_of, words_of};
ghost use Rattle.prem_machine.specs.States.{requests_in, setup_in, state_of};
ghost use Rattle.prem_machine.specs.Parts.{state_of as parts_state};
ghost use Rattle.prem_wave.specs.Calls.{AreCounted, all_counted};
ghost use Rattle.prem_wave.specs.Dump.{moments_text, time_text};
ghost use Rattle.prem_wave.specs.Signals.{before_of, values_after, values_before, values_with};
ghost use Rattle.prem_wave.specs.Waves.{AllSame, goes_on, last_between, moments_between, wave_text, window_change};

use crate::bus::{Before, before_of, values_after};
use crate::calls::{count_intervals, no_calls};
use crate::changes::{push_moment, push_time};
use crate::doing::values_before;
use crate::header::declarations;
use prem_cycle::Stop;
use prem_gate::{RunInput, Window};
use prem_image::Image;
use prem_lru::Policy;
use prem_machine::{Machine, Parts};
use std::alloc::{AllocError, Global};

/// What of a machine decides which signals it has.
#[derive(Clone, Copy, PartialEq, Eq, Debug)]
pub struct Sizes {
    /// The cycles of a switch.
    pub switch: u32,
    pub tasks: u16,
    pub devices: u16,
}

/// The text of a dump so far, the values in the last cycle of it, and how many marked calls of each task have ended.
#[derive(Drop)]
pub struct Dump {
    pub text: Vec<u8>,
    pub last: Vec<Option<u64>>,
    pub calls: Vec<u64>,
}

/// Puts what is told of the cycles from `at` up to `now`, which all have these values, behind a dump that begins in cycle `from`.
fn note(
    alloc: Global,
    dump: &mut Dump,
    from: u64,
    at: u64,
    now: u64,
    values: Vec<Option<u64>>,
) -> Result<(), AllocError>
    ensures text { OnOk result (dump.new.text.items ≡ dump.old.text.items ++ moments_text (moments_between dump.old.last.items from at now values.items)) }
    ensures last { OnOk result (dump.new.last.items ≡ last_between dump.old.last.items from at now values.items) }
    ensures calls { OnOk result (dump.new.calls.items ≡ dump.old.calls.items) }
{
    let first = from.max(at);
    if first < now {
        let mut lines = String::new(alloc);
        push_moment(&mut lines, first, &dump.last, &values)?;
        dump.text.extend_from_slice(lines.as_bytes())?;
        dump.last = values;
    }
    Ok(())
}

/// The first cycle behind this one in which a window opens or closes.
fn window_change(now: u64, window: Window) -> Option<u64>
    ensures { result ≡ window_change now window }
{
    if now < window.start {
        Some(window.start)
    } else if now < window.close {
        Some(window.close)
    } else {
        None
    }
}

/// The first cycle behind this one in which a task becomes ready, or the limit where none does. Up to it each is ready or not as it is.
fn ready_change<P: Policy>(parts: &Parts<P>, limit: u64) -> u64
    requires limit { (parts_state parts.now).now < limit }
    ensures later { (parts_state parts.entry.now).now < result }
    ensures kept { (k v : ℕ) → (parts_state parts.entry.now).now ≤ v → v < result
        → is_ready v (task_at (parts_state parts.entry.now).sched k) ≡ is_ready (parts_state parts.entry.now).now (task_at (parts_state parts.entry.now).sched k) }
{
    parts.sched.next_ready(parts.now).unwrap_or(limit)
}

/// The cycle up to which the machine goes in one turn: past one cycle, or past so many in which no signal changes.
fn turn_end<P: Policy>(machine: &Machine<P>, at: u64, limit: u64) -> u64
    requires now { (state_of machine.now).now ≡ at }
    requires going { is_over (state_of machine.now) ≡ false }
    requires before { at < limit }
    requires limit { limit ≤ 2 ^ 61 }
    ensures from { at < result }
    ensures within { result ≤ limit }
    ensures kept { AllSame (rule_in (setup_in machine.now)) (setup_in machine.now) (requests_in machine.now) (result - at) (state_of machine.now) }
{
    let event = machine.next_event(limit);
    let ready = ready_change(machine.parts(), limit);
    let window = window_change(at, machine.window()).unwrap_or(limit);
    event.min(ready).min(window).max(at + 1)
}

/// What a machine before a cycle gives to what is seen behind it.
fn seen_before<P: Policy>(machine: &Machine<P>) -> Before
    ensures { result ≡ before_of (state_of machine.now) }
{
    before_of(machine.parts())
}

/// The values that a machine shows before a cycle, where the marked calls so far have been counted.
fn shown_before<P: Policy>(
    alloc: Global,
    machine: &Machine<P>,
    calls: &[u64],
    switch: u32,
    tasks: u16,
) -> Result<Vec<Option<u64>>, AllocError>
    requires { AreCounted tasks (state_of machine.now).log.intervals calls.now }
    ensures { IfOk result (λ values. values.items ≡ values_before switch tasks (state_of machine.now)) }
{
    values_before(alloc, machine.parts(), calls, switch, tasks)
}

/// The values that a machine shows behind a cycle.
fn shown_after<P: Policy>(
    alloc: Global,
    machine: &Machine<P>,
    before: Before,
    devices: u16,
) -> Result<Vec<Option<u64>>, AllocError>
    ensures { IfOk result (λ values. values.items ≡ values_after devices before (state_of machine.now)) }
{
    values_after(alloc, machine.parts(), before, devices)
}

/// The number of intervals that have ended.
fn ended_count<P: Policy>(machine: &Machine<P>) -> usize
    ensures { result ≡ length (state_of machine.now).log.intervals }
{
    machine.facts().intervals.items().len()
}

/// Counts the marked calls that have ended behind so many intervals.
fn count_calls<P: Policy>(machine: &Machine<P>, calls: &mut Vec<u64>, before: usize)
    requires { before ≤ length (state_of machine.now).log.intervals }
    ensures counted { calls.new.items ≡ all_counted (drop before (state_of machine.now).log.intervals) calls.old.items }
    ensures few { length (state_of machine.now).log.intervals ≤ 2 ^ 64 - 1 }
{
    let intervals = machine.facts().intervals.items();
    if before < intervals.len() {
        count_intervals(calls, &intervals[before..]);
    }
}

/// Goes on up to a cycle, and writes what is told of the way.
///
/// Conditions: this cycle hasn't passed, and all cycles on the way have the values that are seen at both ends.
fn go_on<P: Policy>(
    alloc: Global,
    machine: &mut Machine<P>,
    dump: &mut Dump,
    sizes: Sizes,
    from: u64,
    to: u64,
) -> Result<Stop, AllocError>
    requires now { (state_of machine.old).now ≤ to }
    requires limit { to ≤ 2 ^ 61 }
    requires counted { AreCounted sizes.tasks (state_of machine.old).log.intervals dump.old.calls.items }
    ensures state { OnOk result (state_of machine.new ≡ cycles_of (rule_in (setup_in machine.old)) (setup_in machine.old) (requests_in machine.old)
        (to - (state_of machine.old).now) (state_of machine.old)) }
    ensures setup { OnOk result (setup_in machine.new ≡ setup_in machine.old) }
    ensures requests { OnOk result (requests_in machine.new ≡ requests_in machine.old) }
    ensures stop { IfOk result (λ s. Some s ≡ stop_of to (state_of machine.new)) }
    ensures text { OnOk result (dump.new.text.items ≡ dump.old.text.items ++ moments_text (moments_between dump.old.last.items from (state_of machine.old).now (state_of machine.new).now
        (values_with sizes.switch sizes.tasks sizes.devices (state_of machine.old) (state_of machine.new)))) }
    ensures last { OnOk result (dump.new.last.items ≡ last_between dump.old.last.items from (state_of machine.old).now (state_of machine.new).now
        (values_with sizes.switch sizes.tasks sizes.devices (state_of machine.old) (state_of machine.new))) }
    ensures counted { OnOk result (AreCounted sizes.tasks (state_of machine.new).log.intervals dump.new.calls.items) }
{
    let at = machine.now();
    let before = seen_before(machine);
    let ended = ended_count(machine);
    let mut values = shown_before(alloc, machine, &dump.calls, sizes.switch, sizes.tasks)?;
    let stop = machine.run_to(to);
    let after = shown_after(alloc, machine, before, sizes.devices)?;
    values.extend_from_slice(&after)?;
    note(alloc, dump, from, at, machine.now(), values)?;
    count_calls(machine, &mut dump.calls, ended);
    Ok(stop)
}

/// Whether the run went on when it came to its limit.
fn goes_on(stop: Stop) -> bool
    ensures { result ≡ goes_on stop }
{
    match stop {
        Stop::Limit => true,
        Stop::Finished | Stop::Trap { .. } | Stop::LogFull { .. } => false,
    }
}

/// Whether there is another turn behind this cycle.
fn has_turn(at: u64, limit: u64, stop: Stop) -> bool
    ensures { result ≡ (nat_lt at limit && goes_on stop) }
{
    at < limit && goes_on(stop)
}

/// The signals of an image.
fn sizes_of(image: &Image) -> Sizes
    ensures switch { result.switch ≡ image.now.plant.switch }
    ensures tasks { result.tasks ≡ length (items_of image.now.tasks) }
    ensures devices { result.devices ≡ length (items_of image.now.devices) }
{
    Sizes {
        switch: image.plant.switch,
        tasks: image.tasks.items().len() as u16,
        devices: image.devices.items().len() as u16,
    }
}

/// Puts the last time behind a dump.
fn push_end(alloc: Global, text: &mut Vec<u8>, now: u64) -> Result<(), AllocError>
    ensures { OnOk result (text.new.items ≡ text.old.items ++ time_text now) }
{
    let mut line = String::new(alloc);
    push_time(&mut line, now)?;
    text.extend_from_slice(line.as_bytes())
}

/// The dump of the run of an image up to a limit, from a cycle on. It fails only for want of memory.
///
/// In each of its cycles each signal has the value that the states of the machine before and behind that cycle give it. The machine runs up
/// to the first one, and then cycles in which no signal changes are passed over at once.
///
/// Conditions: the image's policy is of this kind, the run fits the image, and the limit is at most 2^61.
pub fn wave<P: Policy>(
    alloc: Global,
    image: &Image,
    input: &RunInput,
    from: u64,
    limit: u64,
) -> Result<Vec<u8>, AllocError>
    requires policy { image.now.plant.policy ≡ P.kind_of }
    requires fits { FitsRun (setup_of image.now) (words_of input.now) (items_of input.now.requests) }
    requires limit { limit ≤ 2 ^ 61 }
    ensures { IfOk result (λ text. text.items ≡ wave_text (rule_in (setup_of image.now)) (setup_of image.now) (items_of input.now.requests)
        (image_run (rule_in (setup_of image.now)) image.now input.now 0) from limit) }
{
    let mut machine = Machine::<P>::new(alloc, image, input)?;
    let sizes = sizes_of(image);
    let mut dump = Dump {
        text: declarations(alloc, image.tasks.items(), image.devices.items())?,
        last: Vec::new(alloc),
        calls: no_calls(alloc, sizes.tasks)?,
    };
    let mut at = from.min(limit);
    let mut stop = machine.run_to(at);
    count_calls(&machine, &mut dump.calls, 0);
    'turns: while has_turn(at, limit, stop) {
        let end = turn_end(&machine, at, limit);
        stop = go_on(alloc, &mut machine, &mut dump, sizes, from, end)?;
        at = end;
    }
    push_end(alloc, &mut dump.text, machine.now())?;
    Ok(dump.text)
}
