// The run of an image, of which it is noted when phases and idle time begin, and when the cache is missed.
ghost use Rattle.std.specs.Prelude.{◌≡◌, ◌≤◌, ◌<◌, ◌-◌, ◌^◌, ◌++◌, ◌&&◌, nat_lt, IfOk, OnOk, Some, true, false};
ghost use Rattle.prem_list.specs.Sequence.{items_of};
ghost use Rattle.prem_cycle.specs.State.{rule_in};
ghost use Rattle.prem_cycle.specs.Cycle.{is_over};
ghost use Rattle.prem_cycle.specs.Run.{cycles_of};
ghost use Rattle.prem_cycle.specs.FactsOf.{stop_of};
ghost use Rattle.prem_cycle.specs.Inputs.{FitsRun, image_run, setup_of, words_of};
ghost use Rattle.prem_machine.specs.States.{requests_in, setup_in, state_of};
ghost use Rattle.prem_chart.specs.Notes.{goes_on, missed, misses_noted, noted, notes_of, opened, windows_noted};

use crate::note::Note;
use prem_cycle::{Mode, Stop};
use prem_gate::{RunInput, Window};
use prem_image::Image;
use prem_lru::Policy;
use prem_machine::Machine;
use std::alloc::{AllocError, Global};

/// The machine behind a run, why it stopped, and what was noted, in order of time.
#[derive(Drop)]
pub struct Traced<P: Policy> {
    pub machine: Machine<P>,
    pub stop: Stop,
    pub notes: Vec<Note>,
}

/// What begins with a window for transfers.
fn opened(mode: Mode, window: Window) -> Note
    ensures { result ≡ opened mode window }
{
    match mode {
        Mode::Running { task } => Note::Phase { task, window },
        Mode::Point | Mode::Switching { .. } | Mode::Idle { .. } => Note::Rest { window },
    }
}

/// Notes a window for transfers that opened behind one that opened at `before`.
fn push_window(
    notes: &mut Vec<Note>,
    before: u64,
    mode: Mode,
    window: Window,
) -> Result<(), AllocError>
    ensures { OnOk result (notes.new.items ≡ notes.old.items ++ windows_noted before mode window) }
{
    if before < window.start {
        notes.push(opened(mode, window))?;
    }
    Ok(())
}

/// Notes that the task that runs missed the cache in this cycle.
fn push_missed(notes: &mut Vec<Note>, mode: Mode, cycle: u64) -> Result<(), AllocError>
    ensures { OnOk result (notes.new.items ≡ notes.old.items ++ missed mode cycle) }
{
    match mode {
        Mode::Running { task } => {
            notes.push(Note::Miss { task, cycle })?;
        }
        Mode::Point | Mode::Switching { .. } | Mode::Idle { .. } => {}
    }
    Ok(())
}

/// Notes that the cache was missed in this cycle, where the count of misses has grown.
fn push_misses(
    notes: &mut Vec<Note>,
    before: u64,
    misses: u64,
    mode: Mode,
    cycle: u64,
) -> Result<(), AllocError>
    ensures { OnOk result (notes.new.items ≡ notes.old.items ++ misses_noted before misses mode cycle) }
{
    if before < misses {
        push_missed(notes, mode, cycle)?;
    }
    Ok(())
}

/// Goes on up to a cycle, and notes what was done on the way.
///
/// Conditions: this cycle hasn't passed, and what is done on the way is what the states at both ends show.
fn go_on<P: Policy>(
    machine: &mut Machine<P>,
    notes: &mut Vec<Note>,
    to: u64,
) -> Result<Stop, AllocError>
    requires now { (state_of machine.old).now ≤ to }
    requires limit { to ≤ 2 ^ 61 }
    ensures state { state_of machine.new ≡ cycles_of (rule_in (setup_in machine.old)) (setup_in machine.old) (requests_in machine.old)
        (to - (state_of machine.old).now) (state_of machine.old) }
    ensures setup { setup_in machine.new ≡ setup_in machine.old }
    ensures requests { requests_in machine.new ≡ requests_in machine.old }
    ensures stop { IfOk result (λ s. Some s ≡ stop_of to (state_of machine.new)) }
    ensures notes { OnOk result (notes.new.items ≡ notes.old.items ++ noted (state_of machine.old) (state_of machine.new)) }
{
    let (cycle, misses, start) = (
        machine.now(),
        machine.facts().misses,
        machine.window().start,
    );
    let stop = machine.run_to(to);
    let mode = machine.mode();
    push_window(notes, start, mode, machine.window())?;
    push_misses(notes, misses, machine.facts().misses, mode, cycle)?;
    Ok(stop)
}

/// Whether the run went on when it came to its limit.
fn goes_on(stop: Stop) -> bool
    ensures { result ≡ goes_on stop }
{
    match stop {
        Stop::Limit => true,
        Stop::Finished | Stop::Trap { .. } | Stop::LogFull { .. } => false,
    }
}

/// Whether there is another turn behind this cycle.
fn has_turn(at: u64, limit: u64, stop: Stop) -> bool
    ensures { result ≡ (nat_lt at limit && goes_on stop) }
{
    at < limit && goes_on(stop)
}

/// The cycle up to which the machine goes in one turn: past one cycle, or past all that are dull.
fn turn_end<P: Policy>(machine: &Machine<P>, at: u64, limit: u64) -> u64
    requires now { (state_of machine.now).now ≡ at }
    requires going { is_over (state_of machine.now) ≡ false }
    requires before { at < limit }
    requires limit { limit ≤ 2 ^ 61 }
    ensures from { at < result }
    ensures within { result ≤ limit }
    ensures notes { notes_of (rule_in (setup_in machine.now)) (setup_in machine.now) (requests_in machine.now) (result - at) (state_of machine.now)
        ≡ noted (state_of machine.now) (cycles_of (rule_in (setup_in machine.now)) (setup_in machine.now) (requests_in machine.now) (result - at) (state_of machine.now)) }
{
    machine.next_event(limit).max(at + 1)
}

/// Runs an image up to a cycle, and notes when phases and idle time begin, and when the cache is missed.
///
/// Conditions: the image's policy is of this kind, the run fits the image, and the cycle is at most 2^61.
pub fn trace<P: Policy>(
    alloc: Global,
    image: &Image,
    input: &RunInput,
    limit: u64,
) -> Result<Traced<P>, AllocError>
    requires policy { image.now.plant.policy ≡ P.kind_of }
    requires fits { FitsRun (setup_of image.now) (words_of input.now) (items_of input.now.requests) }
    requires limit { limit ≤ 2 ^ 61 }
    ensures state { IfOk result (λ r. state_of r.machine ≡ image_run (rule_in (setup_of image.now)) image.now input.now limit) }
    ensures stop { IfOk result (λ r. Some r.stop ≡ stop_of limit (state_of r.machine)) }
    ensures notes { IfOk result (λ r. r.notes.items
        ≡ notes_of (rule_in (setup_of image.now)) (setup_of image.now) (items_of input.now.requests) limit (image_run (rule_in (setup_of image.now)) image.now input.now 0)) }
{
    let mut machine = Machine::<P>::new(alloc, image, input)?;
    let mut notes = Vec::new(alloc);
    let mut at = 0u64;
    let mut stop = machine.run_to(at);
    'turns: while has_turn(at, limit, stop) {
        let end = turn_end(&machine, at, limit);
        stop = go_on(&mut machine, &mut notes, end)?;
        at = end;
    }
    Ok(Traced {
        machine,
        stop,
        notes,
    })
}
