// What the core and the tasks do in a cycle, by the machine before it.
ghost use Rattle.std.specs.Prelude.{◌≡◌, ◌++◌, IfOk, OnOk, slice_index};
ghost use Rattle.prem_sched.specs.Schedule.{is_ready};
ghost use Rattle.prem_cycle.specs.Core.{is_paid, phase_in};
ghost use Rattle.prem_machine.specs.Parts.{state_of};
ghost use Rattle.prem_wave.specs.Signals.{away_word, bit, chosen, core_task, doing_of, each, interval_word, is_open, phase_word, predictable_word, switching, task_values_with, task_word, values_before};
ghost use Rattle.prem_wave.specs.Calls.{AreCounted};

use crate::calls::calls_at;
use crate::words::{COMPATIBLE, DONE, EXECUTION, MEMORY, RELEASED, SWITCH, WAIT};
use prem_cycle::{Interval, Mode};
use prem_gate::Window;
use prem_isa::{Change, Phase};
use prem_lru::Policy;
use prem_machine::Parts;
use prem_plant::TaskId;
use prem_sched::Choice;
use std::alloc::{AllocError, Global};

/// What the core does in a cycle.
#[derive(Clone, Copy, PartialEq, Eq, Debug)]
pub enum Doing {
    /// It idles, or all jobs have ended.
    Rests,
    /// It switches to this task.
    Switches(TaskId),
    /// The first instruction of an interval of this task issues.
    Begins(TaskId),
    /// An interval of this task goes on.
    Goes(TaskId),
}

/// In a switch that has so many cycles left. Where none is left, the first instruction issues.
fn switching(task: TaskId, left: u32) -> Doing
    ensures { result ≡ switching task left }
{
    if left == 0 {
        Doing::Begins(task)
    } else {
        Doing::Switches(task)
    }
}

/// At a scheduling point.
fn chosen(switch: u32, choice: Choice) -> Doing
    ensures { result ≡ chosen switch choice }
{
    match choice {
        Choice::Run(task) => switching(task, switch),
        Choice::Idle { .. } | Choice::Finished => Doing::Rests,
    }
}

/// What the core does in the coming cycle, where a switch takes so many.
pub fn doing_of<P: Policy>(parts: &Parts<P>, switch: u32) -> Doing
    ensures { result ≡ doing_of switch (state_of parts.entry.now) }
{
    match parts.moment.mode {
        Mode::Point => chosen(switch, parts.sched.choose(parts.now)),
        Mode::Switching { task, left } => switching(task, left),
        Mode::Running { task } => Doing::Goes(task),
        Mode::Idle { .. } => Doing::Rests,
    }
}

/// The task that has the core.
fn core_task(doing: Doing) -> Option<u64>
    ensures { result ≡ core_task doing }
{
    match doing {
        Doing::Rests => None,
        Doing::Switches(task) | Doing::Begins(task) | Doing::Goes(task) => Some(u64::from(task)),
    }
}

/// The word for a phase.
fn phase_word(phase: Phase) -> u64
    ensures { result ≡ phase_word phase }
{
    match phase {
        Phase::Compatible => COMPATIBLE,
        Phase::Memory => MEMORY,
        Phase::Execution => EXECUTION,
    }
}

/// The word for what a task does in a predictable interval behind an instruction with this change.
fn predictable_word(mark: Change, paid: bool, phase: Phase) -> u64
    ensures { result ≡ predictable_word mark paid phase }
{
    match mark {
        Change::End => { if paid { WAIT } else { EXECUTION } }
        Change::Stay | Change::Memory | Change::Execute { .. } | Change::Job => phase_word(phase),
    }
}

/// The word for what a task does in an interval.
fn interval_word(interval: Interval, mark: Change, paid: bool, phase: Phase) -> u64
    ensures { result ≡ interval_word interval mark paid phase }
{
    if interval.predictable {
        predictable_word(mark, paid, phase)
    } else {
        COMPATIBLE
    }
}

/// The word for a task without the core.
fn away_word(ready: bool) -> u64
    ensures { result ≡ away_word ready }
{
    if ready { RELEASED } else { DONE }
}

/// The word for what a task does.
fn task_word(
    doing: Doing,
    interval: Interval,
    mark: Change,
    paid: bool,
    phase: Phase,
    ready: bool,
    k: TaskId,
) -> u64
    ensures { result ≡ task_word doing interval mark paid phase ready k }
{
    match doing {
        Doing::Rests => away_word(ready),
        Doing::Switches(task) => { if task == k { SWITCH } else { away_word(ready) } }
        Doing::Begins(task) => {
            if task == k {
                phase_word(phase)
            } else {
                away_word(ready)
            }
        }
        Doing::Goes(task) => {
            if task == k {
                interval_word(interval, mark, paid, phase)
            } else {
                away_word(ready)
            }
        }
    }
}

/// Whether the core has paid all that it owes.
fn is_paid<P: Policy>(parts: &Parts<P>) -> bool
    ensures { result ≡ is_paid (state_of parts.entry.now).core.debt }
{
    !parts.core.owes()
}

/// The phase of a task.
#[tactic(auto, using(crate::proofs::Phases::phase_there, crate::proofs::Phases::phase_untold, crate::proofs::Phases::phase_none))]
fn phase_of<P: Policy>(parts: &Parts<P>, k: TaskId) -> Phase
    ensures { result ≡ phase_in (state_of parts.entry.now).work k }
{
    let k = usize::from(k);
    if k >= parts.work.cores.len() {
        return Phase::Compatible;
    }
    if k >= parts.facts.tasks.items().len() {
        return Phase::Compatible;
    }
    parts.work.cores[k].phase()
}

/// Puts what a task does, and the numbers of its job and of its marked call, behind values.
fn push_task<P: Policy>(
    values: &mut Vec<Option<u64>>,
    parts: &Parts<P>,
    calls: &[u64],
    switch: u32,
    k: TaskId,
) -> Result<(), AllocError>
    ensures { OnOk result (values.new.items ≡ values.old.items ++ task_values_with switch (state_of parts.entry.now) (slice_index calls.now k) k) }
{
    let word = task_word(
        doing_of(parts, switch),
        parts.moment.interval,
        parts.moment.mark,
        is_paid(parts),
        phase_of(parts, k),
        parts.sched.is_ready(k, parts.now),
        k,
    );
    values.push(Some(word))?;
    values.push(Some(u64::from(parts.sched.ended(k))))?;
    values.push(Some(calls_at(calls, k)))?;
    Ok(())
}

/// Puts what each of so many tasks does behind values.
fn push_tasks<P: Policy>(
    values: &mut Vec<Option<u64>>,
    parts: &Parts<P>,
    calls: &[u64],
    switch: u32,
    tasks: u16,
) -> Result<(), AllocError>
    ensures { OnOk result (values.new.items ≡ values.old.items ++ each (λ k. task_values_with switch (state_of parts.entry.now) (slice_index calls.now k) k) tasks) }
{
    'tasks: for k in 0..tasks {
        push_task(values, parts, calls, switch, k)?;
    }
    Ok(())
}

/// Whether a window is open.
fn is_open(now: u64, window: Window) -> bool
    ensures { result ≡ is_open now window }
{
    window.start <= now && now < window.close
}

/// A bit.
pub fn bit(b: bool) -> u64
    ensures { result ≡ bit b }
{
    if b { 1 } else { 0 }
}

/// The values that the machine shows before a cycle, with so many tasks and where a switch takes so many cycles. The marked calls of the tasks
/// have been counted.
pub fn values_before<P: Policy>(
    alloc: Global,
    parts: &Parts<P>,
    calls: &[u64],
    switch: u32,
    tasks: u16,
) -> Result<Vec<Option<u64>>, AllocError>
    requires { AreCounted tasks (state_of parts.now).log.intervals calls.now }
    ensures { IfOk result (λ values. values.items ≡ values_before switch tasks (state_of parts.entry.now)) }
{
    let mut values = Vec::new(alloc);
    values.push(core_task(doing_of(parts, switch)))?;
    values.push(Some(bit(is_open(parts.now, parts.moment.window))))?;
    push_tasks(&mut values, parts, calls, switch, tasks)?;
    Ok(values)
}
