// Who holds the memory token in a cycle, and what the gates may start.
ghost use Rattle.std.specs.Prelude.{◌≡◌, ◌≢◌, ◌<◌, ◌≤◌, ◌^◌, None, length};
ghost use Rattle.prem_gate.specs.Gates.{wants};
ghost use Rattle.prem_cycle.specs.State.{Debt};
ghost use Rattle.prem_machine.specs.Moment.{core_with};
ghost use Rattle.prem_machine.specs.Parts.{state_of};
ghost use Rattle.prem_pair.specs.declared.cycles.state.Holder.{Holder};
ghost use Rattle.prem_pair.specs.Cycles.Token.{asks, frees_in, holder_after, holder_with, is_first, is_gates, is_second, some_wait, two_want, want_with, window_given};

use crate::cycles::Holder;
use prem_gate::{CoreWant, Gates, Window};
use prem_isa::Change;
use prem_lru::Policy;
use prem_machine::{Mode, Moment, Parts};
use prem_sched::Choice;

/// As many cycles as the dearest transfer may take.
const LONGEST: u64 = 100_000;

/// Whether a core asks for the token: it stands at a scheduling point with a ready task.
pub(crate) fn asks<P: Policy>(parts: &Parts<P>) -> bool
    ensures { result ≡ asks (state_of parts.entry.now) }
{
    match parts.moment.mode {
        Mode::Point => matches!(parts.sched.choose(parts.now), Choice::Run(_)),
        Mode::Switching { .. } | Mode::Running { .. } | Mode::Idle { .. } => false,
    }
}

/// Whether a request waits, where nothing is carried.
pub(crate) fn some_wait(gates: &Gates) -> bool
    requires few { length gates.now.gates ≤ 8 }
    requires free { gates.now.carried ≡ None }
    ensures { result ≡ some_wait gates.now.gates }
{
    for device in 0..8 {
        match gates.waiting(device) {
            Some(0) => {}
            Some(_) => return true,
            None => return false,
        }
    }
    false
}

/// Who holds the token in a cycle, behind its arrivals: whoever held it keeps it, and a free one goes to the first of
/// core 0, core 1 and the gates that asks.
pub(crate) fn holder_now<P: Policy, Q: Policy>(
    before: Holder,
    first: &Parts<P>,
    second: &Parts<Q>,
) -> Holder
    requires few { length first.now.gates.gates ≤ 8 }
    requires free { before ≢ Holder.Gates → first.now.gates.carried ≡ None }
    ensures { result ≡ holder_with before (asks (state_of first.entry.now)) (asks (state_of second.entry.now)) (some_wait first.entry.now.gates.gates) }
{
    match before {
        Holder::Nobody => {
            if asks(first) {
                Holder::First
            } else if asks(second) {
                Holder::Second
            } else if some_wait(&first.gates) {
                Holder::Gates
            } else {
                Holder::Nobody
            }
        }
        Holder::First | Holder::Second | Holder::Gates => before,
    }
}

/// The window of the gates: open in the cycle in which they get the token.
pub(crate) fn window_given(now: u64, before: Holder, after: Holder) -> Window
    requires { now < 2 ^ 61 }
    ensures { result ≡ window_given now before after }
{
    match (before, after) {
        (Holder::Nobody, Holder::Gates) => Window {
            start: now,
            close: now + LONGEST,
        },
        _ => Window { start: 1, close: 0 },
    }
}

/// What the holder wants of the bus.
pub(crate) fn want_with(holder: Holder, first: CoreWant, second: CoreWant) -> CoreWant
    ensures { result ≡ want_with holder first second }
{
    match holder {
        Holder::First => first,
        Holder::Second => second,
        Holder::Nobody | Holder::Gates => CoreWant::No,
    }
}

/// Whether two of the cores and the gates want the bus.
pub(crate) fn two_want(first: bool, second: bool, gates: bool) -> bool
    ensures { result ≡ two_want first second gates }
{
    (first && second) || (first && gates) || (second && gates)
}

/// Whether a core frees the token: it stands at a scheduling point, or its last instruction was a `pm.exec`.
pub(crate) fn frees(moment: &Moment) -> bool
    ensures { result ≡ frees_in moment.now.mode moment.now.mark }
{
    match moment.mode {
        Mode::Point => true,
        Mode::Running { .. } => matches!(moment.mark, Change::Execute { .. }),
        Mode::Switching { .. } | Mode::Idle { .. } => false,
    }
}

/// Who holds the token behind a cycle that leaves the cores so, and that was a transfer's last one or not.
pub(crate) fn holder_after(holder: Holder, first: &Moment, second: &Moment, ended: bool) -> Holder
    ensures { (one two : Debt) → result ≡ holder_after holder (core_with one first.now) (core_with two second.now) ended }
{
    match holder {
        Holder::First => {
            if frees(first) {
                return Holder::Nobody;
            }
        }
        Holder::Second => {
            if frees(second) {
                return Holder::Nobody;
            }
        }
        Holder::Gates => {
            if ended {
                return Holder::Nobody;
            }
        }
        Holder::Nobody => {}
    }
    holder
}

/// Whether core 0 holds it.
pub(crate) fn is_first(holder: Holder) -> bool
    ensures { result ≡ is_first holder }
{
    matches!(holder, Holder::First)
}

/// Whether core 1 holds it.
pub(crate) fn is_second(holder: Holder) -> bool
    ensures { result ≡ is_second holder }
{
    matches!(holder, Holder::Second)
}

/// Whether the gates hold it.
pub(crate) fn is_gates(holder: Holder) -> bool
    ensures { result ≡ is_gates holder }
{
    matches!(holder, Holder::Gates)
}

/// Whether a core wants the bus.
pub(crate) fn is_wanted(want: CoreWant) -> bool
    ensures { result ≡ wants want }
{
    !matches!(want, CoreWant::No)
}
