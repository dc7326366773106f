// Cycles of both cores in which nothing but time goes on, passed over at once.
ghost use Rattle.std.specs.Prelude.{◌≡◌, ℕ, ◌+◌, ◌-◌, ◌*◌, ◌<◌, ◌≤◌, ◌^◌};
ghost use Rattle.std.specs.List.Sorted.{IsNonDecreasingBy};
ghost use Rattle.prem_cycle.specs.Runs.Dull.Rest.{Within};
ghost use Rattle.prem_machine.specs.Parts.{Stands, state_of};
ghost use Rattle.prem_machine.specs.Passing.{IsNextArrival, cycle_behind};
ghost use Rattle.prem_machine.specs.Requests.{HaveArrived};
ghost use Rattle.prem_pair.specs.Cycles.Rest.{rest_with, side_passed, waiting_rest};
ghost use Rattle.prem_pair.specs.Sides.{Arrives, Goes};

use crate::both::Both;
use crate::cycles::Holder;
use crate::token::{
    asks, frees, is_first, is_gates, is_second, is_wanted, some_wait, two_want, want_with,
};
use prem_gate::{CoreWant, Request, Window};
use prem_lru::Policy;
use prem_machine::{Mode, Parts, Setting, is_finished};

/// No cycle: the gates may start nothing.
const CLOSED: Window = Window { start: 1, close: 0 };

/// Of requests in order of cycle, of which so many have arrived, the cycle of the next one, or the limit if that is less.
pub(crate) fn next_arrival(requests: &[Request], arrived: usize, limit: u64) -> u64
    requires { IsNonDecreasingBy (λ r. r.cycle) requests.now }
    ensures { (now : ℕ) → HaveArrived now arrived requests.now → now ≤ limit → IsNextArrival now limit requests.now result }
{
    if arrived < requests.len() {
        limit.min(requests[arrived].cycle)
    } else {
        limit
    }
}

/// The cycle behind so many, if it is told how many, or the limit if that is less.
pub(crate) fn cycle_behind(now: u64, limit: u64, cycles: Option<u64>) -> u64
    requires { now ≤ limit }
    ensures { result ≡ cycle_behind now limit cycles }
{
    match cycles {
        Some(n) => now + n.min(limit - now),
        None => limit,
    }
}

/// How many cycles a core rests that owes a transaction and hasn't the token.
fn waiting_rest(now: u64, mode: Mode) -> Option<u64>
    requires { now < 2 ^ 62 }
    ensures { result ≡ waiting_rest now mode }
{
    match mode {
        Mode::Point => Some(0),
        Mode::Switching { .. } | Mode::Running { .. } => None,
        Mode::Idle { until } => Some(until.saturating_sub(now + 1)),
    }
}

/// How many cycles a core rests that holds the token or doesn't, if it does so by itself.
#[inline(always)]
pub(crate) fn rest_with<P: Policy>(parts: &Parts<P>, holds: bool) -> Option<u64>
    requires now { parts.now.now < 2 ^ 61 }
    requires begun { parts.now.moment.interval.first ≤ parts.now.now }
    ensures { result ≡ rest_with holds (state_of parts.entry.now) }
{
    let now = parts.now;
    let (moment, core) = (&parts.moment, &parts.core);
    if holds {
        return moment.rest(core, now);
    }
    if asks(parts) || is_finished(now, &parts.sched, moment.mode) {
        return None;
    }
    if core.wants_bus() {
        return waiting_rest(now, moment.mode);
    }
    moment.rest(core, now)
}

/// Whether it may be worth while to ask how long a core rests: in an interval an instruction issues in most cycles.
fn may_rest<P: Policy>(parts: &Parts<P>) -> bool {
    matches!(parts.moment.mode, Mode::Point) || parts.moment.may_rest(&parts.core)
}

/// A core passes over the cycles up to this one, in which it does nothing but count.
pub(crate) fn pass_with<P: Policy>(
    setting: &Setting,
    requests: &[Request],
    parts: &mut Parts<P>,
    holds: bool,
    at: u64,
)
    requires stands { Stands setting.now requests.now parts.old }
    requires goes { Goes (4 * parts.old.now + (at - parts.old.now)) parts.old }
    requires rests { Within (at - parts.old.now) (rest_with holds (state_of parts.old)) }
    requires from { parts.old.now ≤ at }
    requires limit { at ≤ 2 ^ 61 }
    ensures state { state_of parts.new ≡ side_passed holds (at - parts.old.now) (state_of parts.old) }
    ensures stands { Stands setting.now requests.now parts.new }
    ensures goes { Goes (4 * at) parts.new }
    ensures now { parts.new.now ≡ at }
    ensures arrives { Arrives at requests.now parts.old → Arrives at requests.now parts.new }
    ensures gates { parts.new.gates ≡ parts.old.gates }
{
    let cycles = at - parts.now;
    if holds || !parts.core.wants_bus() {
        parts.moment.pass(&mut parts.core, cycles);
    }
    parts.now = at;
}

impl<P: Policy, Q: Policy> Both<P, Q> {
    ghost use Rattle.std.specs.Prelude.{◌≡◌, ◌+◌, ◌-◌, ◌*◌, ◌<◌, ◌≤◌, ◌^◌, [], if◌then◌else◌, length};
    ghost use Rattle.std.specs.List.Sorted.{IsNonDecreasingBy};
    ghost use Rattle.prem_gate.specs.Stretch.{AreQuiet};
    ghost use Rattle.prem_cycle.specs.Runs.Dull.Rest.{NoneArrive};
    ghost use Rattle.prem_machine.specs.Parts.{Stands, state_of};
    ghost use Rattle.prem_pair.specs.Cycles.Pair.{clashes};
    ghost use Rattle.prem_pair.specs.Cycles.Rest.{PairRests, pair_passed, stays_with, turns_passed, wanted, with_turns};
    ghost use Rattle.prem_pair.specs.Cycles.Token.{empty_window};
    ghost use Rattle.prem_pair.specs.Sides.{Arrives, Goes};
    ghost use Rattle.prem_pair.specs.BothOf.{AreBoth, GoOn, IsFree, pair_of};

    /// Whether the token stays where it is in the coming cycle.
    #[inline(always)]
    pub(crate) fn stays(&self) -> bool
        requires few { length self.now.first.gates.gates ≤ 8 }
        requires free { IsFree self.now }
        ensures { result ≡ stays_with self.now.holder (pair_of self.now) }
    {
        match self.holder {
            Holder::Nobody => {
                !(asks(&self.first) || asks(&self.second) || some_wait(&self.first.gates))
            }
            Holder::First => !frees(&self.first.moment),
            Holder::Second => !frees(&self.second.moment),
            Holder::Gates => true,
        }
    }

    /// What the holder wants of the bus.
    pub(crate) fn wanted(&self) -> CoreWant
        ensures { result ≡ wanted (pair_of self.now) }
    {
        want_with(
            self.holder,
            self.first.core.wants(),
            self.second.core.wants(),
        )
    }

    /// Whether two want the bus.
    pub(crate) fn clashes(&self) -> bool
        ensures { result ≡ clashes self.now.holder (pair_of self.now) }
    {
        let first = is_wanted(self.first.core.wants());
        let second = is_wanted(self.second.core.wants());
        two_want(first, second, is_gates(self.holder))
    }

    /// Whether it may be worth while to ask how long both rest.
    pub fn may_rest(&self) -> bool {
        may_rest(&self.first) && may_rest(&self.second)
    }

    /// A cycle up to which both rest, at most the limit.
    pub fn rest(&self, requests: &[Request], limit: u64) -> u64
        requires order { IsNonDecreasingBy (λ r. r.cycle) requests.now }
        requires goes { GoOn requests.now self.now }
        requires few { length self.now.first.gates.gates ≤ 8 }
        requires same { self.now.second.now ≡ self.now.first.now }
        requires now { self.now.first.now < 2 ^ 61 }
        requires limit { self.now.first.now ≤ limit }
        ensures not_before { self.now.first.now ≤ result }
        ensures within { result ≤ limit }
        ensures rests { self.now.first.now < result → PairRests (result - self.now.first.now) requests.now (pair_of self.now) }
    {
        let now = self.first.now;
        if !self.stays() {
            return now;
        }
        let arrival = next_arrival(requests, self.first.arrived, limit);
        let first = cycle_behind(now, arrival, rest_with(&self.first, is_first(self.holder)));
        if first == now {
            return now;
        }
        let both = cycle_behind(now, first, rest_with(&self.second, is_second(self.holder)));
        if both == now {
            return now;
        }
        let want = self.wanted();
        self.first.gates.next_change(now, CLOSED, want, both)
    }

    /// The gates pass over the cycles up to this one, and clashes among them are counted.
    fn pass_turns(&mut self, first: &Setting, requests: &[Request], at: u64)
        requires stands { Stands first.now requests.now self.old.first }
        requires goes { Goes (4 * self.old.first.now) self.old.first }
        requires arrives { Arrives self.old.first.now requests.now self.old.first }
        requires free { IsFree self.old }
        requires none { NoneArrive (at - self.old.first.now) self.old.first.now requests.now }
        requires quiet { AreQuiet (at - self.old.first.now) self.old.first.now empty_window (wanted (pair_of self.old)) self.old.first.gates }
        requires from { self.old.first.now ≤ at }
        requires limit { at ≤ 2 ^ 61 }
        ensures first { let n = at - self.old.first.now in let s = pair_of self.old in
            state_of self.new.first ≡ with_turns (turns_passed n s).gates (if clashes s.holder s then n else 0) s.first }
        ensures second { self.new.second ≡ self.old.second }
        ensures holder { self.new.holder ≡ self.old.holder }
        ensures stands { Stands first.now requests.now self.new.first }
        ensures goes { Goes (4 * self.old.first.now + (at - self.old.first.now)) self.new.first }
        ensures arrives { Arrives at requests.now self.new.first }
        ensures free { IsFree self.new }
        ensures now { self.new.first.now ≡ self.old.first.now }
        ensures moment { self.new.first.moment ≡ self.old.first.moment }
        ensures core { self.new.first.core ≡ self.old.first.core }
    {
        let now = self.first.now;
        let clashes = if self.clashes() { at - now } else { 0 };
        let want = self.wanted();
        self.first.gates.pass(now, at, CLOSED, want);
        self.first.facts.clashes += clashes;
    }

    /// Passes over the cycles up to this one.
    pub fn pass(&mut self, first: &Setting, second: &Setting, requests: &[Request], at: u64)
        requires stands { AreBoth first.now second.now requests.now self.old }
        requires goes { GoOn requests.now self.old }
        requires rests { PairRests (at - self.old.first.now) requests.now (pair_of self.old) }
        requires from { self.old.first.now ≤ at }
        requires limit { at ≤ 2 ^ 61 }
        ensures state { pair_of self.new ≡ pair_passed (at - self.old.first.now) (pair_of self.old) }
        ensures stands { AreBoth first.now second.now requests.now self.new }
        ensures goes { GoOn requests.now self.new }
        ensures now { self.new.first.now ≡ at }
    {
        self.pass_turns(first, requests, at);
        let holder = self.holder;
        pass_with(first, requests, &mut self.first, is_first(holder), at);
        pass_with(second, &[], &mut self.second, is_second(holder), at);
    }
}
