// Both cores, the token, and the bus.
ghost use Rattle.std.specs.Prelude.{◌≡◌, ◌+◌, ◌*◌, ◌<◌, ◌^◌, ℕ, length};
ghost use Rattle.prem_list.specs.Sequence.{items_of, room_of};
ghost use Rattle.prem_cycle.specs.Cycle.{next_cycle};
ghost use Rattle.prem_machine.specs.Parts.{IsSetting, Stands, state_of};
ghost use Rattle.prem_pair.specs.Cycles.Pair.{ended_in_place};
ghost use Rattle.prem_pair.specs.Sides.{Arrives, Goes};

use crate::cycles::Holder;
use crate::side::act;
use crate::token::{
    holder_after, holder_now, is_first, is_gates, is_second, is_wanted, two_want, want_with,
    window_given,
};
use prem_gate::{BusTurn, Request};
use prem_lru::Policy;
use prem_machine::{Parts, Setting, deliver, log_turn, settle, tell_waiting};

/// All that changes in a run of two cores.
#[derive(Drop)]
pub(crate) struct Both<P: Policy, Q: Policy> {
    /// Core 0, with the gates and what they log.
    pub first: Parts<P>,
    /// Core 1, which has no devices.
    pub second: Parts<Q>,
    pub holder: Holder,
}

/// The cycle of a core is counted, and what is over with it ends.
pub(crate) fn tick<P: Policy>(setting: &Setting, requests: &[Request], parts: &mut Parts<P>)
    requires stands { Stands setting.now requests.now parts.old }
    requires goes { Goes (4 * parts.old.now + 3) parts.old }
    requires now { parts.old.now < 2 ^ 61 }
    requires room { length (items_of parts.old.facts.intervals) < room_of parts.old.facts.intervals }
    ensures state { state_of parts.new ≡ next_cycle (state_of parts.old) }
    ensures stands { Stands setting.now requests.now parts.new }
    ensures goes { Goes (4 * parts.new.now) parts.new }
    ensures now { parts.new.now ≡ parts.old.now + 1 }
    ensures trapped { parts.new.trapped ≡ parts.old.trapped }
    ensures arrives { (t : ℕ) → Arrives t requests.now parts.old → Arrives t requests.now parts.new }
    ensures gates { parts.new.gates ≡ parts.old.gates }
{
    parts.now += 1;
    settle(
        parts.now,
        &parts.core,
        &mut parts.moment,
        &mut parts.sched,
        &mut parts.facts,
    );
}

/// What is over with a cycle of a core ends, though the cycle isn't counted.
fn end_in_place<P: Policy>(setting: &Setting, requests: &[Request], parts: &mut Parts<P>)
    requires stands { Stands setting.now requests.now parts.old }
    requires goes { Goes (4 * parts.old.now + 3) parts.old }
    requires now { parts.old.now < 2 ^ 61 }
    requires room { length (items_of parts.old.facts.intervals) < room_of parts.old.facts.intervals }
    ensures state { state_of parts.new ≡ ended_in_place (state_of parts.old) }
    ensures stands { Stands setting.now requests.now parts.new }
    ensures now { parts.new.now ≡ parts.old.now }
    ensures trapped { parts.new.trapped ≡ parts.old.trapped }
{
    let next = parts.now + 1;
    settle(
        next,
        &parts.core,
        &mut parts.moment,
        &mut parts.sched,
        &mut parts.facts,
    );
}

impl<P: Policy, Q: Policy> Both<P, Q> {
    ghost use Rattle.std.specs.Prelude.{◌≡◌, ◌+◌, ◌*◌, ◌<◌, ◌^◌, [], true, false};
    ghost use Rattle.prem_cycle.specs.Cycle.{arrivals_at};
    ghost use Rattle.prem_cycle.specs.State.{rule_in};
    ghost use Rattle.prem_cycle.specs.Cycle.{is_full};
    ghost use Rattle.prem_machine.specs.Parts.{IsSetting, Stands, state_of};
    ghost use Rattle.prem_machine.specs.Work.{setup_in};
    ghost use Rattle.prem_pair.specs.Cycles.Pair.{bus_first, one_trapped, pair_cycle};
    ghost use Rattle.prem_pair.specs.Sides.{Arrives, Goes, bus_done};
    ghost use Rattle.prem_pair.specs.BothOf.{AreBoth, GoOn, IsFree, bus_in, holder_in, pair_of};

    /// Arrivals, the token and the bus.
    pub fn meet(&mut self, setting: &Setting, requests: &[Request]) -> BusTurn
        requires setting { IsSetting setting.now requests.now }
        requires stands { Stands setting.now requests.now self.old.first }
        requires goes { Goes (4 * self.old.first.now) self.old.first }
        requires arrives { Arrives self.old.first.now requests.now self.old.first }
        requires free { IsFree self.old }
        requires now { self.old.first.now < 2 ^ 61 }
        ensures first { let s = pair_of self.old in
            state_of self.new.first
            ≡ bus_done (arrivals_at requests.now s.first) (bus_first (holder_in requests.now s) (bus_in requests.now s) s) s.first }
        ensures second { self.new.second ≡ self.old.second }
        ensures holder { self.new.holder ≡ holder_in requests.now (pair_of self.old) }
        ensures turn { result ≡ (bus_in requests.now (pair_of self.old)).turn }
        ensures stands { Stands setting.now requests.now self.new.first }
        ensures goes { Goes (4 * self.old.first.now + 1) self.new.first }
        ensures arrives { Arrives (self.old.first.now + 1) requests.now self.new.first }
        ensures free { IsFree self.new }
        ensures now { self.new.first.now ≡ self.old.first.now }
    {
        let now = self.first.now;
        self.first.arrived = deliver(
            requests,
            self.first.arrived,
            now,
            &mut self.first.gates,
            self.first.facts.devices.items_mut(),
        );
        let before = self.holder;
        let holder = holder_now(before, &self.first, &self.second);
        let first = self.first.core.wants();
        let second = self.second.core.wants();
        let turn = self.first.gates.bus_cycle(
            now,
            window_given(now, before, holder),
            want_with(holder, first, second),
            &mut self.first.work.memory,
        );
        let clash = two_want(is_wanted(first), is_wanted(second), is_gates(holder));
        log_turn(BusTurn { clash, ..turn }, &mut self.first.facts);
        tell_waiting(&self.first.gates, self.first.facts.devices.items_mut());
        self.holder = holder;
        turn
    }

    /// One cycle. It is not counted where an instruction traps.
    pub fn cycle(&mut self, first: &Setting, second: &Setting, requests: &[Request])
        requires one { IsSetting first.now requests.now }
        requires two { IsSetting second.now [] }
        requires stands { AreBoth first.now second.now requests.now self.old }
        requires goes { GoOn requests.now self.old }
        requires now { self.old.first.now < 2 ^ 61 }
        requires full { is_full (state_of self.old.first) ≡ false }
        requires other { is_full (state_of self.old.second) ≡ false }
        ensures state { pair_of self.new
            ≡ pair_cycle (rule_in (setup_in first.now)) (rule_in (setup_in second.now)) (setup_in first.now) (setup_in second.now) requests.now (pair_of self.old) }
        ensures stands { AreBoth first.now second.now requests.now self.new }
        ensures goes { one_trapped (pair_of self.new) ≡ false → GoOn requests.now self.new }
        ensures goes_on { one_trapped (pair_of self.new) ≡ false → self.new.first.now ≡ self.old.first.now + 1 }
        ensures stops { one_trapped (pair_of self.new) ≡ true → self.new.first.now ≡ self.old.first.now }
    {
        let turn = self.meet(first, requests);
        let holder = self.holder;
        let holds = is_first(holder);
        act(first, requests, &mut self.first, holds, turn.core && holds);
        if self.first.trapped.is_some() {
            return;
        }
        let holds = is_second(holder);
        act(second, &[], &mut self.second, holds, turn.core && holds);
        if self.second.trapped.is_some() {
            end_in_place(first, requests, &mut self.first);
            return;
        }
        tick(first, requests, &mut self.first);
        tick(second, &[], &mut self.second);
        self.holder = holder_after(
            holder,
            &self.first.moment,
            &self.second.moment,
            turn.ended.is_some(),
        );
    }
}
