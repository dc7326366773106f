// Instructions of the cores that follow each other while neither core touches the other.
ghost use Rattle.std.specs.Prelude.{◌≡◌, ◌≢◌, ℕ, ◌+◌, ◌-◌, ◌*◌, ◌<◌, ◌≤◌, ◌^◌, Bool, IfNone, IfSome, None, Some, true, false, length};
ghost use Rattle.prem_list.specs.Sequence.{items_of};
ghost use Rattle.prem_gate.specs.declared.bus.CoreWant.{CoreWant};
ghost use Rattle.prem_gate.specs.Stretch.{is_new};
ghost use Rattle.prem_cycle.specs.State.{rule_in};
ghost use Rattle.prem_cycle.specs.Cycle.{is_full, log_size};
ghost use Rattle.prem_machine.specs.Issue.Near.{IsNear};
ghost use Rattle.prem_machine.specs.Log.{put_out};
ghost use Rattle.prem_machine.specs.Parts.{IsSetting, Stands, state_of};
ghost use Rattle.prem_machine.specs.Work.{setup_in};
ghost use Rattle.prem_pair.specs.Cycles.Own.{IsGoing, OwnCycle, OwnRun};
ghost use Rattle.prem_pair.specs.Sides.{Arrives, Goes};

use crate::both::{Both, tick};
use crate::passing::{cycle_behind, next_arrival, pass_with, rest_with};
use crate::side::act;
use crate::token::{holder_after, is_first, is_gates, is_second};
use prem_gate::{CoreWant, Request};
use prem_isa::Change;
use prem_lru::Policy;
use prem_machine::{Mode, Near, Owed, Parts, Setting, issue_plain, owed_for, room_left};
use prem_plant::TaskId;

/// The task that runs in an interval that goes on, and owes no transaction, if there is one.
fn going_task<P: Policy>(parts: &Parts<P>) -> Option<TaskId>
    ensures { IfSome result (λ task. IsGoing task (state_of parts.entry.now)) }
{
    let moment = &parts.moment;
    let Mode::Running { task } = moment.mode else {
        return None;
    };
    if moment.stays() && !parts.core.has_begun() && !parts.core.wants_bus() {
        return Some(task);
    }
    None
}

/// Whether it is to begin a transaction.
fn is_new(want: CoreWant) -> bool
    ensures { result ≡ is_new want }
{
    matches!(want, CoreWant::New)
}

/// The next instruction of a task that owes nothing, where it goes on in its interval: it issues in a cycle of its own.
/// It answers whether the task goes on so behind it. Of any other instruction nothing changes.
#[inline(never)]
fn issue_own<P: Policy>(
    setting: &Setting,
    requests: &[Request],
    parts: &mut Parts<P>,
    task: TaskId,
    near: &mut Near,
) -> Option<bool>
    requires setting { IsSetting setting.now requests.now }
    requires stands { Stands setting.now requests.now parts.old }
    requires goes { Goes (4 * parts.old.now) parts.old }
    requires now { parts.old.now < 2 ^ 61 }
    requires trapped { parts.old.trapped ≡ None }
    requires going { IsGoing task (state_of parts.old) }
    requires paid { parts.old.core.debt.cost ≡ 0 }
    requires room { put_out (items_of parts.old.facts.tasks) < log_size }
    requires intervals { length (items_of parts.old.facts.intervals) < log_size }
    requires near { IsNear parts.old.work.cache near.old.line }
    ensures own { IfSome result (λ more. (holds : Bool)
        → OwnCycle (rule_in (setup_in setting.now)) (setup_in setting.now) holds CoreWant.No (state_of parts.old) (state_of parts.new)) }
    ensures stands { Stands setting.now requests.now parts.new }
    ensures goes { Goes (4 * parts.new.now) parts.new }
    ensures arrives { (t : ℕ) → Arrives t requests.now parts.old → Arrives t requests.now parts.new }
    ensures gates { parts.new.gates ≡ parts.old.gates }
    ensures trapped { parts.new.trapped ≡ None }
    ensures near { IsNear parts.new.work.cache near.new.line }
    ensures more { result ≡ Some true → IsGoing task (state_of parts.new) }
    ensures now { IfSome result (λ more. parts.new.now ≡ parts.old.now + 1) }
    ensures put { put_out (items_of parts.new.facts.tasks) ≤ put_out (items_of parts.old.facts.tasks) + 1 }
    ensures intervals { items_of parts.new.facts.intervals ≡ items_of parts.old.facts.intervals }
    ensures none { IfNone result (parts.new ≡ parts.old) }
{
    let k = usize::from(task);
    let most = u64::MAX;
    let Some(plain) = issue_plain::<P, false>(
        k,
        most,
        setting,
        &mut parts.work,
        near,
        &mut parts.facts,
    ) else {
        return None;
    };
    if plain.hit {
        parts.core.owe(Owed::cost_alone(plain.cost - 1));
        parts.now += 1;
        return Some(true);
    }
    let owed = owed_for(&setting.plant, &plain.touches, plain.cost);
    let interval = parts.moment.interval;
    parts.moment = parts.moment.issued(parts.now, task, interval, Change::Stay);
    parts.core.owe(owed);
    parts.now += 1;
    Some(false)
}

/// A cycle of its own of a core that runs: it pays one of its cost, or its next instruction issues and goes on in its
/// interval. It answers whether the task goes on so behind it. Where neither can be, nothing changes.
#[inline(always)]
fn own_cycle<P: Policy>(
    setting: &Setting,
    requests: &[Request],
    parts: &mut Parts<P>,
    task: TaskId,
    near: &mut Near,
) -> Option<bool>
    requires setting { IsSetting setting.now requests.now }
    requires stands { Stands setting.now requests.now parts.old }
    requires goes { Goes (4 * parts.old.now) parts.old }
    requires now { parts.old.now < 2 ^ 61 }
    requires trapped { parts.old.trapped ≡ None }
    requires going { IsGoing task (state_of parts.old) }
    requires room { put_out (items_of parts.old.facts.tasks) < log_size }
    requires intervals { length (items_of parts.old.facts.intervals) < log_size }
    requires near { IsNear parts.old.work.cache near.old.line }
    ensures own { IfSome result (λ more. (holds : Bool)
        → OwnCycle (rule_in (setup_in setting.now)) (setup_in setting.now) holds CoreWant.No (state_of parts.old) (state_of parts.new)) }
    ensures stands { Stands setting.now requests.now parts.new }
    ensures goes { Goes (4 * parts.new.now) parts.new }
    ensures arrives { (t : ℕ) → Arrives t requests.now parts.old → Arrives t requests.now parts.new }
    ensures gates { parts.new.gates ≡ parts.old.gates }
    ensures trapped { parts.new.trapped ≡ None }
    ensures near { IsNear parts.new.work.cache near.new.line }
    ensures more { result ≡ Some true → IsGoing task (state_of parts.new) }
    ensures now { IfSome result (λ more. parts.new.now ≡ parts.old.now + 1) }
    ensures put { put_out (items_of parts.new.facts.tasks) ≤ put_out (items_of parts.old.facts.tasks) + 1 }
    ensures intervals { items_of parts.new.facts.intervals ≡ items_of parts.old.facts.intervals }
    ensures none { IfNone result (parts.new ≡ parts.old) }
{
    if parts.core.cost() == 0 {
        return issue_own(setting, requests, parts, task, near);
    }
    parts.core.pay(false);
    parts.now += 1;
    Some(true)
}

/// Cycles of its own of a core that runs, up to this one at most.
#[inline(never)]
fn run_own<P: Policy>(
    setting: &Setting,
    requests: &[Request],
    parts: &mut Parts<P>,
    task: TaskId,
    until: u64,
)
    requires setting { IsSetting setting.now requests.now }
    requires stands { Stands setting.now requests.now parts.old }
    requires goes { Goes (4 * parts.old.now) parts.old }
    requires now { parts.old.now ≤ until }
    requires until { until ≤ 2 ^ 61 }
    requires trapped { parts.old.trapped ≡ None }
    requires going { IsGoing task (state_of parts.old) }
    requires full { is_full (state_of parts.old) ≡ false }
    ensures own { (holds : Bool) → OwnRun (rule_in (setup_in setting.now)) (setup_in setting.now) holds CoreWant.No (state_of parts.old)
        (parts.new.now - parts.old.now) (state_of parts.new) }
    ensures stands { Stands setting.now requests.now parts.new }
    ensures goes { Goes (4 * parts.new.now) parts.new }
    ensures arrives { (t : ℕ) → Arrives t requests.now parts.old → Arrives t requests.now parts.new }
    ensures gates { parts.new.gates ≡ parts.old.gates }
    ensures trapped { parts.new.trapped ≡ None }
    ensures from { parts.old.now ≤ parts.new.now }
    ensures within { parts.new.now ≤ until }
{
    let mut near = Near::none();
    let mut left = room_left(parts.facts.tasks.items());
    'cycles: while left > 0 && parts.now < until {
        let Some(more) = own_cycle(setting, requests, parts, task, &mut near) else {
            return;
        };
        if !more {
            return;
        }
        left -= 1;
    }
}

impl<P: Policy, Q: Policy> Both<P, Q> {
    ghost use Rattle.std.specs.Prelude.{◌≡◌, ◌≢◌, ◌+◌, ◌-◌, ◌*◌, ◌<◌, ◌≤◌, ◌^◌, [], IfSome, None, false, true, length};
    ghost use Rattle.std.specs.List.Sorted.{IsNonDecreasingBy};
    ghost use Rattle.prem_list.specs.Sequence.{items_of};
    ghost use Rattle.prem_gate.specs.declared.bus.CoreWant.{CoreWant};
    ghost use Rattle.prem_cycle.specs.State.{Setup, rule_in};
    ghost use Rattle.prem_cycle.specs.Core.{want_of};
    ghost use Rattle.prem_cycle.specs.Cycle.{is_full};
    ghost use Rattle.prem_machine.specs.Issue.Near.{IsNear};
    ghost use Rattle.prem_machine.specs.Log.{put_out};
    ghost use Rattle.prem_machine.specs.Parts.{IsSetting, Stands, state_of};
    ghost use Rattle.prem_machine.specs.Work.{setup_in};
    ghost use Rattle.prem_pair.specs.declared.cycles.state.Holder.{Holder};
    ghost use Rattle.prem_pair.specs.Cycles.Token.{is_first};
    ghost use Rattle.prem_pair.specs.Cycles.Apart.{AreApart};
    ghost use Rattle.prem_pair.specs.Cycles.Own.{IsGoing, OwnCycle};
    ghost use Rattle.prem_pair.specs.Cycles.Pair.{PairState, is_pair_over, one_trapped, pair_cycle, pair_cycles};
    ghost use Rattle.prem_pair.specs.MayStretch.{MayStretch, cycles_taken};
    ghost use Rattle.prem_pair.specs.Sides.{Arrives, Goes};
    ghost use Rattle.prem_pair.specs.BothOf.{AreBoth, GoOn, pair_of};

    /// The cycle up to which neither core touches the other, at most the limit, where that is so now.
    fn apart_until(&self, requests: &[Request], limit: u64) -> Option<u64>
        requires order { IsNonDecreasingBy (λ r. r.cycle) requests.now }
        requires goes { GoOn requests.now self.now }
        requires few { length self.now.first.gates.gates ≤ 8 }
        requires limit { self.now.first.now ≤ limit }
        ensures may { IfSome result (λ until. MayStretch until requests.now (pair_of self.now)) }
        ensures within { IfSome result (λ until. until ≤ limit) }
    {
        if is_gates(self.holder) || self.clashes() {
            return None;
        }
        if is_new(self.wanted()) || !self.stays() {
            return None;
        }
        Some(next_arrival(requests, self.first.arrived, limit))
    }

    /// Whether an instruction has trapped.
    pub fn has_trapped(&self) -> bool
        ensures { result ≡ one_trapped (pair_of self.now) }
    {
        self.first.trapped.is_some() || self.second.trapped.is_some()
    }

    /// Core 0 runs while core 1 rests.
    fn first_runs(
        &mut self,
        first: &Setting,
        second: &Setting,
        requests: &[Request],
        task: TaskId,
        until: u64,
    )
        requires one { IsSetting first.now requests.now }
        requires two { IsSetting second.now [] }
        requires stands { AreBoth first.now second.now requests.now self.old }
        requires goes { GoOn requests.now self.old }
        requires over { is_pair_over (pair_of self.old) ≡ false }
        requires may { MayStretch until requests.now (pair_of self.old) }
        requires now { self.old.first.now < 2 ^ 61 }
        requires until { until ≤ 2 ^ 61 }
        requires going { IsGoing task (state_of self.old.first) }
        ensures state { pair_of self.new ≡ pair_cycles (rule_in (setup_in first.now)) (rule_in (setup_in second.now)) (setup_in first.now) (setup_in second.now) requests.now
            (self.new.first.now - self.old.first.now) (pair_of self.old) }
        ensures stands { AreBoth first.now second.now requests.now self.new }
        ensures goes { GoOn requests.now self.new }
        ensures from { self.old.first.now ≤ self.new.first.now }
        ensures within { self.new.first.now ≤ until }
        ensures trapped { one_trapped (pair_of self.new) ≡ false }
    {
        let holds = is_second(self.holder);
        let rest = rest_with(&self.second, holds);
        let until = cycle_behind(self.first.now, until, rest);
        run_own(first, requests, &mut self.first, task, until);
        pass_with(second, &[], &mut self.second, holds, self.first.now);
    }

    /// Core 1 runs while core 0 rests.
    fn second_runs(
        &mut self,
        first: &Setting,
        second: &Setting,
        requests: &[Request],
        task: TaskId,
        until: u64,
    )
        requires one { IsSetting first.now requests.now }
        requires two { IsSetting second.now [] }
        requires stands { AreBoth first.now second.now requests.now self.old }
        requires goes { GoOn requests.now self.old }
        requires over { is_pair_over (pair_of self.old) ≡ false }
        requires may { MayStretch until requests.now (pair_of self.old) }
        requires now { self.old.first.now < 2 ^ 61 }
        requires until { until ≤ 2 ^ 61 }
        requires going { IsGoing task (state_of self.old.second) }
        ensures state { pair_of self.new ≡ pair_cycles (rule_in (setup_in first.now)) (rule_in (setup_in second.now)) (setup_in first.now) (setup_in second.now) requests.now
            (self.new.first.now - self.old.first.now) (pair_of self.old) }
        ensures stands { AreBoth first.now second.now requests.now self.new }
        ensures goes { GoOn requests.now self.new }
        ensures from { self.old.first.now ≤ self.new.first.now }
        ensures within { self.new.first.now ≤ until }
        ensures trapped { one_trapped (pair_of self.new) ≡ false }
    {
        let holds = is_first(self.holder);
        let rest = rest_with(&self.first, holds);
        let until = cycle_behind(self.first.now, until, rest);
        run_own(second, &[], &mut self.second, task, until);
        pass_with(first, requests, &mut self.first, holds, self.second.now);
    }

    /// Core 1 does the cycle that core 0 has done: where its instruction traps, core 0 hasn't counted it.
    #[inline(never)]
    fn catch_up(&mut self, first: &Setting, second: &Setting, requests: &[Request])
        requires two { IsSetting second.now [] }
        requires stands { Stands first.now requests.now self.old.first }
        requires other_stands { Stands second.now [] self.old.second }
        requires goes { Goes (4 * self.old.first.now) self.old.first }
        requires other_goes { Goes (4 * self.old.second.now) self.old.second }
        requires arrives { Arrives self.old.first.now requests.now self.old.first }
        requires free { self.old.first.gates.carried ≡ None }
        requires gates { self.old.holder ≢ Holder.Gates }
        requires wants { want_of (state_of self.old.second).core.debt ≡ CoreWant.No }
        requires trapped { self.old.first.trapped ≡ None }
        requires full { is_full (state_of self.old.second) ≡ false }
        requires now { self.old.second.now < 2 ^ 61 }
        requires next { self.old.first.now ≡ self.old.second.now + 1 }
        ensures state { (p : Setup) (s : PairState) → s.second ≡ state_of self.old.second → s.holder ≡ self.old.holder → AreApart requests.now s
            → OwnCycle (rule_in p) p (is_first s.holder) CoreWant.No s.first (state_of self.old.first)
            → pair_of self.new ≡ pair_cycle (rule_in p) (rule_in (setup_in second.now)) p (setup_in second.now) requests.now s }
        ensures stands { AreBoth first.now second.now requests.now self.new }
        ensures goes { one_trapped (pair_of self.new) ≡ false → GoOn requests.now self.new }
        ensures goes_on { one_trapped (pair_of self.new) ≡ false → self.new.first.now ≡ self.old.first.now }
        ensures stops { one_trapped (pair_of self.new) ≡ true → self.new.first.now ≡ self.old.second.now }
    {
        let holder = self.holder;
        act(second, &[], &mut self.second, is_second(holder), false);
        if self.second.trapped.is_some() {
            self.first.now -= 1;
            return;
        }
        tick(second, &[], &mut self.second);
        self.holder = holder_after(holder, &self.first.moment, &self.second.moment, false);
    }

    /// A cycle of both, where they run and this cycle hasn't come. It answers whether both go on so behind it.
    #[inline(always)]
    fn both_step(
        &mut self,
        first: &Setting,
        second: &Setting,
        requests: &[Request],
        task: TaskId,
        other: TaskId,
        near: &mut Near,
        other_near: &mut Near,
        until: u64,
    ) -> bool
        requires one { IsSetting first.now requests.now }
        requires two { IsSetting second.now [] }
        requires stands { AreBoth first.now second.now requests.now self.old }
        requires goes { GoOn requests.now self.old }
        requires over { is_pair_over (pair_of self.old) ≡ false }
        requires may { MayStretch until requests.now (pair_of self.old) }
        requires until { until ≤ 2 ^ 61 }
        requires going { IsGoing task (state_of self.old.first) }
        requires other_going { IsGoing other (state_of self.old.second) }
        requires near { IsNear self.old.first.work.cache near.old.line }
        requires other_near { IsNear self.old.second.work.cache other_near.old.line }
        ensures state { pair_of self.new ≡ pair_cycles (rule_in (setup_in first.now)) (rule_in (setup_in second.now)) (setup_in first.now) (setup_in second.now) requests.now
            (cycles_taken (pair_of self.old) (pair_of self.new)) (pair_of self.old) }
        ensures stands { AreBoth first.now second.now requests.now self.new }
        ensures goes { one_trapped (pair_of self.new) ≡ false → GoOn requests.now self.new }
        ensures from { self.old.first.now ≤ self.new.first.now }
        ensures within { self.new.first.now ≤ until }
        ensures early { one_trapped (pair_of self.new) ≡ true → self.new.first.now < until }
        ensures trapped { result ≡ true → one_trapped (pair_of self.new) ≡ false }
        ensures may { result ≡ true → MayStretch until requests.now (pair_of self.new) }
        ensures going { result ≡ true → IsGoing task (state_of self.new.first) }
        ensures other_going { result ≡ true → IsGoing other (state_of self.new.second) }
        ensures put { result ≡ true → put_out (items_of self.new.first.facts.tasks) ≤ put_out (items_of self.old.first.facts.tasks) + 1 }
        ensures other_put { result ≡ true → put_out (items_of self.new.second.facts.tasks) ≤ put_out (items_of self.old.second.facts.tasks) + 1 }
        ensures intervals { result ≡ true → items_of self.new.first.facts.intervals ≡ items_of self.old.first.facts.intervals }
        ensures other_intervals { result ≡ true → items_of self.new.second.facts.intervals ≡ items_of self.old.second.facts.intervals }
        ensures near { result ≡ true → IsNear self.new.first.work.cache near.new.line }
        ensures other_near { result ≡ true → IsNear self.new.second.work.cache other_near.new.line }
    {
        if self.first.now >= until {
            return false;
        }
        let Some(one) = own_cycle(first, requests, &mut self.first, task, near) else {
            return false;
        };
        let Some(two) = own_cycle(second, &[], &mut self.second, other, other_near) else {
            self.catch_up(first, second, requests);
            return false;
        };
        one && two
    }

    /// Both run.
    #[inline(never)]
    fn both_run(
        &mut self,
        first: &Setting,
        second: &Setting,
        requests: &[Request],
        task: TaskId,
        other: TaskId,
        until: u64,
    )
        requires one { IsSetting first.now requests.now }
        requires two { IsSetting second.now [] }
        requires stands { AreBoth first.now second.now requests.now self.old }
        requires goes { GoOn requests.now self.old }
        requires over { is_pair_over (pair_of self.old) ≡ false }
        requires may { MayStretch until requests.now (pair_of self.old) }
        requires until { until ≤ 2 ^ 61 }
        requires going { IsGoing task (state_of self.old.first) }
        requires other_going { IsGoing other (state_of self.old.second) }
        ensures state { pair_of self.new ≡ pair_cycles (rule_in (setup_in first.now)) (rule_in (setup_in second.now)) (setup_in first.now) (setup_in second.now) requests.now
            (cycles_taken (pair_of self.old) (pair_of self.new)) (pair_of self.old) }
        ensures stands { AreBoth first.now second.now requests.now self.new }
        ensures goes { one_trapped (pair_of self.new) ≡ false → GoOn requests.now self.new }
        ensures from { self.old.first.now ≤ self.new.first.now }
        ensures within { self.new.first.now ≤ until }
        ensures early { one_trapped (pair_of self.new) ≡ true → self.new.first.now < until }
    {
        let mut near = Near::none();
        let mut other_near = Near::none();
        let first_left = room_left(self.first.facts.tasks.items());
        let second_left = room_left(self.second.facts.tasks.items());
        let mut left = first_left.min(second_left);
        'cycles: while left > 0 {
            if !self.both_step(
                first,
                second,
                requests,
                task,
                other,
                &mut near,
                &mut other_near,
                until,
            ) {
                return;
            }
            left -= 1;
        }
    }

    /// Instructions that follow each other while neither core touches the other, up to the limit; none where something
    /// else comes first.
    pub fn stretch(&mut self, first: &Setting, second: &Setting, requests: &[Request], limit: u64)
        requires one { IsSetting first.now requests.now }
        requires two { IsSetting second.now [] }
        requires stands { AreBoth first.now second.now requests.now self.old }
        requires goes { GoOn requests.now self.old }
        requires over { is_pair_over (pair_of self.old) ≡ false }
        requires now { self.old.first.now < limit }
        requires limit { limit ≤ 2 ^ 61 }
        ensures state { pair_of self.new ≡ pair_cycles (rule_in (setup_in first.now)) (rule_in (setup_in second.now)) (setup_in first.now) (setup_in second.now) requests.now
            (cycles_taken (pair_of self.old) (pair_of self.new)) (pair_of self.old) }
        ensures stands { AreBoth first.now second.now requests.now self.new }
        ensures goes { one_trapped (pair_of self.new) ≡ false → GoOn requests.now self.new }
        ensures from { self.old.first.now ≤ self.new.first.now }
        ensures within { self.new.first.now ≤ limit }
        ensures early { one_trapped (pair_of self.new) ≡ true → self.new.first.now < limit }
    {
        let one = going_task(&self.first);
        let two = going_task(&self.second);
        if one.is_none() && two.is_none() {
            return;
        }
        let Some(until) = self.apart_until(requests, limit) else {
            return;
        };
        match (one, two) {
            (Some(task), None) => self.first_runs(first, second, requests, task, until),
            (None, Some(task)) => self.second_runs(first, second, requests, task, until),
            (Some(task), Some(other)) => {
                self.both_run(first, second, requests, task, other, until)
            }
            (None, None) => {}
        }
    }
}
