// Two cores in the middle of a run.

use crate::both::Both;
use crate::cycles::{Holder, PairStop};
use prem_cycle::{Facts, Trap};
use prem_gate::{Request, RunInput};
use prem_image::Image;
use prem_lru::Policy;
use prem_machine::{LOG, Setting, are_full, first_parts, is_finished, requests, setting};
use std::alloc::{AllocError, Global};
use std::marker::Model;

/// Two cores in the middle of a run of two images, with one bus.
///
/// Contracts see what the run never changes on each core, the requests of the devices of the first image, and the
/// state as it is defined.
#[derive(Drop)]
pub struct Pair<P: Policy, Q: Policy> {
    first: Setting,
    second: Setting,
    /// In order of cycle.
    requests: Vec<Request>,
    both: Both<P, Q>,
}

impl<P: Policy, Q: Policy> Model for Pair<P, Q> {
    ghost use Rattle.prem_pair.specs.States.{PairRunning};
    ghost use Rattle.prem_pair.specs.PairFields.{IsPair, running_of};

    ghost Value = { PairRunning };

    ghost view = { running_of };

    ghost invariant = { IsPair };
}

impl<P: Policy, Q: Policy> Pair<P, Q> {
    ghost use Rattle.std.specs.Prelude.{◌≡◌, ◌+◌, ◌-◌, ◌<◌, ◌≤◌, ◌^◌, None, Some, [], false, true};
    ghost use Rattle.std.specs.Prelude.{IfOk, option_map};
    ghost use Rattle.prem_list.specs.Sequence.{items_of};
    ghost use Rattle.prem_cycle.specs.Inputs.{FitsRun, setup_of, words_of};
    ghost use Rattle.prem_cycle.specs.FactsOf.{report_in, report_of};
    ghost use Rattle.prem_cycle.specs.State.{rule_in};
    ghost use Rattle.prem_pair.specs.Cycles.Pair.{is_pair_over, one_trapped, pair_cycle, pair_cycles, pair_run, pair_stop_of};
    ghost use Rattle.prem_pair.specs.Cycles.Rest.{PairRests};
    ghost use Rattle.prem_pair.specs.MayStretch.{cycles_taken};
    ghost use Rattle.prem_pair.specs.States.{core_in, with_state};

    /// Both cores before the first cycle of a run. It fails only for want of memory, of which it takes all here that
    /// the run needs.
    ///
    /// Conditions: the policy of each image is of the kind of its core, each run fits its image (`run_fits`), and the second
    /// one has no requests.
    pub fn new(
        alloc: Global,
        first: &Image,
        second: &Image,
        run: &RunInput,
        other: &RunInput,
    ) -> Result<Pair<P, Q>, AllocError>
        requires policy { first.now.plant.policy ≡ P.kind_of }
        requires behind { second.now.plant.policy ≡ Q.kind_of }
        requires one { FitsRun (setup_of first.now) (words_of run.now) (items_of run.now.requests) }
        requires two { FitsRun (setup_of second.now) (words_of other.now) (items_of other.now.requests) }
        requires none { items_of other.now.requests ≡ [] }
        ensures state { IfOk result (λ m. m.state ≡ pair_run (rule_in (setup_of first.now)) (rule_in (setup_of second.now)) (setup_of first.now) (setup_of second.now)
            (items_of first.now.content) (items_of second.now.content) (words_of run.now) (words_of other.now)
            (items_of run.now.requests) 0) }
        ensures first { IfOk result (λ m. m.first ≡ setup_of first.now) }
        ensures second { IfOk result (λ m. m.second ≡ setup_of second.now) }
        ensures requests { IfOk result (λ m. m.requests ≡ items_of run.now.requests) }
    {
        let one = setting(alloc, first)?;
        let two = setting(alloc, second)?;
        let requests = requests(alloc, run.requests.items())?;
        let parts = first_parts(alloc, first, run)?;
        let behind = first_parts(alloc, second, other)?;
        let both = Both {
            first: parts,
            second: behind,
            holder: Holder::Nobody,
        };
        Ok(Pair {
            first: one,
            second: two,
            requests,
            both,
        })
    }

    /// The cycles that have passed.
    pub fn now(&self) -> u64
        ensures { result ≡ self.now.state.first.now }
    {
        self.both.first.now
    }

    /// What the run tells of a core so far, or none for a core past 1. Core 0 has the devices.
    pub fn facts(&self, core: u8) -> Option<&Facts>
        ensures { option_map (λ f. report_in f.now) result ≡ option_map report_of (core_in core self.now.state) }
    {
        match core {
            0 => Some(self.first_facts()),
            1 => Some(self.second_facts()),
            _ => None,
        }
    }

    /// What the run tells of core 0 so far, with the devices.
    fn first_facts(&self) -> &Facts
        ensures { report_in result.now ≡ report_of self.now.state.first }
    {
        &self.both.first.facts
    }

    /// What the run tells of core 1 so far.
    fn second_facts(&self) -> &Facts
        ensures { report_in result.now ≡ report_of self.now.state.second }
    {
        &self.both.second.facts
    }

    /// Goes on until the run stops or this cycle has come. Cycles in which both cores rest are passed over,
    /// and instructions that follow each other while neither core touches the other are done at once.
    ///
    /// It looks before each cycle whether all jobs of both cores have ended, then whether an instruction has trapped,
    /// then whether a log is full, then whether the cycle has come, and tells the first of these that is so. A run
    /// that stopped before stays as it is.
    ///
    /// Conditions: this cycle hasn't passed, and is at most 2^61.
    pub fn run_to(&mut self, limit: u64) -> PairStop
        requires now { self.old.state.first.now ≤ limit }
        requires limit { limit ≤ 2 ^ 61 }
        ensures state { self.new.state ≡ pair_cycles (rule_in self.old.first) (rule_in self.old.second) self.old.first self.old.second self.old.requests
            (limit - self.old.state.first.now) self.old.state }
        ensures first { self.new.first ≡ self.old.first }
        ensures second { self.new.second ≡ self.old.second }
        ensures requests { self.new.requests ≡ self.old.requests }
        ensures stop { Some result ≡ pair_stop_of limit self.new.state }
    {
        'cycles: loop {
            if let Some(stop) = self.stop(limit) {
                return stop;
            }
            let at = self.rest_until(limit);
            if at > self.now() {
                self.pass_to(at);
                continue;
            }
            if self.stretch(limit) {
                continue;
            }
            self.cycle();
        }
    }

    /// A cycle up to which both rest, which is now where an instruction seems to issue.
    fn rest_until(&self, limit: u64) -> u64
        requires now { self.now.state.first.now < 2 ^ 61 }
        requires going { is_pair_over self.now.state ≡ false }
        requires limit { self.now.state.first.now ≤ limit }
        ensures not_before { self.now.state.first.now ≤ result }
        ensures within { result ≤ limit }
        ensures rests { self.now.state.first.now < result → PairRests (result - self.now.state.first.now) self.now.requests self.now.state }
    {
        if self.both.may_rest() {
            return self.both.rest(&self.requests, limit);
        }
        self.now()
    }

    /// Goes on by instructions that follow each other while the cores don't touch each other, and answers whether there were
    /// some.
    fn stretch(&mut self, limit: u64) -> bool
        requires now { self.old.state.first.now < limit }
        requires limit { limit ≤ 2 ^ 61 }
        requires going { is_pair_over self.old.state ≡ false }
        ensures new { self.new ≡ with_state self.old (pair_cycles (rule_in self.old.first) (rule_in self.old.second) self.old.first self.old.second self.old.requests
            (cycles_taken self.old.state self.new.state) self.old.state) }
        ensures from { self.old.state.first.now ≤ self.new.state.first.now }
        ensures within { self.new.state.first.now ≤ limit }
        ensures early { one_trapped self.new.state ≡ true → self.new.state.first.now < limit }
        ensures went { result ≡ true → 1 ≤ cycles_taken self.old.state self.new.state }
        ensures kept { result ≡ false → self.new ≡ self.old }
    {
        let before = self.now();
        self.both
            .stretch(&self.first, &self.second, &self.requests, limit);
        self.now() > before || self.both.has_trapped()
    }

    /// Passes over the cycles up to this one, in which both rest.
    fn pass_to(&mut self, at: u64)
        requires from { self.old.state.first.now ≤ at }
        requires limit { at ≤ 2 ^ 61 }
        requires going { is_pair_over self.old.state ≡ false }
        requires rests { PairRests (at - self.old.state.first.now) self.old.requests self.old.state }
        ensures new { self.new ≡ with_state self.old
            (pair_cycles (rule_in self.old.first) (rule_in self.old.second) self.old.first self.old.second self.old.requests (at - self.old.state.first.now) self.old.state) }
        ensures now { self.new.state.first.now ≡ at }
    {
        self.both
            .pass(&self.first, &self.second, &self.requests, at);
    }

    /// One cycle of a run that is not over.
    fn cycle(&mut self)
        requires now { self.old.state.first.now < 2 ^ 61 }
        requires going { is_pair_over self.old.state ≡ false }
        ensures new { self.new ≡ with_state self.old
            (pair_cycle (rule_in self.old.first) (rule_in self.old.second) self.old.first self.old.second self.old.requests self.old.state) }
        ensures goes_on { one_trapped self.new.state ≡ false → self.new.state.first.now ≡ self.old.state.first.now + 1 }
        ensures stops { one_trapped self.new.state ≡ true → self.new.state.first.now ≡ self.old.state.first.now }
    {
        self.both.cycle(&self.first, &self.second, &self.requests);
    }

    /// Why the run stops here, if it does.
    fn stop(&self, limit: u64) -> Option<PairStop>
        ensures { result ≡ pair_stop_of limit self.now.state }
    {
        let first = &self.both.first;
        let second = &self.both.second;
        if is_finished(first.now, &first.sched, first.moment.mode)
            && is_finished(second.now, &second.sched, second.moment.mode)
        {
            return Some(PairStop::Finished);
        }
        if let Some(Trap { task, pc, cause }) = first.trapped {
            return Some(PairStop::Trap {
                core: 0,
                task,
                pc,
                cause,
            });
        }
        if let Some(Trap { task, pc, cause }) = second.trapped {
            return Some(PairStop::Trap {
                core: 1,
                task,
                pc,
                cause,
            });
        }
        if are_full(&first.facts) {
            return Some(PairStop::LogFull {
                core: 0,
                length: LOG,
            });
        }
        if are_full(&second.facts) {
            return Some(PairStop::LogFull {
                core: 1,
                length: LOG,
            });
        }
        (first.now == limit).then_some(PairStop::Limit)
    }
}
