// Runs up to where a word may come to a task.
use crate::machine::Machine;
use crate::wanted;
use prem_cycle::{Stop, Turn};
use prem_lru::Policy;
use prem_plant::TaskId;

/// Why a run halts that looks out for words that may come to a task.
#[derive(Clone, Copy, PartialEq, Eq, Debug)]
pub enum DeliveryHalt {
    /// It stops, or has come to the limit.
    Stops(Stop),
    /// The coming cycle issues a `pm.in` of this task, whose input words are used up.
    Wants(TaskId),
    /// So many transfers have ended as it looks out for.
    Ended,
}

impl<P: Policy> Machine<P> {
    ghost use Rattle.std.specs.Prelude.{◌≡◌, ◌+◌, ◌-◌, ◌<◌, ◌≤◌, ◌^◌, IsSome, None, true, false};
    ghost use Rattle.prem_cycle.specs.State.{rule_in};
    ghost use Rattle.prem_cycle.specs.Cycle.{cycle_of, is_over};
    ghost use Rattle.prem_cycle.specs.Run.{cycles_of, wants_input_of};
    ghost use Rattle.prem_machine.specs.States.{requests_in, setup_in, state_of, with_state};
    ghost use Rattle.prem_machine.specs.Silent.{AreSilent, ended_so_far};
    ghost use Rattle.prem_machine.specs.Deliveries.{HaltsBy, RunsSilently};

    /// Goes on as `run_to` does, but halts before a cycle that issues a `pm.in` of a task whose input words are used up, and
    /// once so many transfers have ended. It tells the first of these that is so: the run stops or has come to the limit, so
    /// many transfers have ended, such a `pm.in` comes. It takes no memory.
    ///
    /// Conditions: the limit hasn't passed, and is at most 2^61.
    pub fn run_to_delivery(&mut self, limit: u64, transfers: usize) -> DeliveryHalt
        requires now { (state_of self.old).now ≤ limit }
        requires limit { limit ≤ 2 ^ 61 }
        ensures runs { RunsSilently limit transfers self.old self.new }
        ensures halts { HaltsBy limit transfers self.new result }
    {
        'cycles: loop {
            if let Some(stop) = self.stop(limit) {
                return DeliveryHalt::Stops(stop);
            }
            if self.ended_so_far() >= transfers {
                return DeliveryHalt::Ended;
            }
            if self.glide(limit) {
                continue;
            }
            if let Some(task) = self.lacking() {
                return DeliveryHalt::Wants(task);
            }
            self.one_cycle();
        }
    }

    /// As `cycle`, by a copy of its own.
    fn one_cycle(&mut self) -> Turn
        requires now { (state_of self.old).now < 2 ^ 61 }
        requires going { is_over (state_of self.old) ≡ false }
        ensures new { self.new ≡ with_state self.old
            (cycle_of (rule_in (setup_in self.old)) (setup_in self.old) (requests_in self.old) (state_of self.old)) }
        ensures goes_on { (state_of self.new).trapped ≡ None → (state_of self.new).now ≡ (state_of self.old).now + 1 }
        ensures stops { IsSome (state_of self.new).trapped → (state_of self.new).now ≡ (state_of self.old).now }
    {
        self.parts.cycle::<true>(&self.setting, &self.requests)
    }

    /// The transfers that have ended so far.
    fn ended_so_far(&self) -> usize
        ensures { result ≡ ended_so_far (state_of self.now) }
    {
        self.parts.facts.transfers.items().len()
    }

    /// The task whose `pm.in` the coming cycle issues while its input words are used up, if there is one.
    ///
    /// Condition: the run isn't over.
    pub(crate) fn lacking(&self) -> Option<TaskId>
        requires { is_over (state_of self.now) ≡ false }
        ensures { result ≡ wants_input_of (rule_in (setup_in self.now)) (setup_in self.now) (requests_in self.now) (state_of self.now) }
    {
        wanted::wants_input(&self.setting, &self.parts)
    }

    /// Goes on at once, by dull cycles or by instructions that follow each other, and answers whether there were some.
    fn glide(&mut self, limit: u64) -> bool
        requires now { (state_of self.old).now < limit }
        requires limit { limit ≤ 2 ^ 61 }
        requires going { is_over (state_of self.old) ≡ false }
        ensures new { self.new ≡ with_state self.old (cycles_of (rule_in (setup_in self.old)) (setup_in self.old) (requests_in self.old)
            ((state_of self.new).now - (state_of self.old).now) (state_of self.old)) }
        ensures silent { AreSilent (rule_in (setup_in self.old)) (setup_in self.old) (requests_in self.old)
            ((state_of self.new).now - (state_of self.old).now) (state_of self.old) }
        ensures from { (state_of self.old).now ≤ (state_of self.new).now }
        ensures within { (state_of self.new).now ≤ limit }
        ensures went { result ≡ true → (state_of self.old).now < (state_of self.new).now }
        ensures kept { result ≡ false → self.new ≡ self.old }
    {
        let at = self.rest_until(limit);
        if at > self.now() {
            self.pass_to(at);
            return true;
        }
        let mut untold = Vec::new(*self.requests.allocator());
        self.stretch::<false>(limit, &mut untold)
    }
}
