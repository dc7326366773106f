// Instructions that follow each other while the bus has nothing to do.
use crate::execution::{Execution, ExecutionView, execution_since, has_room, tell};
use crate::hits::follow_in;
use crate::issue::Near;
use crate::log::room_left;
use crate::parts::Parts;
use crate::passing::next_arrival;
use crate::plain::issue_plain;
use crate::work::{Setting, owed_for};
use prem_cycle::Mode;
use prem_gate::{CoreWant, Request};
use prem_isa::Change;
use prem_lru::Policy;
use prem_plant::TaskId;

/// A task whose instructions issue alone, and the cycle up to which the bus has nothing to do while it wants nothing.
#[derive(Clone, Copy)]
pub(crate) struct Lone {
    pub task: TaskId,
    pub until: u64,
}

impl<P: Policy> Parts<P> {
    ghost use Rattle.std.specs.Prelude.{◌≡◌, ◌+◌, ◌-◌, ◌*◌, ◌<◌, ◌≤◌, ◌^◌, ◌∷◌, ◌++◌, [], IfSome, None, false, true, length, vec_capacity, vec_len};
    ghost use Rattle.std.specs.List.Sorted.{IsNonDecreasingBy};
    ghost use Rattle.prem_list.specs.Sequence.{items_of};
    ghost use Rattle.prem_cycle.specs.State.{rule_in};
    ghost use Rattle.prem_cycle.specs.Cycle.{is_over, log_size};
    ghost use Rattle.prem_cycle.specs.Run.{cycles_of};
    ghost use Rattle.prem_machine.specs.Execution.{IsOneExecution, ToldBehind, execution_since, seen_of};
    ghost use Rattle.prem_machine.specs.Issue.Near.{IsNear};
    ghost use Rattle.prem_machine.specs.Log.{put_out};
    ghost use Rattle.prem_machine.specs.Work.{setup_in};
    ghost use Rattle.prem_machine.specs.Parts.{IsSetting, Runs, Stands, state_of};
    ghost use Rattle.prem_machine.specs.Silent.{AreSilent};
    ghost use Rattle.prem_machine.specs.Stretch.{IsLone};

    /// The task whose instructions issue alone, and up to when, at most up to the limit.
    fn lone(&self, requests: &[Request], limit: u64) -> Option<Lone>
        requires order { IsNonDecreasingBy (λ r. r.cycle) requests.now }
        requires runs { Runs self.now.now (4 * self.now.now) requests.now self.now }
        requires limit { self.now.now ≤ limit }
        ensures lone { IfSome result (λ l. IsLone l.task l.until requests.now (state_of self.entry.now)) }
        ensures until { IfSome result (λ l. (self.entry.now.now ≤ l.until) × (l.until ≤ limit)) }
    {
        let Mode::Running { task } = self.moment.mode else {
            return None;
        };
        if !self.moment.stays() {
            return None;
        }
        if !self.core.owes_nothing() {
            return None;
        }
        let (now, window) = (self.now, self.moment.window);
        if !self.gates.is_idle(now, window) {
            return None;
        }
        let arrival = next_arrival(requests, self.arrived, limit);
        let until = self.gates.next_change(now, window, CoreWant::No, arrival);
        Some(Lone { task, until })
    }

    /// Instructions that hit and go on in their interval, with all their cycles, of which there are fewer than these tasks may
    /// put out words. It answers how many words they may put out then.
    #[inline(always)]
    fn follow<const TOLD: bool>(
        &mut self,
        setting: &Setting,
        requests: &[Request],
        lone: Lone,
        left: usize,
        told: &mut Vec<Execution>,
    ) -> usize
        requires setting { IsSetting setting.now requests.now }
        requires stands { Stands setting.now requests.now self.old }
        requires runs { Runs self.old.now (4 * self.old.now) requests.now self.old }
        requires now { self.old.now ≤ lone.until }
        requires limit { lone.until ≤ 2 ^ 61 }
        requires lone { IsLone lone.task lone.until requests.now (state_of self.old) }
        requires trapped { self.old.trapped ≡ None }
        requires room { put_out (items_of self.old.facts.tasks) + left ≤ log_size }
        requires intervals { length (items_of self.old.facts.intervals) < log_size }
        ensures state { state_of self.new ≡ cycles_of (rule_in (setup_in setting.now)) (setup_in setting.now) requests.now
            (self.new.now - self.old.now) (state_of self.old) }
        ensures silent { AreSilent (rule_in (setup_in setting.now)) (setup_in setting.now) requests.now (self.new.now - self.old.now) (state_of self.old) }
        ensures told { TOLD ≡ true → ToldBehind (rule_in (setup_in setting.now)) (setup_in setting.now) requests.now (self.new.now - self.old.now) (state_of self.old)
            told.old.items told.new.items }
        ensures stands { Stands setting.now requests.now self.new }
        ensures runs { Runs self.new.now (4 * self.new.now) requests.now self.new }
        ensures from { self.old.now ≤ self.new.now }
        ensures within { self.new.now ≤ lone.until }
        ensures trapped { self.new.trapped ≡ None }
        ensures lone { IsLone lone.task lone.until requests.now (state_of self.new) }
        ensures room { put_out (items_of self.new.facts.tasks) + result ≤ log_size }
        ensures less { result ≤ left }
        ensures intervals { items_of self.new.facts.intervals ≡ items_of self.old.facts.intervals }
    {
        let room = (left as u64).min(lone.until - self.now);
        if room <= 21 {
            return left;
        }
        let k = usize::from(lone.task);
        let followed = follow_in::<P, TOLD>(
            k,
            room - 21,
            setting,
            &mut self.work,
            self.facts.tasks.items_mut(),
            told,
        );
        self.now += followed.time;
        self.facts.hits += followed.hits as u64;
        self.facts.memory_stores += followed.stores as u64;
        left - followed.time as usize
    }

    /// The same where it is to, and nothing where not.
    #[inline(always)]
    fn follow_where<const TOLD: bool>(
        &mut self,
        follows: bool,
        setting: &Setting,
        requests: &[Request],
        lone: Lone,
        left: usize,
        near: &mut Near,
        told: &mut Vec<Execution>,
    ) -> usize
        requires setting { IsSetting setting.now requests.now }
        requires stands { Stands setting.now requests.now self.old }
        requires runs { Runs self.old.now (4 * self.old.now) requests.now self.old }
        requires now { self.old.now ≤ lone.until }
        requires limit { lone.until ≤ 2 ^ 61 }
        requires lone { IsLone lone.task lone.until requests.now (state_of self.old) }
        requires trapped { self.old.trapped ≡ None }
        requires room { put_out (items_of self.old.facts.tasks) + left ≤ log_size }
        requires intervals { length (items_of self.old.facts.intervals) < log_size }
        requires near { IsNear self.old.work.cache near.old.line }
        ensures state { state_of self.new ≡ cycles_of (rule_in (setup_in setting.now)) (setup_in setting.now) requests.now
            (self.new.now - self.old.now) (state_of self.old) }
        ensures silent { AreSilent (rule_in (setup_in setting.now)) (setup_in setting.now) requests.now (self.new.now - self.old.now) (state_of self.old) }
        ensures told { TOLD ≡ true → ToldBehind (rule_in (setup_in setting.now)) (setup_in setting.now) requests.now (self.new.now - self.old.now) (state_of self.old)
            told.old.items told.new.items }
        ensures stands { Stands setting.now requests.now self.new }
        ensures runs { Runs self.new.now (4 * self.new.now) requests.now self.new }
        ensures from { self.old.now ≤ self.new.now }
        ensures within { self.new.now ≤ lone.until }
        ensures trapped { self.new.trapped ≡ None }
        ensures lone { IsLone lone.task lone.until requests.now (state_of self.new) }
        ensures room { put_out (items_of self.new.facts.tasks) + result ≤ log_size }
        ensures less { result ≤ left }
        ensures intervals { items_of self.new.facts.intervals ≡ items_of self.old.facts.intervals }
        ensures near { IsNear self.new.work.cache near.new.line }
    {
        if !follows {
            return left;
        }
        let rest = self.follow::<TOLD>(setting, requests, lone, left, told);
        *near = Near::none();
        rest
    }

    /// One instruction that goes on in its interval and ends before the bus has something to do, with all its cycles.
    /// It answers whether another one may follow at once. `near` tells what is known of the line of the last fetch.
    #[inline(always)]
    fn step(&mut self, setting: &Setting, requests: &[Request], lone: Lone, near: &mut Near) -> bool
        requires setting { IsSetting setting.now requests.now }
        requires stands { Stands setting.now requests.now self.old }
        requires runs { Runs self.old.now (4 * self.old.now) requests.now self.old }
        requires now { self.old.now ≤ lone.until }
        requires limit { lone.until ≤ 2 ^ 61 }
        requires lone { IsLone lone.task lone.until requests.now (state_of self.old) }
        requires trapped { self.old.trapped ≡ None }
        requires room { put_out (items_of self.old.facts.tasks) + 2 ≤ log_size }
        requires intervals { length (items_of self.old.facts.intervals) < log_size }
        requires near { IsNear self.old.work.cache near.old.line }
        ensures state { state_of self.new ≡ cycles_of (rule_in (setup_in setting.now)) (setup_in setting.now) requests.now
            (self.new.now - self.old.now) (state_of self.old) }
        ensures silent { AreSilent (rule_in (setup_in setting.now)) (setup_in setting.now) requests.now (self.new.now - self.old.now) (state_of self.old) }
        ensures one { self.old.now < self.new.now → IsOneExecution (rule_in (setup_in setting.now)) (setup_in setting.now) requests.now lone.task
            (self.new.now - self.old.now) (state_of self.old) }
        ensures stands { Stands setting.now requests.now self.new }
        ensures runs { Runs self.new.now (4 * self.new.now) requests.now self.new }
        ensures from { self.old.now ≤ self.new.now }
        ensures within { self.new.now ≤ lone.until }
        ensures trapped { self.new.trapped ≡ None }
        ensures near { result ≡ true → IsNear self.new.work.cache near.new.line }
        ensures lone { result ≡ true → IsLone lone.task lone.until requests.now (state_of self.new) }
        ensures put { result ≡ true → put_out (items_of self.new.facts.tasks) ≤ put_out (items_of self.old.facts.tasks) + 1 }
        ensures intervals { result ≡ true → items_of self.new.facts.intervals ≡ items_of self.old.facts.intervals }
    {
        let k = usize::from(lone.task);
        let most = lone.until - self.now;
        let Some(plain) = issue_plain::<P, false>(
            k,
            most,
            setting,
            &mut self.work,
            near,
            &mut self.facts,
        ) else {
            return false;
        };
        if plain.hit {
            self.now += u64::from(plain.cost);
            return true;
        }
        let owed = owed_for(&setting.plant, &plain.touches, plain.cost);
        let cycles = 1 + owed.cycles();
        if cycles <= most {
            // nobody else wants the bus, so all that is owed is paid without a pause
            self.now += cycles;
            return true;
        }
        let interval = self.moment.interval;
        self.moment = self
            .moment
            .issued(self.now, lone.task, interval, Change::Stay);
        self.core.owe(owed);
        self.tick(setting, requests);
        false
    }

    /// What is seen before or behind an instruction of a task.
    #[inline(always)]
    fn see(&self, task: TaskId) -> ExecutionView
        requires { task < length self.now.work.cores.items }
        ensures { result ≡ seen_of task self.entry.now }
    {
        ExecutionView {
            pc: self.work.cores[usize::from(task)].pc(),
            now: self.now,
            misses: self.facts.misses,
            backs: self.facts.writebacks,
        }
    }

    /// Tells of the instruction that was executed since, if one was, where they are told.
    #[inline(always)]
    fn tell<const TOLD: bool>(&self, before: ExecutionView, task: TaskId, told: &mut Vec<Execution>)
        requires task { task < length self.now.work.cores.items }
        requires room { TOLD ≡ true → vec_len told.old < vec_capacity told.old }
        requires misses { before.now < self.now.now → before.misses ≤ self.now.facts.misses }
        requires backs { before.now < self.now.now → before.backs ≤ self.now.facts.writebacks }
        ensures some { TOLD ≡ true → before.now < self.entry.now.now → told.new.items ≡ told.old.items ++ execution_since before (seen_of task self.entry.now) ∷ [] }
        ensures none { self.entry.now.now ≤ before.now → told.new ≡ told.old }
    {
        if TOLD && before.now < self.now {
            tell::<TOLD>(told, execution_since(before, self.see(task)));
        }
    }

    /// Instructions that follow each other while the bus has nothing to do, up to the limit; none where something else
    /// comes first. Where they are told, there are no more than there is room for.
    #[inline(never)]
    pub fn stretch<const TOLD: bool>(
        &mut self,
        setting: &Setting,
        requests: &[Request],
        limit: u64,
        told: &mut Vec<Execution>,
    )
        requires setting { IsSetting setting.now requests.now }
        requires stands { Stands setting.now requests.now self.old }
        requires runs { Runs self.old.now (4 * self.old.now) requests.now self.old }
        requires going { is_over (state_of self.old) ≡ false }
        requires now { self.old.now ≤ limit }
        requires limit { limit ≤ 2 ^ 61 }
        ensures state { state_of self.new ≡ cycles_of (rule_in (setup_in setting.now)) (setup_in setting.now) requests.now
            (self.new.now - self.old.now) (state_of self.old) }
        ensures silent { AreSilent (rule_in (setup_in setting.now)) (setup_in setting.now) requests.now (self.new.now - self.old.now) (state_of self.old) }
        ensures told { TOLD ≡ true → ToldBehind (rule_in (setup_in setting.now)) (setup_in setting.now) requests.now (self.new.now - self.old.now) (state_of self.old)
            told.old.items told.new.items }
        ensures stands { Stands setting.now requests.now self.new }
        ensures runs { Runs self.new.now (4 * self.new.now) requests.now self.new }
        ensures from { self.old.now ≤ self.new.now }
        ensures within { self.new.now ≤ limit }
        ensures trapped { self.new.trapped ≡ None }
    {
        let Some(lone) = self.lone(requests, limit) else {
            return;
        };
        let mut near = Near::none();
        let mut left = room_left(self.facts.tasks.items());
        let mut follows = true;
        'instructions: while left > 1 {
            let rest = self.follow_where::<TOLD>(
                follows, setting, requests, lone, left, &mut near, told,
            );
            if rest <= 1 || !has_room::<TOLD>(told) {
                return;
            }
            let misses = self.facts.misses;
            let before = self.see(lone.task);
            let goes_on = self.step(setting, requests, lone, &mut near);
            self.tell::<TOLD>(before, lone.task, told);
            if !goes_on {
                return;
            }
            // behind a miss the next instruction is issued alone
            follows = self.facts.misses == misses;
            left = rest - 1;
        }
    }
}
