// A run in which devices feed tasks.
ghost use Rattle.std.specs.Prelude.{◌≡◌, ◌<◌, ◌≤◌, ◌^◌, All, IfOk, IfSome, length, map, replicate, slice_get};
ghost use Rattle.prem_list.specs.Sequence.{items_of, room_of};
ghost use Rattle.prem_cycle.specs.FactsOf.{inputs_size, report_in};
ghost use Rattle.prem_cycle.specs.Inputs.{words_of};
ghost use Rattle.prem_set.specs.Run.Views.{lists_of};
ghost use Rattle.prem_mail.specs.Delivery.{has_room, receiver, fed_by};
ghost use Rattle.prem_mail.specs.Gliding.{awaited};
ghost use Rattle.prem_mail.specs.Stopping.{stop_unless_limit};

use crate::feed::Feed;
use prem_cycle::{Facts, Stop};
use prem_gate::{RunInput, Transfer};
use prem_image::Image;
use prem_list::Sequence;
use prem_lru::Policy;
use prem_machine::{DeliveryHalt, Machine};
use prem_plant::TaskId;
use std::alloc::{AllocError, Global};
use std::marker::Model;

/// As many input words may a task have.
const WORDS: usize = 100_000;

/// A run of an image in which words that devices put come to tasks as input words.
///
/// Contracts see what the run never changes, the requests and the feeds of its devices, its state, what was delivered, and how many
/// values were lost.
#[derive(Drop)]
pub struct Mail<P: Policy> {
    machine: Machine<P>,
    feeds: Vec<Feed>,
    /// All input words of each task, those that it has taken too.
    words: Sequence<Sequence<u32>>,
    /// For each task how many values found its list full.
    lost: Vec<u64>,
}

impl<P: Policy> Model for Mail<P> {
    ghost use Rattle.prem_mail.specs.Mailing.{Mailing};
    ghost use Rattle.prem_mail.specs.MailFields.{IsMail, mailing_of};

    ghost Value = { Mailing };

    ghost view = { mailing_of };

    ghost invariant = { IsMail };
}

/// A copy of the words of a task, with room for as many as it may have.
fn list_of(alloc: Global, words: &[u32]) -> Result<Sequence<u32>, AllocError>
    requires { length words.now ≤ inputs_size }
    ensures items { IfOk result (λ list. items_of list ≡ words.now) }
    ensures room { IfOk result (λ list. room_of list ≡ inputs_size) }
{
    let mut list = Sequence::with_room(alloc, WORDS)?;
    for word in words {
        list.put(*word);
    }
    Ok(list)
}

/// A copy of the words of all tasks.
fn lists_of(alloc: Global, run: &RunInput) -> Result<Sequence<Sequence<u32>>, AllocError>
    requires { All (λ list. length (items_of list) ≤ inputs_size) (items_of run.now.words) }
    ensures lists { IfOk result (λ lists. lists_of lists ≡ words_of run.now) }
    ensures rooms { IfOk result (λ lists. All (λ list. inputs_size ≤ room_of list) (items_of lists)) }
{
    let words = run.words.items();
    let mut lists = Sequence::with_room(alloc, words.len())?;
    for list in words {
        lists.put(list_of(alloc, list.items())?);
    }
    Ok(lists)
}

/// Nothing is lost, of so many tasks.
fn none_lost(alloc: Global, count: usize) -> Result<Vec<u64>, AllocError>
    ensures { IfOk result (λ lost. lost.items ≡ replicate count 0) }
{
    let mut lost = Vec::with_capacity(alloc, count)?;
    for _ in 0..count {
        lost.push(0)?;
    }
    Ok(lost)
}

/// A copy of the feeds.
fn feeds_of(alloc: Global, feeds: &[Feed]) -> Result<Vec<Feed>, AllocError>
    ensures { IfOk result (λ copy. copy.items ≡ feeds.now) }
{
    Vec::from_slice(alloc, feeds)
}

/// The task of the first feed of this device and line.
fn fed_by(feeds: &[Feed], device: u16, line: u32) -> Option<TaskId>
    ensures { result ≡ fed_by feeds.now device line }
{
    for feed in feeds {
        if feed.device == device && feed.line == line {
            return Some(feed.task);
        }
    }
    None
}

/// The task that is to get the value of a transfer.
fn receiver(feeds: &[Feed], transfer: &Transfer) -> Option<TaskId>
    ensures { result ≡ receiver feeds.now transfer.now }
{
    if transfer.request.put.is_none() {
        return None;
    }
    fed_by(feeds, transfer.device, transfer.request.line)
}

/// The transfer that ended behind so many others, if one did.
fn transfer_behind(facts: &Facts, before: usize) -> Option<Transfer>
    ensures transfer { result ≡ slice_get (report_in facts.now).transfers before }
    ensures there { IfSome result (λ _. before < length (items_of facts.now.transfers)) }
{
    facts.transfers.items().get(before).copied()
}

/// Why a run stops, where it stops here for a reason that may be a limit: that one counts only if it is the last.
fn stop_unless_limit(stop: Stop, last: bool) -> Option<Stop>
    ensures { result ≡ stop_unless_limit stop last }
{
    match stop {
        Stop::Limit => last.then_some(Stop::Limit),
        stop => Some(stop),
    }
}

/// How many transfers have to have ended, where so many have, before a value can come to a task.
fn awaited(feeds: &[Feed], before: usize) -> usize
    requires { before < 2 ^ 63 }
    ensures { result ≡ awaited feeds.now before }
{
    if feeds.is_empty() {
        usize::MAX
    } else {
        before + 1
    }
}

/// Whether there is such a list, and it has fewer words than it may have.
fn has_room(lists: &[Sequence<u32>], task: TaskId) -> bool
    ensures { result ≡ has_room task (map (λ list. items_of list) lists.now) }
{
    match lists.get(usize::from(task)) {
        Some(list) => list.items().len() < WORDS,
        None => false,
    }
}

impl<P: Policy> Mail<P> {
    ghost use Rattle.std.specs.Prelude.{◌≡◌, ◌↔◌, ◌+◌, ◌-◌, ◌<◌, ◌≤◌, ◌^◌, All, IfOk, IfSome, IsSome, None, Some, false, true, length, map, option_map, slice_get};
    ghost use Rattle.prem_list.specs.Sequence.{items_of};
    ghost use Rattle.prem_cycle.specs.Inputs.{FitsRun, setup_of, words_of};
    ghost use Rattle.prem_cycle.specs.State.{rule_in};
    ghost use Rattle.prem_cycle.specs.Cycle.{is_over};
    ghost use Rattle.prem_cycle.specs.FactsOf.{report_in, report_of, stop_of};
    ghost use Rattle.prem_cycle.specs.Run.{wants_input_of};
    ghost use Rattle.prem_mail.specs.Feeds.{AreFeeds};
    ghost use Rattle.prem_mail.specs.Delivery.{has_room, receiver};
    ghost use Rattle.prem_mail.specs.Mailing.{setup_in, requests_in, feeds_in, mailed_in, state_in, with_mail, without_mail, with_mailed, supplied_to, received_by, handed_to, cycled, mail_step, mailed_by};
    ghost use Rattle.prem_machine.specs.Deliveries.{HaltsBy, RunsSilently};
    ghost use Rattle.prem_mail.specs.Gliding.{GoesBy, TellsNext, machine_in, with_machine};
    ghost use Rattle.prem_mail.specs.Laws.{mailed_first};

    /// The run of an image before its first cycle. It fails only for want of memory, of which it takes all here that the run needs.
    ///
    /// Conditions: the image's policy is of this kind; the run fits the image; there are at most 8192 feeds, each from a line of one of its devices to one of its tasks, and no two of them
    /// are of one device and line.
    pub fn new(
        alloc: Global,
        image: &Image,
        run: &RunInput,
        feeds: &[Feed],
    ) -> Result<Mail<P>, AllocError>
        requires policy { image.now.plant.policy ≡ P.kind_of }
        requires fits { FitsRun (setup_of image.now) (words_of run.now) (items_of run.now.requests) }
        requires feeds { AreFeeds (length (items_of image.now.tasks)) (map (λ d. d.device.lines) (items_of image.now.devices)) feeds.now }
        ensures setup { IfOk result (λ m. setup_in m ≡ setup_of image.now) }
        ensures requests { IfOk result (λ m. requests_in m ≡ items_of run.now.requests) }
        ensures feeds { IfOk result (λ m. feeds_in m ≡ feeds.now) }
        ensures first { IfOk result (λ m. mailed_in m ≡ mailed_first (setup_of image.now) (items_of image.now.content) (words_of run.now)) }
    {
        let words = lists_of(alloc, run)?;
        let lost = none_lost(alloc, image.tasks.items().len())?;
        let feeds = feeds_of(alloc, feeds)?;
        let machine = Machine::new(alloc, image, run)?;
        Ok(Mail {
            machine,
            feeds,
            words,
            lost,
        })
    }

    /// The cycles that have passed.
    pub fn now(&self) -> u64
        ensures { result ≡ (state_in self.now).now }
    {
        self.machine.now()
    }

    /// What the run tells of itself so far.
    pub fn facts(&self) -> &Facts
        ensures { report_in result.now ≡ report_of (state_in self.now) }
    {
        self.machine.facts()
    }

    /// All input words of a task so far, or none where there is no such task.
    pub fn words(&self, t: TaskId) -> Option<&[u32]>
        ensures words { option_map (λ words. words.now) result ≡ slice_get (mailed_in self.now).mail.lists t }
        ensures there { IsSome result ↔ (t < length (setup_in self.now).tasks) }
    {
        match self.words.items().get(usize::from(t)) {
            Some(list) => Some(list.items()),
            None => None,
        }
    }

    /// How many values for a task found its list full, or none where there is no such task.
    pub fn lost(&self, t: TaskId) -> Option<u64>
        ensures lost { result ≡ slice_get (mailed_in self.now).mail.lost t }
        ensures there { IsSome result ↔ (t < length (setup_in self.now).tasks) }
    {
        self.lost.get(usize::from(t)).copied()
    }

    /// A word comes to a task, whose list has room for it.
    fn bring(&mut self, task: TaskId, word: u32)
        requires room { has_room task (mailed_in self.old).mail.lists ≡ true }
        ensures { self.new ≡ with_mailed self.old (with_mail task word (mailed_in self.old)) }
    {
        self.machine.append_input(task, word);
        self.words.item_mut(usize::from(task)).put(word);
    }

    /// A value of the last of so many transfers for a task is lost.
    fn lose(&mut self, task: TaskId, ended: usize)
        requires task { task < length (setup_in self.old).tasks }
        requires room { All (λ n. n < ended) (mailed_in self.old).mail.lost }
        requires ended { ended ≤ length (state_in self.old).log.transfers }
        ensures { self.new ≡ with_mailed self.old (without_mail task (mailed_in self.old)) }
    {
        self.lost[usize::from(task)] += 1;
    }

    /// The value of the last of so many transfers comes to a task, or is lost.
    fn hand(&mut self, task: Option<TaskId>, value: u32, ended: usize)
        requires task { IfSome task (λ k. k < length (setup_in self.old).tasks) }
        requires room { All (λ n. n < ended) (mailed_in self.old).mail.lost }
        requires ended { ended ≤ length (state_in self.old).log.transfers }
        ensures { self.new ≡ with_mailed self.old (handed_to task value (mailed_in self.old)) }
    {
        let Some(task) = task else { return };
        if has_room(self.words.items(), task) {
            self.bring(task, value);
        } else {
            self.lose(task, ended);
        }
    }

    /// Where a task wants an input word that isn't there, a 0 comes to it, if it may have one more.
    fn supply(&mut self, wanted: Option<TaskId>)
        ensures { self.new ≡ with_mailed self.old (supplied_to wanted (mailed_in self.old)) }
    {
        let Some(task) = wanted else { return };
        if has_room(self.words.items(), task) {
            self.bring(task, 0);
        }
    }

    /// One cycle of the machine.
    fn cycle(&mut self)
        requires now { (state_in self.old).now < 2 ^ 61 }
        requires going { is_over (state_in self.old) ≡ false }
        ensures new { self.new ≡ with_mailed self.old (cycled (rule_in (setup_in self.old)) (setup_in self.old) (requests_in self.old) (mailed_in self.old)) }
        ensures goes_on { (state_in self.new).trapped ≡ None → (state_in self.new).now ≡ (state_in self.old).now + 1 }
        ensures stops { IsSome (state_in self.new).trapped → (state_in self.new).now ≡ (state_in self.old).now }
    {
        self.machine.cycle();
    }

    /// What a transfer behind so many others puts comes to its task.
    fn receive(&mut self, before: usize)
        requires few { All (λ n. n ≤ before) (mailed_in self.old).mail.lost }
        ensures { self.new ≡ with_mailed self.old (received_by (feeds_in self.old) (slice_get (state_in self.old).log.transfers before) (mailed_in self.old)) }
    {
        let facts = self.machine.facts();
        let Some(transfer) = transfer_behind(facts, before) else {
            return;
        };
        let ended = facts.transfers.items().len();
        let task = receiver(&self.feeds, &transfer);
        self.hand(task, transfer.value, ended);
    }

    /// A cycle, with the word that is wanted before it, and the word that has come behind it.
    fn step(&mut self, wanted: Option<TaskId>)
        requires now { (state_in self.old).now < 2 ^ 61 }
        requires going { is_over (state_in self.old) ≡ false }
        requires wanted { wanted ≡ wants_input_of (rule_in (setup_in self.old)) (setup_in self.old) (requests_in self.old) (state_in self.old) }
        ensures new { self.new ≡ with_mailed self.old (mail_step (rule_in (setup_in self.old)) (setup_in self.old) (requests_in self.old) (feeds_in self.old) (mailed_in self.old)) }
        ensures goes_on { (state_in self.new).trapped ≡ None → (state_in self.new).now ≡ (state_in self.old).now + 1 }
        ensures stops { IsSome (state_in self.new).trapped → (state_in self.new).now ≡ (state_in self.old).now }
    {
        let before = self.machine.facts().transfers.items().len();
        self.supply(wanted);
        self.cycle();
        self.receive(before);
    }

    /// The machine goes on until it stops, has come to the limit, wants an input word, or so many transfers have ended.
    fn advance(&mut self, limit: u64, transfers: usize) -> DeliveryHalt
        requires now { (state_in self.old).now ≤ limit }
        requires limit { limit ≤ 2 ^ 61 }
        ensures runs { RunsSilently limit transfers (machine_in self.old) (machine_in self.new) }
        ensures kept { self.new ≡ with_machine self.old (machine_in self.new) }
        ensures halts { HaltsBy limit transfers (machine_in self.new) result }
    {
        self.machine.run_to_delivery(limit, transfers)
    }

    /// Goes on at once up to where a word may come to a task, with the word that has come behind the last cycle. It tells why the
    /// run stops there, or else the task that wants an input word there, if one does.
    fn glide(&mut self, limit: u64) -> Result<Option<TaskId>, Stop>
        requires now { (state_in self.old).now ≤ limit }
        requires limit { limit ≤ 2 ^ 61 }
        ensures by { GoesBy limit self.old self.new }
        ensures next { TellsNext limit self.new result }
    {
        let before = self.machine.facts().transfers.items().len();
        let transfers = awaited(&self.feeds, before);
        let halt = self.advance(limit, transfers);
        self.receive(before);
        match halt {
            DeliveryHalt::Wants(task) => Ok(Some(task)),
            DeliveryHalt::Stops(_) | DeliveryHalt::Ended => self.next(limit),
        }
    }

    /// Why a run that is to go up to this cycle stops here, or else the task that wants an input word, if one does. Nothing
    /// changes.
    fn next(&mut self, limit: u64) -> Result<Option<TaskId>, Stop>
        requires now { (state_in self.old).now ≤ limit }
        requires limit { limit ≤ 2 ^ 61 }
        ensures same { self.new ≡ self.old }
        ensures next { TellsNext limit self.old result }
    {
        if let Some(stop) = self.stop(limit) {
            return Err(stop);
        }
        Ok(self.machine.wants_input())
    }

    /// Why a run that is to go up to this cycle stops here, if it does. Nothing changes.
    fn stop(&mut self, limit: u64) -> Option<Stop>
        requires now { (state_in self.old).now ≤ limit }
        requires limit { limit ≤ 2 ^ 61 }
        ensures same { self.new ≡ self.old }
        ensures stop { result ≡ stop_of limit (state_in self.old) }
    {
        let now = self.machine.now();
        let stop = self.machine.run_to(now);
        stop_unless_limit(stop, now == limit)
    }

    /// Goes on until the run stops or this cycle has come. Cycles in which no word comes to a task are the machine's own.
    ///
    /// It looks before each cycle whether all jobs have ended, then whether an instruction has trapped, then whether a log is full, then
    /// whether the cycle has come, and tells the first of these that is so. A run that stopped before stays as it is.
    ///
    /// Conditions: this cycle hasn't passed, and is at most 2^61.
    pub fn run_to(&mut self, limit: u64) -> Stop
        requires now { (state_in self.old).now ≤ limit }
        requires limit { limit ≤ 2 ^ 61 }
        ensures mailed { mailed_in self.new ≡ mailed_by (rule_in (setup_in self.old)) (setup_in self.old) (requests_in self.old) (feeds_in self.old)
            (limit - (state_in self.old).now) (mailed_in self.old) }
        ensures setup { setup_in self.new ≡ setup_in self.old }
        ensures requests { requests_in self.new ≡ requests_in self.old }
        ensures feeds { feeds_in self.new ≡ feeds_in self.old }
        ensures stop { Some result ≡ stop_of limit (state_in self.new) }
    {
        'cycles: loop {
            match self.glide(limit) {
                Ok(wanted) => self.step(wanted),
                Err(stop) => return stop,
            }
        }
    }
}
