// A machine that is ahead of what is booked of its run, by instructions that it has told of.
ghost use Rattle.std.specs.Prelude.{◌≡◌, ◌+◌, ◌-◌, ◌≤◌, ◌<◌, ◌^◌, [], IfOk, Some, false, length, slice_index_or};
ghost use Rattle.prem_list.specs.Sequence.{items_of};
ghost use Rattle.prem_cycle.specs.State.{rule_in};
ghost use Rattle.prem_cycle.specs.Cycle.{is_over};
ghost use Rattle.prem_cycle.specs.FactsOf.{stop_of};
ghost use Rattle.prem_cycle.specs.Inputs.{setup_of};
ghost use Rattle.prem_profile.specs.Turn.{AreSeen, seen_cost, seen_home, seen_of};
ghost use Rattle.prem_profile.specs.Ahead.{IsAhead, execution_cost, run_after};

use crate::cost::Cost;
use crate::home::Home;
use crate::tracing::{go_on, turn_end};
use prem_cycle::Stop;
use prem_gate::RunInput;
use prem_image::Image;
use prem_lru::Policy;
use prem_machine::{Execution, Machine};
use std::alloc::{AllocError, Global};

/// So many instructions are told at a time.
const ROOM: usize = 256;

/// Instructions that a machine has told of, of which the first ones are booked.
#[derive(Drop)]
pub struct Ahead {
    pub told: Vec<Execution>,
    /// How many are booked.
    pub booked: usize,
}

/// Some cycles of a run that are all spent at one home, and why it stops behind them.
#[derive(Clone, Copy, PartialEq, Eq, Debug)]
pub struct SpentTurn {
    /// The cycle up to which they go.
    pub end: u64,
    pub stop: Stop,
    pub home: Home,
    pub cost: Cost,
}

/// Nothing is told so far.
pub fn none_ahead(alloc: Global) -> Result<Ahead, AllocError>
    ensures told { IfOk result (λ ahead. ahead.told.items ≡ []) }
    ensures booked { IfOk result (λ ahead. ahead.booked ≡ 0) }
{
    Ok(Ahead {
        told: Vec::with_capacity(alloc, ROOM)?,
        booked: 0,
    })
}

/// What an instruction that is told costs.
fn execution_cost(execution: Execution) -> Cost
    ensures { result ≡ execution_cost execution }
{
    Cost {
        instructions: 1,
        cycles: execution.cycles,
        misses: execution.misses,
        backs: execution.backs,
    }
}

/// Why the run stops at a cycle, behind the instructions that are booked: it doesn't while another one is told.
#[inline(always)]
fn stop_behind<P: Policy>(
    image: &Image,
    input: &RunInput,
    machine: &mut Machine<P>,
    ahead: &Ahead,
    at: u64,
    limit: u64,
) -> Stop
    requires ahead { IsAhead image.now input.now at limit machine.old ahead.now }
    requires now { (run_after image.now input.now at).now ≡ at }
    requires limit { limit ≤ 2 ^ 61 }
    ensures ahead { IsAhead image.now input.now at limit machine.new ahead.now }
    ensures stop { Some result ≡ stop_of at (run_after image.now input.now at) }
{
    let _image = image;
    let _input = input;
    let _limit = limit;
    if ahead.booked < ahead.told.len() {
        return Stop::Limit;
    }
    machine.run_to(at)
}

/// The turn of the next instruction that is told.
#[inline(always)]
fn told_turn<P: Policy>(
    image: &Image,
    input: &RunInput,
    machine: &mut Machine<P>,
    ahead: &mut Ahead,
    before: Home,
    at: u64,
    limit: u64,
) -> SpentTurn
    requires ahead { IsAhead image.now input.now at limit machine.old ahead.old }
    requires some { ahead.old.booked < length ahead.old.told.items }
    requires now { (run_after image.now input.now at).now ≡ at }
    requires limit { limit ≤ 2 ^ 61 }
    ensures from { at < result.end }
    ensures within { result.end ≤ limit }
    ensures ahead { IsAhead image.now input.now result.end limit machine.new ahead.new }
    ensures seen { AreSeen (rule_in (setup_of image.now)) (setup_of image.now) (items_of input.now.requests) (result.end - at) (run_after image.now input.now at) }
    ensures stop { Some result.stop ≡ stop_of result.end (run_after image.now input.now result.end) }
    ensures home { result.home ≡ seen_home (seen_of before (run_after image.now input.now at)) (run_after image.now input.now result.end) }
    ensures cost { result.cost ≡ seen_cost (seen_of before (run_after image.now input.now at)) (run_after image.now input.now result.end) }
{
    let _before = before;
    let execution = ahead.told[ahead.booked];
    ahead.booked += 1;
    let end = at + execution.cycles;
    let stop = stop_behind(image, input, machine, ahead, end, limit);
    SpentTurn {
        end,
        stop,
        home: Home::At(execution.pc),
        cost: execution_cost(execution),
    }
}

/// Where all instructions that were told are booked, the machine goes on by those that follow each other at once.
#[inline(never)]
fn go_ahead<P: Policy>(
    image: &Image,
    input: &RunInput,
    machine: &mut Machine<P>,
    ahead: &mut Ahead,
    at: u64,
    limit: u64,
)
    requires ahead { IsAhead image.now input.now at limit machine.old ahead.old }
    requires now { (run_after image.now input.now at).now ≡ at }
    requires going { is_over (run_after image.now input.now at) ≡ false }
    requires limit { limit ≤ 2 ^ 61 }
    ensures { IsAhead image.now input.now at limit machine.new ahead.new }
{
    let _image = image;
    let _input = input;
    let _at = at;
    if ahead.booked < ahead.told.len() {
        return;
    }
    ahead.told.clear();
    ahead.booked = 0;
    machine.execute_to(limit, &mut ahead.told);
}

/// The next turn of a run that is booked up to a cycle, behind one with this home.
///
/// Conditions: the run goes on there, before the limit, which is at most 2^61.
#[inline(always)]
pub fn next_turn<P: Policy>(
    image: &Image,
    input: &RunInput,
    machine: &mut Machine<P>,
    ahead: &mut Ahead,
    before: Home,
    at: u64,
    limit: u64,
) -> SpentTurn
    requires ahead { IsAhead image.now input.now at limit machine.old ahead.old }
    requires now { (run_after image.now input.now at).now ≡ at }
    requires going { is_over (run_after image.now input.now at) ≡ false }
    requires before { at < limit }
    requires limit { limit ≤ 2 ^ 61 }
    ensures from { at < result.end }
    ensures within { result.end ≤ limit }
    ensures ahead { IsAhead image.now input.now result.end limit machine.new ahead.new }
    ensures seen { AreSeen (rule_in (setup_of image.now)) (setup_of image.now) (items_of input.now.requests) (result.end - at) (run_after image.now input.now at) }
    ensures stop { Some result.stop ≡ stop_of result.end (run_after image.now input.now result.end) }
    ensures home { result.home ≡ seen_home (seen_of before (run_after image.now input.now at)) (run_after image.now input.now result.end) }
    ensures cost { result.cost ≡ seen_cost (seen_of before (run_after image.now input.now at)) (run_after image.now input.now result.end) }
{
    if ahead.booked < ahead.told.len() {
        return told_turn(image, input, machine, ahead, before, at, limit);
    }
    go_ahead(image, input, machine, ahead, at, limit);
    if ahead.booked < ahead.told.len() {
        return told_turn(image, input, machine, ahead, before, at, limit);
    }
    let end = turn_end(machine, at, limit);
    let spent = go_on(machine, before, end);
    SpentTurn {
        end,
        stop: spent.stop,
        home: spent.home,
        cost: spent.cost,
    }
}
