// The run of an image, of which each cycle is booked at its home.
ghost use Rattle.std.specs.Prelude.{◌≡◌, ◌≤◌, ◌<◌, ◌-◌, ◌^◌, ◌&&◌, nat_lt, IfOk, Some, true, false, length, map, replicate};
ghost use Rattle.prem_list.specs.Sequence.{items_of};
ghost use Rattle.prem_cycle.specs.State.{rule_in, task_in};
ghost use Rattle.prem_cycle.specs.Cycle.{is_over};
ghost use Rattle.prem_cycle.specs.Run.{cycles_of};
ghost use Rattle.prem_cycle.specs.FactsOf.{stop_of};
ghost use Rattle.prem_cycle.specs.Inputs.{FitsRun, image_run, setup_of, words_of};
ghost use Rattle.prem_machine.specs.States.{requests_in, setup_in, state_of};
ghost use Rattle.prem_machine.specs.Parts.{state_of as parts_state};
ghost use Rattle.prem_profile.specs.Spent.{chosen, no_cost, spent_in_all, waiting_home};
ghost use Rattle.prem_profile.specs.Issuer.{chosen_task, coming_pc, issuer_in};
ghost use Rattle.prem_profile.specs.Turn.{AreSeen, has_executed, is_point, seen_cost, seen_home, seen_of};
ghost use Rattle.prem_profile.specs.Account.{each_row, goes_on, row_cost};
ghost use Rattle.prem_profile.specs.Calls.{AreOfCode, call_cost, narrow, run_calls};
ghost use Rattle.prem_profile.specs.declared.home.Home.TheVariants.{Rest};

use crate::account::{Account, RowTable, book, new_account, row_of};
use crate::ahead::{next_turn, none_ahead};
use crate::calls::{Calls, FunctionTable, call, new_calls, settle};
use crate::cost::Cost;
use crate::home::Home;
use prem_cycle::{Mode, Stop};
use prem_gate::RunInput;
use prem_image::Image;
use prem_lru::Policy;
use prem_machine::{Machine, Parts};
use prem_plant::TaskId;
use prem_sched::Choice;
use std::alloc::{AllocError, Global};

/// What a machine before some cycles gives to what is seen behind them.
#[derive(Clone, Copy, PartialEq, Eq, Debug)]
pub struct StateBefore {
    pub now: u64,
    /// The address of the instruction that is executed, if one is.
    pub pc: u32,
    /// Where cycles are spent that execute nothing.
    pub waiting: Home,
    pub hits: u64,
    pub misses: u64,
    pub backs: u64,
}

/// Where a cycle at a scheduling point is spent.
fn chosen(choice: Choice) -> Home
    ensures { result ≡ chosen choice }
{
    match choice {
        Choice::Run(task) => Home::Switch(task),
        Choice::Idle { .. } | Choice::Finished => Home::Rest,
    }
}

/// Where the coming cycle is spent if it executes nothing.
fn waiting_home<P: Policy>(parts: &Parts<P>, before: Home) -> Home
    ensures { result ≡ waiting_home (parts_state parts.entry.now).now (parts_state parts.entry.now).sched (parts_state parts.entry.now).core.mode before }
{
    match parts.moment.mode {
        Mode::Point => chosen(parts.sched.choose(parts.now)),
        Mode::Switching { task, .. } => Home::Switch(task),
        Mode::Running { .. } => before,
        Mode::Idle { .. } => Home::Rest,
    }
}

/// The task that issues at a scheduling point, if one does.
fn chosen_task(choice: Choice) -> Option<TaskId>
    ensures { result ≡ chosen_task choice }
{
    match choice {
        Choice::Run(task) => Some(task),
        Choice::Idle { .. } | Choice::Finished => None,
    }
}

/// The task whose instruction the coming cycle issues, if one does.
fn issuer<P: Policy>(parts: &Parts<P>) -> Option<TaskId>
    ensures { result ≡ issuer_in (parts_state parts.entry.now).now (parts_state parts.entry.now).sched (parts_state parts.entry.now).core.mode }
{
    match parts.moment.mode {
        Mode::Point => chosen_task(parts.sched.choose(parts.now)),
        Mode::Switching { task, .. } | Mode::Running { task } => Some(task),
        Mode::Idle { .. } => None,
    }
}

/// The address of the next instruction of a task.
#[tactic(auto, using(crate::proofs::Tasks::pc_there, crate::proofs::Tasks::pc_untold, crate::proofs::Tasks::pc_none))]
fn pc_of<P: Policy>(parts: &Parts<P>, k: TaskId) -> u32
    ensures { result ≡ (task_in (parts_state parts.entry.now).work k).pc }
{
    let k = usize::from(k);
    if k >= parts.work.cores.len() {
        return 0;
    }
    if k >= parts.facts.tasks.items().len() {
        return 0;
    }
    parts.work.cores[k].pc()
}

/// The address of the instruction that the coming cycle executes, if it does; 0 where no task may issue one.
fn coming_pc<P: Policy>(parts: &Parts<P>) -> u32
    ensures { result ≡ coming_pc (parts_state parts.entry.now) }
{
    match issuer(parts) {
        Some(task) => pc_of(parts, task),
        None => 0,
    }
}

/// What the machine's parts give.
fn parts_seen<P: Policy>(parts: &Parts<P>, before: Home) -> StateBefore
    ensures { result ≡ seen_of before (parts_state parts.entry.now) }
{
    StateBefore {
        now: parts.now,
        pc: coming_pc(parts),
        waiting: waiting_home(parts, before),
        hits: parts.facts.hits,
        misses: parts.facts.misses,
        backs: parts.facts.writebacks,
    }
}

/// What a machine gives, behind a cycle with this home.
fn seen_of<P: Policy>(machine: &Machine<P>, before: Home) -> StateBefore
    ensures { result ≡ seen_of before (state_of machine.now) }
{
    parts_seen(machine.parts(), before)
}

/// Whether an instruction was executed.
fn has_executed<P: Policy>(machine: &Machine<P>, before: StateBefore) -> bool
    ensures { result ≡ has_executed before (state_of machine.now) }
{
    let facts = machine.facts();
    before.hits < facts.hits || before.misses < facts.misses
}

/// Where the cycles were spent.
fn seen_home<P: Policy>(machine: &Machine<P>, before: StateBefore) -> Home
    ensures { result ≡ seen_home before (state_of machine.now) }
{
    if has_executed(machine, before) {
        Home::At(before.pc)
    } else {
        before.waiting
    }
}

/// What they cost.
fn seen_cost<P: Policy>(machine: &Machine<P>, before: StateBefore) -> Cost
    requires now { before.now ≤ (state_of machine.now).now }
    requires misses { before.misses ≤ (state_of machine.now).log.counts.misses }
    requires backs { before.backs ≤ (state_of machine.now).log.counts.writebacks }
    ensures { result ≡ seen_cost before (state_of machine.now) }
{
    let facts = machine.facts();
    Cost {
        instructions: if has_executed(machine, before) { 1 } else { 0 },
        cycles: machine.now() - before.now,
        misses: facts.misses - before.misses,
        backs: facts.writebacks - before.backs,
    }
}

/// Some cycles of a run that are all spent at one home, and why it stopped behind them.
#[derive(Clone, Copy, PartialEq, Eq, Debug)]
pub struct SpentCycles {
    pub stop: Stop,
    pub home: Home,
    pub cost: Cost,
}

/// Goes on up to a cycle, behind one with this home.
///
/// Condition: this cycle hasn't passed.
pub fn go_on<P: Policy>(machine: &mut Machine<P>, before: Home, to: u64) -> SpentCycles
    requires now { (state_of machine.old).now ≤ to }
    requires limit { to ≤ 2 ^ 61 }
    ensures state { state_of machine.new ≡ cycles_of (rule_in (setup_in machine.old)) (setup_in machine.old) (requests_in machine.old)
        (to - (state_of machine.old).now) (state_of machine.old) }
    ensures setup { setup_in machine.new ≡ setup_in machine.old }
    ensures requests { requests_in machine.new ≡ requests_in machine.old }
    ensures stop { Some result.stop ≡ stop_of to (state_of machine.new) }
    ensures home { result.home ≡ seen_home (seen_of before (state_of machine.old)) (state_of machine.new) }
    ensures cost { result.cost ≡ seen_cost (seen_of before (state_of machine.old)) (state_of machine.new) }
{
    let seen = seen_of(machine, before);
    let stop = machine.run_to(to);
    let home = seen_home(machine, seen);
    let cost = seen_cost(machine, seen);
    SpentCycles { stop, home, cost }
}

/// Whether the run went on when it came to its limit.
fn goes_on(stop: Stop) -> bool
    ensures { result ≡ goes_on stop }
{
    match stop {
        Stop::Limit => true,
        Stop::Finished | Stop::Trap { .. } | Stop::LogFull { .. } => false,
    }
}

/// Whether there is another turn behind this cycle.
fn has_turn(at: u64, limit: u64, stop: Stop) -> bool
    ensures { result ≡ (nat_lt at limit && goes_on stop) }
{
    at < limit && goes_on(stop)
}

/// Whether it may be worth while to ask for the cycles that are dull.
fn may_pass<P: Policy>(machine: &Machine<P>) -> bool
    ensures { result ≡ true → is_point (state_of machine.now).core.mode ≡ false }
{
    match machine.mode() {
        Mode::Point => false,
        Mode::Switching { .. } | Mode::Idle { .. } => true,
        Mode::Running { .. } => {
            let parts = machine.parts();
            parts.moment.may_rest(&parts.core)
        }
    }
}

/// The cycle up to which the machine goes in one turn: past one cycle, or past all that are dull.
pub fn turn_end<P: Policy>(machine: &Machine<P>, at: u64, limit: u64) -> u64
    requires now { (state_of machine.now).now ≡ at }
    requires going { is_over (state_of machine.now) ≡ false }
    requires before { at < limit }
    requires limit { limit ≤ 2 ^ 61 }
    ensures from { at < result }
    ensures within { result ≤ limit }
    ensures seen { AreSeen (rule_in (setup_in machine.now)) (setup_in machine.now) (requests_in machine.now) (result - at) (state_of machine.now) }
{
    if may_pass(machine) {
        return machine.next_event(limit).max(at + 1);
    }
    at + 1
}

/// What is booked of a run.
#[derive(Drop)]
pub struct RunProfile {
    pub account: Account,
    /// Its calls, in which all is booked.
    pub calls: Calls,
}

/// What is spent in the run of an image up to a limit: in each row of a table, all together, and in the calls of each row. It fails only for
/// want of memory.
///
/// Conditions: the image's policy is of this kind, the run fits the image, the limit is at most 2^61, nothing is spent in any row before, and
/// only rows of code have functions.
pub fn profile<P: Policy>(
    alloc: Global,
    image: &Image,
    input: &RunInput,
    table: &RowTable,
    functions: &FunctionTable,
    costs: Vec<Cost>,
    limit: u64,
) -> Result<RunProfile, AllocError>
    requires policy { image.now.plant.policy ≡ P.kind_of }
    requires fits { FitsRun (setup_of image.now) (words_of input.now) (items_of input.now.requests) }
    requires limit { limit ≤ 2 ^ 61 }
    requires costs { costs.items ≡ replicate (length costs.items) no_cost }
    requires functions { AreOfCode functions.now.functions.items table.now.tasks }
    ensures total { IfOk result (λ p. p.account.total ≡ spent_in_all (rule_in (setup_of image.now)) (setup_of image.now) (items_of input.now.requests) Rest limit
        (image_run (rule_in (setup_of image.now)) image.now input.now 0)) }
    ensures costs { IfOk result (λ p. p.account.costs.items ≡ each_row (row_cost table.now.tasks table.now.words.items (rule_in (setup_of image.now)) (setup_of image.now)
        (items_of input.now.requests) limit (image_run (rule_in (setup_of image.now)) image.now input.now 0)) 0 (length costs.items)) }
    ensures callees { IfOk result (λ p. p.calls.callees.items ≡ (run_calls functions.now.functions.items table.now.tasks table.now.words.items functions.now.most (length costs.items)
        (rule_in (setup_of image.now)) (setup_of image.now) (items_of input.now.requests) limit (image_run (rule_in (setup_of image.now)) image.now input.now 0)).callees) }
    ensures calls { IfOk result (λ p. map narrow p.calls.costs.items ≡ each_row (call_cost functions.now.functions.items table.now.tasks table.now.words.items functions.now.most (length costs.items)
        (rule_in (setup_of image.now)) (setup_of image.now) (items_of input.now.requests) limit (image_run (rule_in (setup_of image.now)) image.now input.now 0)) 0 (length costs.items)) }
{
    let mut machine = Machine::<P>::new(alloc, image, input)?;
    let first = row_of(table, Home::Rest);
    let mut calls = new_calls(alloc, functions, first, costs.len())?;
    let mut account = new_account(costs);
    let mut ahead = none_ahead(alloc)?;
    let mut at = 0u64;
    let mut stop = machine.run_to(at);
    'turns: while has_turn(at, limit, stop) {
        let turn = next_turn(
            image,
            input,
            &mut machine,
            &mut ahead,
            account.home,
            at,
            limit,
        );
        let row = row_of(table, turn.home);
        book(&mut account, turn.home, row, turn.cost);
        call(&mut calls, functions, row, turn.cost);
        stop = turn.stop;
        at = turn.end;
    }
    settle(&mut calls, functions);
    Ok(RunProfile { account, calls })
}
