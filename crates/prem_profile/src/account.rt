// What is booked of a run.
ghost use Rattle.std.specs.Prelude.{◌≡◌, ◌/◌, slice_index_or, slice_set};
ghost use Rattle.prem_profile.specs.Spent.{no_cost, plus};
ghost use Rattle.prem_profile.specs.Account.{Fits, HasRoom, row_of, switch_row, with_cost};
ghost use Rattle.prem_profile.specs.declared.home.Home.TheVariants.{Rest};

use crate::cost::{Cost, no_cost, plus};
use crate::home::Home;
use prem_plant::TaskId;

/// The row in which each home is booked.
#[derive(Drop)]
pub struct RowTable {
    /// How many tasks there are.
    pub tasks: usize,
    /// The row of each word of memory; 0 for those behind the last.
    pub words: Vec<usize>,
}

/// The row of switches to a task.
pub fn switch_row(tasks: usize, k: TaskId) -> usize
    ensures { result ≡ switch_row tasks k }
{
    let k = usize::from(k);
    if k < tasks { 2 + k } else { 0 }
}

/// The row of the word at an address.
fn word_row(words: &[usize], pc: u32) -> usize
    ensures { result ≡ slice_index_or words.now (pc / 4) 0 }
{
    match words.get((pc / 4) as usize) {
        Some(row) => *row,
        None => 0,
    }
}

/// The row of a home.
pub fn row_of(table: &RowTable, home: Home) -> usize
    ensures { result ≡ row_of table.now.tasks table.now.words.items home }
{
    match home {
        Home::Rest => 1,
        Home::Switch(k) => switch_row(table.tasks, k),
        Home::At(pc) => word_row(table.words.as_slice(), pc),
    }
}

/// What is booked of a run.
#[derive(Drop)]
pub struct Account {
    /// The home of the last cycle.
    pub home: Home,
    /// All together.
    pub total: Cost,
    /// In each row.
    pub costs: Vec<Cost>,
}

/// An account with these rows, in which nothing is booked.
pub fn new_account(costs: Vec<Cost>) -> Account
    ensures home { result.home ≡ Rest }
    ensures total { result.total ≡ no_cost }
    ensures costs { result.costs.items ≡ costs.items }
{
    Account {
        home: Home::Rest,
        total: no_cost(),
        costs,
    }
}

/// The cost of a row; nothing where it isn't there.
pub fn cost_at(costs: &[Cost], row: usize) -> Cost
    ensures { result ≡ slice_index_or costs.now row no_cost }
{
    match costs.get(row) {
        Some(cost) => *cost,
        None => no_cost(),
    }
}

/// A row gets another cost, if it is there.
#[tactic(auto, using(crate::proofs::Booking::set_past))]
fn set_cost(costs: &mut Vec<Cost>, row: usize, cost: Cost)
    ensures { costs.new.items ≡ slice_set costs.old.items row cost }
{
    if row < costs.len() {
        costs[row] = cost;
    }
}

/// Books a cost in a row, if it is there.
#[tactic(auto, using(crate::proofs::Booking::set_is))]
fn book_in(costs: &mut Vec<Cost>, row: usize, cost: Cost)
    requires { Fits (slice_index_or costs.old.items row no_cost) cost }
    ensures { costs.new.items ≡ with_cost costs.old.items row cost }
{
    let sum = plus(cost_at(costs, row), cost);
    set_cost(costs, row, sum);
}

/// Books a cost at a home, in its row.
#[inline(always)]
pub fn book(account: &mut Account, home: Home, row: usize, cost: Cost)
    requires { HasRoom account.old.total account.old.costs.items cost }
    ensures home { account.new.home ≡ home }
    ensures total { account.new.total ≡ plus account.old.total cost }
    ensures costs { account.new.costs.items ≡ with_cost account.old.costs.items row cost }
{
    account.home = home;
    account.total = plus(account.total, cost);
    book_in(&mut account.costs, row, cost);
}
