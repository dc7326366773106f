// What a run spends in calls.
ghost use Rattle.std.specs.Prelude.{◌≡◌, ◌+◌, ◌-◌, ◌<◌, ◌^◌, ◌++◌, if◌then◌else◌, length, map, replicate, slice_index_or, slice_set, IfOk, OnOk};
ghost use Rattle.prem_profile.specs.Strips.{strip_of};
ghost use Rattle.prem_profile.specs.Spent.{no_cost, plus};
ghost use Rattle.prem_profile.specs.Account.{Fits, with_cost};
ghost use Rattle.prem_profile.specs.Calls.{FitsWide, HasWideRoom, caller_of, calls_of, function_at, functions_from, is_first, last_calls, narrow, costs_with, no_calls, noted, recent_with, settled, with_call, with_calls};

use crate::cost::{Cost, no_cost, plus};
use crate::strip::{Strip, no_rows, set_row};
use std::alloc::{AllocError, Global};

/// What is spent in calls, each of which counts as long as it is open.
#[derive(Clone, Copy, PartialEq, Eq, Debug)]
pub struct WideCost {
    pub instructions: u128,
    pub cycles: u128,
    pub misses: u128,
    pub backs: u128,
}

/// The functions of a profile.
#[derive(Drop)]
pub struct FunctionTable {
    /// How many there are: no more calls are open at once.
    pub most: usize,
    /// The number of each row's function, from 1 on; 0 where the row has none.
    pub functions: Vec<usize>,
}

/// The function of a row.
fn function_at(functions: &[usize], row: usize) -> usize
    ensures { result ≡ function_at functions.now row }
{
    match functions.get(row) {
        Some(function) => *function,
        None => 0,
    }
}

/// The function of the row before; that of the first row where there is none before.
fn function_before(functions: &[usize], row: usize) -> usize
    ensures { result ≡ function_at functions.now (row - 1) }
{
    if row > 0 {
        function_at(functions, row - 1)
    } else {
        function_at(functions, 0)
    }
}

/// Whether a row is the first word of this function, in which it stands.
fn is_first(functions: &[usize], function: usize, row: usize) -> bool
    requires { function ≡ function_at functions.now row }
    ensures { result ≡ is_first functions.now row }
{
    0 < function && function_before(functions, row) != function
}

/// The row of the instruction that has called a row's function last.
fn caller_of(functions: &[usize], callers: &[usize], row: usize) -> usize
    ensures { result ≡ caller_of functions.now callers.now row }
{
    match callers.get(function_at(functions, row)) {
        Some(caller) => *caller,
        None => 0,
    }
}

/// A cost more.
fn more(a: WideCost, b: Cost) -> WideCost
    requires { FitsWide (narrow a) b }
    ensures { narrow result ≡ plus (narrow a) b }
{
    WideCost {
        instructions: a.instructions + u128::from(b.instructions),
        cycles: a.cycles + u128::from(b.cycles),
        misses: a.misses + u128::from(b.misses),
        backs: a.backs + u128::from(b.backs),
    }
}

/// Nothing.
pub fn nothing() -> WideCost
    ensures { narrow result ≡ no_cost }
{
    WideCost {
        instructions: 0,
        cycles: 0,
        misses: 0,
        backs: 0,
    }
}

/// The cost of a row; nothing where it isn't there.
#[tactic(auto, using(crate::proofs::Rooms::narrow_there, crate::proofs::Rooms::narrow_past))]
pub fn wide_at(costs: &[WideCost], row: usize) -> WideCost
    ensures { narrow result ≡ slice_index_or (map narrow costs.now) row no_cost }
{
    if row < costs.len() {
        costs[row]
    } else {
        nothing()
    }
}

/// A row gets another cost, if it is there.
#[tactic(auto, using(crate::proofs::Rooms::wide_past))]
fn set_wide(costs: &mut Vec<WideCost>, row: usize, cost: WideCost)
    ensures { costs.new.items ≡ slice_set costs.old.items row cost }
{
    if row < costs.len() {
        costs[row] = cost;
    }
}

/// Books a cost in a row, if it is there.
#[tactic(auto, using(crate::proofs::Rooms::wide_booked))]
fn book_in(costs: &mut Vec<WideCost>, row: usize, cost: Cost)
    requires { FitsWide (slice_index_or (map narrow costs.old.items) row no_cost) cost }
    ensures { map narrow costs.new.items ≡ with_cost (map narrow costs.old.items) row cost }
{
    let sum = more(wide_at(costs, row), cost);
    set_wide(costs, row, sum);
}

/// Books a cost in all calls in which a row stands.
fn book_calls(
    costs: &mut Vec<WideCost>,
    table: &FunctionTable,
    callers: &[usize],
    row: usize,
    cost: Cost,
)
    requires { HasWideRoom table.now.most (map narrow costs.old.items) cost }
    ensures { map narrow costs.new.items ≡ with_calls (map narrow costs.old.items) (calls_of table.now.most table.now.functions.items callers.now row) cost }
{
    let mut at = row;
    let mut left = table.most;
    'calls: while left > 0 {
        let caller = caller_of(table.functions.as_slice(), callers, at);
        if caller == 0 {
            return;
        }
        book_in(costs, caller, cost);
        at = caller;
        left -= 1;
    }
}

/// Costs of so many rows, which are nothing.
fn no_wide_costs(alloc: Global, rows: usize) -> Result<Vec<WideCost>, AllocError>
    ensures { IfOk result (λ costs. map narrow costs.items ≡ replicate rows no_cost) }
{
    let mut costs = Vec::new(alloc);
    'rows: for _ in 0..rows {
        costs.push(nothing())?;
    }
    Ok(costs)
}

/// What is known of the calls of a run.
#[derive(Drop)]
pub struct Calls {
    /// The row of the last cycle.
    pub row: usize,
    /// The function of that row.
    pub function: usize,
    /// What was spent in that function since the last cycle outside of it, which isn't booked yet.
    pub recent: Cost,
    /// The row of the instruction that has called each function last; 0 where none has.
    pub callers: Vec<usize>,
    /// The function that each row has called last; 0 where it has called none.
    pub callees: Vec<usize>,
    /// What was booked in the calls of each row.
    pub costs: Vec<WideCost>,
}

/// What is known before the first cycle of a run, which is behind this row, in a table of so many rows.
pub fn new_calls(
    alloc: Global,
    table: &FunctionTable,
    row: usize,
    rows: usize,
) -> Result<Calls, AllocError>
    ensures few { table.now.most < 2 ^ 64 }
    ensures row { IfOk result (λ calls. calls.row ≡ row) }
    ensures function { IfOk result (λ calls. calls.function ≡ function_at table.now.functions.items row) }
    ensures recent { IfOk result (λ calls. calls.recent ≡ no_cost) }
    ensures calls { IfOk result (λ calls. last_calls calls ≡ no_calls table.now.most rows) }
    ensures costs { IfOk result (λ calls. map narrow calls.costs.items ≡ replicate rows no_cost) }
{
    let mut callers = no_rows(alloc, table.most)?;
    callers.push(0usize)?;
    let callees = no_rows(alloc, rows)?;
    let costs = no_wide_costs(alloc, rows)?;
    Ok(Calls {
        row,
        function: function_at(table.functions.as_slice(), row),
        recent: no_cost(),
        callers,
        callees,
        costs,
    })
}

/// Books what was spent of late.
pub fn settle(calls: &mut Calls, table: &FunctionTable)
    requires { HasWideRoom table.now.most (map narrow calls.old.costs.items) calls.old.recent }
    ensures costs { map narrow calls.new.costs.items ≡ settled table.now.most table.now.functions.items calls.old.callers.items calls.old.row calls.old.recent (map narrow calls.old.costs.items) }
    ensures row { calls.new.row ≡ calls.old.row }
    ensures calls { last_calls calls.new ≡ last_calls calls.old }
{
    let callers = calls.callers.as_slice();
    book_calls(&mut calls.costs, table, callers, calls.row, calls.recent);
}

/// Notes that the last row has called this function, if a cycle at its first word is behind that row.
fn note(calls: &mut Calls, functions: &[usize], function: usize, row: usize)
    requires { function ≡ function_at functions.now row }
    ensures calls { last_calls calls.new ≡ (if is_first functions.now row then with_call function calls.old.row (last_calls calls.old) else last_calls calls.old) }
    ensures costs { calls.new.costs.items ≡ calls.old.costs.items }
{
    if is_first(functions, function, row) {
        set_row(&mut calls.callers, function, calls.row);
        set_row(&mut calls.callees, calls.row, function);
    }
}

/// Goes on at a row of another function.
#[cold]
#[inline(never)]
fn enter(calls: &mut Calls, table: &FunctionTable, function: usize, row: usize)
    requires function { function ≡ function_at table.now.functions.items row }
    requires room { HasWideRoom table.now.most (map narrow calls.old.costs.items) calls.old.recent }
    ensures costs { map narrow calls.new.costs.items ≡ settled table.now.most table.now.functions.items calls.old.callers.items calls.old.row calls.old.recent (map narrow calls.old.costs.items) }
    ensures calls { last_calls calls.new ≡ (if is_first table.now.functions.items row then with_call function calls.old.row (last_calls calls.old) else last_calls calls.old) }
    ensures function { calls.new.function ≡ function }
    ensures recent { calls.new.recent ≡ no_cost }
{
    settle(calls, table);
    note(calls, table.functions.as_slice(), function, row);
    calls.function = function;
    calls.recent = no_cost();
}

/// Books a cost at a row, in all calls in which that stands.
#[inline(always)]
pub fn call(calls: &mut Calls, table: &FunctionTable, row: usize, cost: Cost)
    requires function { calls.old.function ≡ function_at table.now.functions.items calls.old.row }
    requires room { HasWideRoom table.now.most (map narrow calls.old.costs.items) calls.old.recent }
    requires fits { Fits calls.old.recent cost }
    ensures row { calls.new.row ≡ row }
    ensures function { calls.new.function ≡ function_at table.now.functions.items row }
    ensures calls { last_calls calls.new ≡ noted table.now.functions.items calls.old.row row (last_calls calls.old) }
    ensures recent { calls.new.recent ≡ recent_with table.now.functions.items calls.old.row row calls.old.recent cost }
    ensures costs { map narrow calls.new.costs.items ≡ costs_with table.now.most table.now.functions.items calls.old.callers.items calls.old.row row calls.old.recent (map narrow calls.old.costs.items) }
{
    let function = function_at(table.functions.as_slice(), row);
    if function != calls.function {
        enter(calls, table, function, row);
    }
    calls.recent = plus(calls.recent, cost);
    calls.row = row;
}

/// So many rows of a function behind others.
fn push_function(functions: &mut Vec<usize>, function: usize, count: u32) -> Result<(), AllocError>
    ensures { OnOk result (functions.new.items ≡ functions.old.items ++ replicate count function) }
{
    'words: for _ in 0..count {
        functions.push(function)?;
    }
    Ok(())
}

/// The functions of strips behind others.
fn push_functions(functions: &mut Vec<usize>, strips: &[Strip]) -> Result<(), AllocError>
    ensures { OnOk result (functions.new.items ≡ functions.old.items ++ functions_from 1 (map strip_of strips.now)) }
{
    let mut number = 1usize;
    'strips: for strip in strips {
        let function = if strip.called { number } else { 0 };
        push_function(functions, function, strip.count)?;
        number += 1;
    }
    Ok(())
}

/// The functions of strips, whose rows begin with this one.
pub fn functions_of(
    alloc: Global,
    first: usize,
    strips: &[Strip],
) -> Result<FunctionTable, AllocError>
    ensures most { IfOk result (λ table. table.most ≡ length strips.now) }
    ensures functions { IfOk result (λ table. table.functions.items ≡ replicate first 0 ++ functions_from 1 (map strip_of strips.now)) }
{
    let mut functions = no_rows(alloc, first)?;
    push_functions(&mut functions, strips)?;
    Ok(FunctionTable {
        most: strips.len(),
        functions,
    })
}
