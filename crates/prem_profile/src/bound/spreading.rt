// A path with the items of the functions that it calls in place of its calls. Each function is told once, as often as it is called in
// all: so what is told is no longer than the code, however deep calls go.
ghost use Rattle.std.specs.Prelude.{◌≡◌, ◌+◌, ◌*◌, ◌++◌, ℕ, length, replicate, IfOk, OnOk};
ghost use Rattle.prem_bounds.specs.Scale.{clipped};
ghost use Rattle.prem_profile.specs.Bound.Bills.{bill_times};
ghost use Rattle.prem_profile.specs.Bound.Priced.{bills_in};
ghost use Rattle.prem_profile.specs.Bound.Spread.{Counts, calls_for, calls_on, items_often, item_calls, item_told, spread, spread_path, without_calls};

use crate::bound::bill::{Item, Spot, cost_times, product, push_item};
use prem_bounds::scale::plus;
use std::alloc::{AllocError, Global};

// ---- how often functions are called

/// So many functions, of which none is called.
fn no_counts(alloc: Global, n: usize) -> Result<Vec<u64>, AllocError>
    ensures { IfOk result (λ counts. counts.items ≡ replicate n 0) }
{
    let mut counts = Vec::new(alloc);
    'counts: for _ in 0..n {
        counts.push(0u64)?;
    }
    Ok(counts)
}

/// So many calls more of a function, if it is one of these. Numbers are told up to 2^41.
fn add_count(counts: &mut Vec<u64>, f: u32, more: u64)
    ensures long { length counts.new.items ≡ length counts.old.items }
    ensures told { (w : ℕ → ℕ) → (n : ℕ) → more ≡ clipped n → Counts counts.old.items w → Counts counts.new.items (λ g. w g + calls_for f n g) }
{
    let place = f as usize;
    if place < counts.len() {
        counts[place] = plus(counts[place], more);
    }
}

/// The calls of an item more, so often.
fn add_item(counts: &mut Vec<u64>, often: u64, item: Item)
    ensures long { length counts.new.items ≡ length counts.old.items }
    ensures told { (w : ℕ → ℕ) → (n : ℕ) → often ≡ clipped n → Counts counts.old.items w → Counts counts.new.items (λ g. w g + n * item_calls item g) }
{
    match item.spot {
        Spot::Call(f) => add_count(counts, f, product(often, item.cost.instructions)),
        _ => {}
    }
}

/// The calls on a bill more, so often.
fn add_calls(counts: &mut Vec<u64>, often: u64, bill: &[Item])
    ensures long { length counts.new.items ≡ length counts.old.items }
    ensures told { (w : ℕ → ℕ) → (n : ℕ) → often ≡ clipped n → Counts counts.old.items w → Counts counts.new.items (λ g. w g + n * calls_on bill.now g) }
{
    'items: for item in bill {
        add_item(counts, often, *item);
    }
}

// ---- items

/// Puts an item so often behind a bill, unless it is a call.
fn push_no_call(bill: &mut Vec<Item>, often: u64, item: Item) -> Result<(), AllocError>
    ensures { OnOk result (bill.new.items ≡ bill.old.items ++ bill_times often (item_told item)) }
{
    match item.spot {
        Spot::Call(_) => Ok(()),
        _ => push_item(bill, item.spot, cost_times(often, item.cost)),
    }
}

/// Puts the items of a bill that are no calls so often behind another one.
fn push_items(bill: &mut Vec<Item>, often: u64, more: &[Item]) -> Result<(), AllocError>
    ensures { OnOk result (bill.new.items ≡ bill.old.items ++ bill_times often (without_calls more.now)) }
{
    'items: for item in more {
        push_no_call(bill, often, *item)?;
    }
    Ok(())
}

/// Puts a function that is called so often behind a bill, and counts its calls.
fn push_function(
    bill: &mut Vec<Item>,
    counts: &mut Vec<u64>,
    often: u64,
    function: &[Item],
) -> Result<(), AllocError>
    ensures items { OnOk result (bill.new.items ≡ bill.old.items ++ items_often often function.now) }
    ensures long { OnOk result (length counts.new.items ≡ length counts.old.items) }
    ensures told { OnOk result ((w : ℕ → ℕ) → (n : ℕ) → often ≡ clipped n → Counts counts.old.items w → Counts counts.new.items (λ g. w g + n * calls_on function.now g)) }
{
    if often == 0 {
        return Ok(());
    }
    add_calls(counts, often, function);
    push_items(bill, often, function)
}

/// Puts functions that are called so often behind a bill, from the last one to the first one.
fn push_functions(
    bill: &mut Vec<Item>,
    functions: &[Vec<Item>],
    counts: Vec<u64>,
) -> Result<(), AllocError>
    requires long { length counts.items ≡ length functions.now }
    ensures { OnOk result ((w : ℕ → ℕ) → Counts counts.items w → bill.new.items ≡ bill.old.items ++ spread (bills_in functions.now) (length functions.now) w) }
{
    let mut counts = counts;
    let mut n = functions.len();
    'back: while n > 0 {
        n -= 1;
        let often = counts[n];
        push_function(bill, &mut counts, often, &functions[n])?;
    }
    Ok(())
}

/// Puts a path behind a bill, with the items of functions in place of its calls.
pub fn push_spread(
    alloc: Global,
    bill: &mut Vec<Item>,
    path: &[Item],
    functions: &[Vec<Item>],
) -> Result<(), AllocError>
    ensures { OnOk result (bill.new.items ≡ bill.old.items ++ spread_path (bills_in functions.now) path.now) }
{
    let mut counts = no_counts(alloc, functions.len())?;
    push_function(bill, &mut counts, 1, path)?;
    push_functions(bill, functions, counts)
}
