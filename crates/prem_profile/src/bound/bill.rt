// Bills: what a charge is made of, item by item, and for what each item is.
ghost use Rattle.std.specs.Prelude.{◌≡◌, ◌*◌, ◌++◌, ◌∷◌, [], OnOk};
ghost use Rattle.prem_bounds.specs.Scale.{clipped};
ghost use Rattle.prem_profile.specs.Bound.Bills.{bill_times, cost_times, cycles_on, dearer, home_of, spent_at};

use crate::cost::Cost;
use crate::home::Home;
use prem_bounds::scale::{ENOUGH, plus};
use prem_plant::TaskId;
use std::alloc::AllocError;

/// For what an item of a bill is.
#[derive(Clone, Copy, PartialEq, Eq, Debug)]
pub enum Spot {
    /// Switches to this task.
    Switch(TaskId),
    /// The instruction at this address.
    At(u32),
    /// Calls of the function of this number, while its own items aren't told in their place.
    Call(u32),
}

/// What is spent at a spot.
#[derive(Clone, Copy, PartialEq, Eq, Debug)]
pub struct Item {
    pub spot: Spot,
    pub cost: Cost,
}

/// The home of what is spent at a spot; calls have none of their own.
pub fn home_of(spot: Spot) -> Home
    ensures { result ≡ home_of spot }
{
    match spot {
        Spot::Switch(k) => Home::Switch(k),
        Spot::At(pc) => Home::At(pc),
        Spot::Call(_) => Home::Rest,
    }
}

/// Puts what is spent at a spot behind a bill.
pub fn push_item(bill: &mut Vec<Item>, spot: Spot, cost: Cost) -> Result<(), AllocError>
    ensures { OnOk result (bill.new.items ≡ bill.old.items ++ spent_at spot cost ∷ []) }
{
    bill.push(Item { spot, cost })?;
    Ok(())
}

/// Puts a bill behind another one.
pub fn append(bill: &mut Vec<Item>, more: &[Item]) -> Result<(), AllocError>
    ensures { OnOk result (bill.new.items ≡ bill.old.items ++ more.now) }
{
    'items: for item in more {
        bill.push(*item)?;
    }
    Ok(())
}

/// A product, which is told up to 2^41.
pub fn product(a: u64, b: u64) -> u64
    ensures { result ≡ clipped (a * b) }
{
    a.saturating_mul(b).min(ENOUGH)
}

/// What is spent so many times, which is told up to 2^41.
pub fn cost_times(n: u64, cost: Cost) -> Cost
    ensures { result ≡ cost_times n cost }
{
    Cost {
        instructions: product(n, cost.instructions),
        cycles: product(n, cost.cycles),
        misses: product(n, cost.misses),
        backs: product(n, cost.backs),
    }
}

/// Puts a bill so many times behind another one.
pub fn append_times(bill: &mut Vec<Item>, n: u32, more: &[Item]) -> Result<(), AllocError>
    ensures { OnOk result (bill.new.items ≡ bill.old.items ++ bill_times n more.now) }
{
    'items: for item in more {
        push_item(bill, item.spot, cost_times(u64::from(n), item.cost))?;
    }
    Ok(())
}

/// The cycles on a bill, which are told up to 2^41.
pub fn cycles_on(bill: &[Item]) -> u64
    ensures { result ≡ clipped (cycles_on bill.now) }
{
    let mut sum = 0;
    'items: for item in bill {
        sum = plus(sum, item.cost.cycles);
    }
    sum
}

/// The bill with more cycles; the first one where both have as many.
pub fn dearer(a: Vec<Item>, b: Vec<Item>) -> Vec<Item>
    ensures { result.items ≡ dearer a.items b.items }
{
    if cycles_on(&a) < cycles_on(&b) { b } else { a }
}
