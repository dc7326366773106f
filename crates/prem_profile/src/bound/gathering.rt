// Bills with one item for each spot: so a bill is no longer than the code that it has been spent in, however often it is called.
ghost use Rattle.std.specs.Prelude.{◌≡◌, ◌<◌, ◌^◌, slice_index_or, slice_set, length, IfOk, OnOk};
ghost use Rattle.prem_profile.specs.declared.bound.bill.Item.{Item};
ghost use Rattle.prem_profile.specs.declared.bound.bill.Spot.TheVariants.{Switch};
ghost use Rattle.prem_profile.specs.Spent.{no_cost};
ghost use Rattle.prem_profile.specs.Bound.Bills.{gathered, told_plus};
ghost use Rattle.prem_profile.specs.Bound.Slots.{items_with, lower, lowest, more_at, nothing_spent, slot_of, slots_for, slots_with};

use crate::bound::bill::{Item, Spot};
use crate::cost::{Cost, no_cost};
use crate::strip::{no_rows, set_row};
use prem_bounds::scale::plus;
use std::alloc::{AllocError, Global};

/// Both together, told up to 2^41.
fn told_plus(a: Cost, b: Cost) -> Cost
    ensures { result ≡ told_plus a b }
{
    Cost {
        instructions: plus(a.instructions, b.instructions),
        cycles: plus(a.cycles, b.cycles),
        misses: plus(a.misses, b.misses),
        backs: plus(a.backs, b.backs),
    }
}

// ---- slots

/// The lower one of a word and that of a spot, if it has one.
fn lower(low: u32, spot: Spot) -> u32
    ensures { result ≡ lower low spot }
{
    match spot {
        Spot::Switch(_) | Spot::Call(_) => low,
        Spot::At(pc) => low.min(pc / 4),
    }
}

/// The lowest word that a bill has.
fn lowest(bill: &[Item]) -> u32
    ensures { result ≡ lowest 4294967295 bill.now }
{
    let mut low = u32::MAX;
    'items: for item in bill {
        low = lower(low, item.spot);
    }
    low
}

/// The slot of a spot, where no word is below the lowest one.
fn slot_of(low: u32, spot: Spot) -> usize
    ensures slot { result ≡ slot_of low spot }
    ensures small { result < 2 ^ 34 }
{
    match spot {
        Spot::Switch(k) => 3 * usize::from(k),
        Spot::At(pc) => 3 * ((pc / 4).saturating_sub(low) as usize) + 1,
        Spot::Call(f) => 3 * (f as usize) + 2,
    }
}

/// How many slots a bill needs.
fn slots_for(low: u32, bill: &[Item]) -> usize
    ensures { result ≡ slots_for low 0 bill.now }
{
    let mut count = 0;
    'items: for item in bill {
        count = count.max(slot_of(low, item.spot) + 1);
    }
    count
}

/// The number in a slot.
fn number_at(slots: &[usize], slot: usize) -> usize
    ensures { result ≡ slice_index_or slots.now slot 0 }
{
    match slots.get(slot) {
        Some(number) => *number,
        None => 0,
    }
}

// ---- items

/// The item at a place; nothing where it isn't there.
fn item_at(items: &[Item], place: usize) -> Item
    ensures { result ≡ slice_index_or items.now place nothing_spent }
{
    match items.get(place) {
        Some(item) => *item,
        None => Item {
            spot: Spot::Switch(0),
            cost: no_cost(),
        },
    }
}

/// A place gets another item, if it is there.
#[tactic(auto, using(crate::proofs::BillLemmas::Slots::set_past))]
fn set_item(items: &mut Vec<Item>, place: usize, item: Item)
    ensures { items.new.items ≡ slice_set items.old.items place item }
{
    if place < items.len() {
        items[place] = item;
    }
}

/// The item at a place gets another cost too, if it is there.
#[tactic(auto, using(crate::proofs::BillLemmas::Slots::set_is))]
fn add_at(items: &mut Vec<Item>, place: usize, cost: Cost)
    ensures { items.new.items ≡ more_at items.old.items place cost }
{
    let old = item_at(items, place);
    let cost = told_plus(old.cost, cost);
    let spot = old.spot;
    set_item(items, place, Item { spot, cost });
}

/// One item more, whose spot has this slot.
fn put(
    items: &mut Vec<Item>,
    slots: &mut Vec<usize>,
    slot: usize,
    item: Item,
) -> Result<(), AllocError>
    ensures items { OnOk result (items.new.items ≡ items_with items.old.items (slice_index_or slots.old.items slot 0) item) }
    ensures slots { OnOk result (slots.new.items ≡ slots_with slots.old.items slot (length items.old.items)) }
{
    let number = number_at(slots, slot);
    if number == 0 {
        let place = items.len();
        items.push(item)?;
        set_row(slots, slot, place + 1);
    } else {
        add_at(items, number - 1, item.cost);
    }
    Ok(())
}

/// A bill with one item for each spot, in the order in which they come first.
pub fn gather(alloc: Global, bill: &[Item]) -> Result<Vec<Item>, AllocError>
    ensures { IfOk result (λ all. all.items ≡ gathered bill.now) }
{
    let low = lowest(bill);
    let mut slots = no_rows(alloc, slots_for(low, bill))?;
    let mut all = Vec::new(alloc);
    'items: for item in bill {
        put(&mut all, &mut slots, slot_of(low, item.spot), *item)?;
    }
    Ok(all)
}
