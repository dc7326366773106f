// What differs between a function's annotations and those that are wanted.
ghost use Rattle.std.specs.Prelude.{◌≡◌, ◌++◌, ◌∷◌, [], map, OnOk, IfOk};
ghost use Rattle.std.specs.Option.{option_map};
ghost use Rattle.prem_syntax.specs.SyntaxOf.{parameter_of, region_of, mark_of, function_of};
ghost use Rattle.prem_annotating.specs.Editing.Orders.{order_of, same_region, same_regions, length_order, regions_order, mark_orders, range_order, range_at, orders_from, function_orders};

use crate::editing::said::{length_text, range_text, regions_text};
use crate::editing::walk::Order;
use prem_syntax::{Function, Mark, Param, Region};
use std::alloc::{AllocError, Global};

fn same_region(a: &Region, b: &Region) -> bool
    ensures { result ≡ same_region (region_of a.now) (region_of b.now) }
{
    a.name.bytes() == b.name.bytes() && (a.low == b.low && a.high == b.high)
}

/// Whether regions are the same, places aside.
fn same_regions(old: &[Region], wanted: &[Region]) -> bool
    ensures { result ≡ same_regions (map region_of old.now) (map region_of wanted.now) }
{
    if old.len() != wanted.len() {
        return false;
    }
    for i in 0..old.len() {
        if !same_region(&old[i], &wanted[i]) {
            return false;
        }
    }
    true
}

fn length_order(alloc: Global, old: u32, wanted: u32) -> Result<Order, AllocError>
    ensures { IfOk result (λ o. order_of o ≡ length_order old wanted) }
{
    if old == wanted {
        Ok(Order::Leave)
    } else {
        Ok(Order::Put {
            text: length_text(alloc, wanted)?,
        })
    }
}

fn regions_order(alloc: Global, old: &[Region], wanted: &[Region]) -> Result<Order, AllocError>
    ensures { IfOk result (λ o. order_of o ≡ regions_order (map region_of old.now) (map region_of wanted.now)) }
{
    if same_regions(old, wanted) {
        Ok(Order::Leave)
    } else {
        Ok(Order::PutFor {
            regions: old.len(),
            text: regions_text(alloc, wanted)?,
        })
    }
}

/// A RANGE that stands stays.
fn range_order(
    alloc: Global,
    stands: Option<(i64, i64)>,
    wanted: Option<(i64, i64)>,
) -> Result<Order, AllocError>
    ensures { IfOk result (λ o. order_of o ≡ range_order stands wanted) }
{
    match stands {
        Some(_) => Ok(Order::Leave),
        None => match wanted {
            Some((low, high)) => Ok(Order::Put {
                text: range_text(alloc, low, high)?,
            }),
            None => Ok(Order::Leave),
        },
    }
}

fn push_mark(
    alloc: Global,
    orders: &mut Vec<Order>,
    mark: &Mark,
    wanted: &Mark,
) -> Result<(), AllocError>
    ensures { OnOk result (map order_of orders.new.items ≡ map order_of orders.old.items ++ length_order mark.now.stated wanted.now.stated ∷ regions_order (mark_of mark.now).regions (mark_of wanted.now).regions ∷ []) }
{
    orders.push(length_order(alloc, mark.stated, wanted.stated)?)?;
    orders.push(regions_order(alloc, mark.regions.items(), wanted.regions.items())?)?;
    Ok(())
}

/// The orders of a mark.
fn push_marks(
    alloc: Global,
    orders: &mut Vec<Order>,
    mark: &Option<Mark>,
    wanted: &Option<Mark>,
) -> Result<(), AllocError>
    ensures { OnOk result (map order_of orders.new.items ≡ map order_of orders.old.items ++ mark_orders (option_map mark_of mark.now) (option_map mark_of wanted.now)) }
{
    match mark {
        None => Ok(()),
        Some(mark) => match wanted {
            Some(wanted) => push_mark(alloc, orders, mark, wanted),
            None => {
                orders.push(Order::Leave)?;
                orders.push(Order::Leave)?;
                Ok(())
            }
        },
    }
}

fn range_at(ranges: &[Option<(i64, i64)>], n: usize) -> Option<(i64, i64)>
    ensures { result ≡ range_at ranges.now n }
{
    if n < ranges.len() { ranges[n] } else { None }
}

fn push_range(
    alloc: Global,
    orders: &mut Vec<Order>,
    param: &Param,
    wanted: Option<(i64, i64)>,
) -> Result<(), AllocError>
    ensures { OnOk result (map order_of orders.new.items ≡ map order_of orders.old.items ++ range_order (parameter_of param.now).range wanted ∷ []) }
{
    orders.push(range_order(alloc, param.range, wanted)?)?;
    Ok(())
}

/// The orders of parameters.
fn push_ranges(
    alloc: Global,
    orders: &mut Vec<Order>,
    params: &[Param],
    wanted: &[Option<(i64, i64)>],
) -> Result<(), AllocError>
    ensures { OnOk result (map order_of orders.new.items ≡ map order_of orders.old.items ++ orders_from 0 (map parameter_of params.now) wanted.now) }
{
    for i in 0..params.len() {
        push_range(alloc, orders, &params[i], range_at(wanted, i))?;
    }
    Ok(())
}

/// The orders of a function that is to have a mark and the RANGEs of its parameters are put behind others.
pub fn push_orders(
    alloc: Global,
    orders: &mut Vec<Order>,
    f: &Function,
    mark: &Option<Mark>,
    ranges: &[Option<(i64, i64)>],
) -> Result<(), AllocError>
    ensures { OnOk result (map order_of orders.new.items ≡ map order_of orders.old.items ++ function_orders (function_of f.now) (option_map mark_of mark.now) ranges.now) }
{
    push_marks(alloc, orders, &f.mark, mark)?;
    push_ranges(alloc, orders, f.params.items(), ranges)?;
    Ok(())
}
