// The text of a program with annotations.
ghost use Rattle.std.specs.Prelude.{◌≡◌, ◌++◌, map, Ok, OnOk, IfOk};
ghost use Rattle.prem_syntax.specs.Resolve.{functions_of};
ghost use Rattle.prem_syntax.specs.SyntaxOf.{function_of, item_of, program_of};
ghost use Rattle.prem_text.specs.Texts.{reads};
ghost use Rattle.prem_annotating.specs.Editing.Orders.{order_of};
ghost use Rattle.prem_annotate.specs.Notes.{notes_of};
ghost use Rattle.prem_annotate.specs.Writing.Text.{annotated_text, orders_at, orders_from};

use crate::notes::FunctionNotes;
use prem_annotating::editing::{Order, edited_text, push_orders};
use prem_syntax::{Function, Item, Program};
use std::alloc::{AllocError, Global};

/// The orders of the function of a number; where it has no notes, it stays.
fn push_noted(
    alloc: Global,
    orders: &mut Vec<Order>,
    f: &Function,
    notes: &[FunctionNotes],
    n: usize,
) -> Result<(), AllocError>
    ensures { OnOk result (map order_of orders.new.items ≡ map order_of orders.old.items ++ orders_at (function_of f.now) (map notes_of notes.now) n) }
{
    match notes.get(n) {
        Some(noted) => push_orders(alloc, orders, f, &noted.mark, &noted.ranges),
        None => push_orders(alloc, orders, f, &None, &[]),
    }
}

/// The orders of all functions.
fn orders(alloc: Global, items: &[Item], notes: &[FunctionNotes]) -> Result<Vec<Order>, AllocError>
    ensures { IfOk result (λ os. map order_of os.items ≡ orders_from 0 (functions_of (map item_of items.now)) (map notes_of notes.now)) }
{
    let mut orders = Vec::new(alloc);
    let mut n = 0;
    for item in items {
        match item {
            Item::Global(_) => {}
            Item::Function(f) => {
                push_noted(alloc, &mut orders, f, notes, n)?;
                n += 1;
            }
        }
    }
    Ok(orders)
}

/// A program's text in which each function has its notes: the literal of a mark, its regions, and RANGEs behind the names of
/// parameters are put where they differ from what stands, and all other bytes stay. It fails only for want of memory, and
/// takes time in proportion to the text.
pub fn annotate_text(
    alloc: Global,
    text: &[u8],
    program: &Program,
    notes: &[FunctionNotes],
) -> Result<Vec<u8>, AllocError>
    requires { reads text.now ≡ Ok (program_of program.now) }
    ensures { IfOk result (λ new. new.items ≡ annotated_text (map notes_of notes.now) text.now) }
{
    let orders = orders(alloc, program.items.items(), notes)?;
    let edited = edited_text(alloc, text, &orders)?;
    Ok(edited)
}
