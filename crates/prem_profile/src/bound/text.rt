// The profile of a bill.
ghost use Rattle.std.specs.Prelude.{◌≡◌, ◌+◌, ◌<◌, [], length, map, replicate, IfOk};
ghost use Rattle.prem_profile.specs.declared.home.Home.{Home};
ghost use Rattle.prem_profile.specs.Spent.{no_cost, plus};
ghost use Rattle.prem_profile.specs.Account.{HasRoom, each_row, row_of, with_cost};
ghost use Rattle.prem_profile.specs.Callgrind.{no_calls_at, profile_text};
ghost use Rattle.prem_profile.specs.Strips.{first_row, rows_of, strip_of, strip_words};
ghost use Rattle.prem_profile.specs.Bound.Bills.{home_of, total};
ghost use Rattle.prem_profile.specs.Bound.Booked.{bill_row};
ghost use Rattle.prem_profile.specs.Bound.Small.{IsSmall};

use crate::account::{Account, RowTable, book, new_account, row_of};
use crate::bound::bill::{Item, home_of};
use crate::callgrind::{Source, Told, profile_text};
use crate::calls::Calls;
use crate::cost::{Cost, no_cost};
use crate::strip::{Rows, Strip, rows_from};
use std::alloc::{AllocError, Global};

/// Books an item of a bill.
fn book_item(account: &mut Account, table: &RowTable, item: &Item)
    requires { HasRoom account.old.total account.old.costs.items item.now.cost }
    ensures total { account.new.total ≡ plus account.old.total item.now.cost }
    ensures costs { account.new.costs.items ≡ with_cost account.old.costs.items (row_of table.now.tasks table.now.words.items (home_of item.now.spot)) item.now.cost }
{
    let home = home_of(item.spot);
    let row = row_of(table, home);
    book(account, home, row, item.cost);
}

/// What the items of a bill come to in the rows of a table.
fn booked(table: &RowTable, costs: Vec<Cost>, bill: &[Item]) -> Account
    requires small { IsSmall bill.now }
    requires empty { costs.items ≡ replicate (length costs.items) no_cost }
    requires there { (h : Home) → row_of table.now.tasks table.now.words.items h < length costs.items }
    ensures total { result.total ≡ total bill.now }
    ensures costs { result.costs.items ≡ each_row (bill_row table.now.tasks table.now.words.items bill.now) 0 (length costs.items) }
{
    let mut account = new_account(costs);
    'items: for item in bill {
        book_item(&mut account, table, item);
    }
    account
}

/// Of a bill no calls are told.
fn no_calls(alloc: Global) -> Calls
    ensures callees { result.callees.items ≡ [] }
    ensures costs { result.costs.items ≡ [] }
{
    Calls {
        row: 0,
        function: 0,
        recent: no_cost(),
        callers: Vec::new(alloc),
        callees: Vec::new(alloc),
        costs: Vec::new(alloc),
    }
}

/// The profile of a bill, of the strips of so many words of memory, of tasks with these sources.
pub fn bill_text(
    alloc: Global,
    sources: &[Source],
    strips: &[Strip],
    size: usize,
    bill: &[Item],
) -> Result<Vec<u8>, AllocError>
    requires { IsSmall bill.now }
    ensures { IfOk result (λ text. text.items ≡ profile_text sources.now (map strip_of strips.now) (total bill.now)
        (each_row (bill_row (length sources.now) (rows_of (length sources.now) size (map strip_of strips.now)) bill.now) 0 (first_row (length sources.now) + strip_words (map strip_of strips.now))) no_calls_at) }
{
    let tasks = sources.len();
    let Rows { words, costs } = rows_from(alloc, 2 + tasks, size, strips)?;
    let table = RowTable { tasks, words };
    let account = booked(&table, costs, bill);
    let calls = no_calls(alloc);
    let told = Told {
        sources,
        strips,
        calls: &calls,
    };
    profile_text(alloc, told, account.total, &account.costs)
}
