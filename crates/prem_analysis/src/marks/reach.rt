// What functions reach by calls.
ghost use Rattle.std.specs.Prelude.{◌≡◌, ◌+◌, ◌<◌, ◌≤◌, map, length, IfOk};
ghost use Rattle.prem_syntax.specs.Reach.{with_all, with_callees_below, reach_set};

use std::alloc::{AllocError, Global};

/// Puts functions into a set.
fn add_all(set: &mut [bool], callees: &[usize])
    ensures { set.new ≡ with_all callees.now set.old }
{
    for c in callees {
        if *c < set.len() {
            set[*c] = true;
        }
    }
}

/// Puts into a set the callees of its members below a number, from the last one down: a function calls those before it.
fn add_callees_below(set: &mut [bool], table: &[Vec<usize>], end: usize)
    requires set { end ≤ length set.old }
    requires table { end ≤ length table.now }
    ensures { set.new ≡ with_callees_below (map (λ cs. cs.items) table.now) end set.old }
{
    let mut n = end;
    while n > 0 {
        n -= 1;
        if set[n] {
            add_all(set, &table[n]);
        }
    }
}

/// For each function whether it is function f, or is reached by it.
pub fn reach_set(alloc: Global, table: &[Vec<usize>], f: usize) -> Result<Vec<bool>, AllocError>
    requires { f < length table.now }
    ensures set { IfOk result (λ set. set.items ≡ reach_set (map (λ cs. cs.items) table.now) f) }
    ensures long { IfOk result (λ set. length set.items ≡ length table.now) }
{
    let mut set = vec![in alloc; false; table.len()]?;
    set[f] = true;
    add_callees_below(&mut set, table, f + 1);
    Ok(set)
}
