// The stack of a task.
ghost use Rattle.std.specs.Prelude.{◌≡◌, map, is_some, slice_index_or, []};
ghost use Rattle.prem_syntax.specs.SyntaxOf.{function_of};
ghost use Rattle.prem_split.specs.Tables.{greatest};
ghost use Rattle.prem_split.specs.PlansWith.{AreFacts, MayHavePlans, marks_of};
ghost use Rattle.prem_prefetch.specs.Parts.Parts.{most_marked, stack_in};

use prem_split::{FunctionFacts, greatest, value_at};
use prem_tree::resolve::{Resolved, Routine};

/// The greatest depth of the functions which one calls.
fn called(depths: &[u32], table: &[Vec<usize>], f: usize) -> u32
    ensures { result ≡ greatest depths.now (slice_index_or (map (λ cs. cs.items) table.now) f []) }
{
    match table.get(f) {
        Some(calls) => greatest(depths, calls),
        None => 0,
    }
}

fn is_marked(f: &Routine) -> bool
    ensures { result ≡ is_some (function_of f.now.text.now).mark }
{
    match f.text.mark {
        Some(_) => true,
        None => false,
    }
}

/// The greatest depth of the marked functions.
fn most_marked(depths: &[u32], fs: &[Routine]) -> u32
    ensures { result ≡ most_marked depths.now 0 (marks_of fs.now) }
{
    let mut most = 0;
    for n in 0..fs.len() {
        if is_marked(&fs[n]) {
            most = value_at(depths, n).max(most);
        }
    }
    most
}

/// The bytes of the stack: the frame of `job`, and the greatest depth of its callees and of the marked functions.
pub fn stack_size(r: &Resolved, facts: &FunctionFacts) -> u32
    requires may { MayHavePlans r.now }
    requires facts { AreFacts r.now facts.now }
    ensures { result ≡ stack_in r.now }
{
    let marked = most_marked(&facts.depths, r.routines.items());
    let below = called(&facts.depths, &facts.calls, r.job).max(marked);
    value_at(&facts.frames, r.job) + below
}
