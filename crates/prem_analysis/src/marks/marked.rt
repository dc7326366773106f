// The marked functions of a program.
ghost use Rattle.std.specs.Prelude.{◌≡◌, ◌<◌, ◌++◌, map, length, IfOk, OnOk};
ghost use Rattle.std.specs.Option.{option_map};
ghost use Rattle.prem_syntax.specs.SyntaxOf.{global_of, mark_of};
ghost use Rattle.prem_syntax.specs.Source.{unlimited};
ghost use Rattle.prem_tree.specs.Resolve.ResolvedOf.{routines_of};
ghost use Rattle.prem_analysis.specs.Ranging.SiteOf.{AreWatched};
ghost use Rattle.prem_analysis.specs.Marks.Entries.{entry_of, entry, entry_if, entries_from};

use crate::marks::areas::areas_of;
use crate::marks::calls::callee_table;
use crate::marks::reach::reach_set;
use crate::ranging::Marked;
use prem_syntax::{Global, Mark};
use prem_tree::resolve::{Resolved, Routine};
use std::alloc::{AllocError, Global as Allocator};

fn marked(
    alloc: Allocator,
    globals: &[&Global],
    table: &[Vec<usize>],
    n: usize,
    mark: &Mark,
) -> Result<Marked, AllocError>
    requires { n < length table.now }
    ensures { IfOk result (λ m. entry_of m ≡ entry (map (λ g. global_of g.now) globals.now) (map (λ cs. cs.items) table.now) n (mark_of mark.now)) }
{
    Ok(Marked {
        function: n,
        areas: areas_of(alloc, globals, mark.regions.items())?,
        reached: reach_set(alloc, table, n)?,
    })
}

fn add_marked(
    alloc: Allocator,
    globals: &[&Global],
    table: &[Vec<usize>],
    n: usize,
    mark: &Option<Mark>,
    all: &mut Vec<Marked>,
) -> Result<(), AllocError>
    requires { n < length table.now }
    ensures { OnOk result (map entry_of all.new.items ≡ map entry_of all.old.items
        ++ entry_if (map (λ g. global_of g.now) globals.now) (map (λ cs. cs.items) table.now) n (option_map mark_of mark.now)) }
{
    if let Some(mark) = mark {
        all.push(marked(alloc, globals, table, n, mark)?)?;
    }
    Ok(())
}

fn entries(
    alloc: Allocator,
    globals: &[&Global],
    routines: &[Routine],
    table: &[Vec<usize>],
) -> Result<Vec<Marked>, AllocError>
    requires { length table.now ≡ length routines.now }
    ensures { IfOk result (λ all. map entry_of all.items
        ≡ entries_from (map (λ g. global_of g.now) globals.now) (map (λ cs. cs.items) table.now) 0 (routines_of unlimited.turns 0 routines.now)) }
{
    let mut all = Vec::new(alloc);
    for n in 0..routines.len() {
        let text = routines[n].text;
        add_marked(alloc, globals, table, n, &text.mark, &mut all)?;
    }
    Ok(all)
}

/// The marked functions of a program, in the order of the text, each with its areas and with what it reaches.
pub fn marked_of(alloc: Allocator, r: &Resolved) -> Result<Vec<Marked>, AllocError>
    ensures { IfOk result (λ all. AreWatched r.now all.items) }
{
    let table = callee_table(alloc, r.routines.items())?;
    entries(alloc, &r.globals, r.routines.items(), &table)
}
