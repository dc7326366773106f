//! The annotations of a program's functions, as a value.
ghost use Rattle.std.specs.Prelude.{◌≡◌, ◌<◌, length, map, IfOk};
ghost use Rattle.std.specs.Option.{option_map};
ghost use Rattle.prem_list.specs.Sequence.{items_of};
ghost use Rattle.prem_syntax.specs.SyntaxOf.{global_of, function_of, mark_of, program_of};
ghost use Rattle.prem_syntax.specs.Source.{unlimited};
ghost use Rattle.prem_tree.specs.Checked.{checked_program};
ghost use Rattle.prem_tree.specs.Resolve.ResolvedOf.{resolved_of};
ghost use Rattle.prem_analysis.specs.Functions.{AllRanged};
ghost use Rattle.prem_annotate.specs.Ranges.Outlook.{outlook_of};
ghost use Rattle.prem_annotate.specs.Notes.{notes_of, mark_found, notes_found, all_notes_found, resolved_notes, program_notes, no_lengths, lengthened_mark, lengthened_notes, lengthened, length_at, LengthsArePut};

use crate::ranges::{Outlook, infer};
use crate::regions::regions_of;
use prem_analysis::marks::callee_table;
use prem_syntax::{Function, Global, Mark, Place, have_words};
use prem_tree::Checked;
use prem_tree::resolve::{Resolved, Routine, resolve};
use std::alloc::{AllocError, Global as Allocator};

/// The annotations of a function: the RANGE of each parameter, one that stands or a new one, and none where none is needed;
/// and of a marked function its stated length with the regions that it reaches.
#[derive(Drop)]
pub struct FunctionNotes {
    pub ranges: Vec<Option<(i64, i64)>>,
    pub mark: Option<Mark>,
}

/// The mark of a function with a number and a place: its stated length, and the regions that it reaches.
fn mark_found(
    alloc: Allocator,
    at: Place,
    globals: &[&Global],
    table: &[Vec<usize>],
    outlooks: &[Outlook],
    n: usize,
    mark: &Mark,
) -> Result<Mark, AllocError>
    requires { n < length table.now }
    ensures { IfOk result (λ m. mark_of m ≡ mark_found at (map (λ g. global_of g.now) globals.now) (map (λ cs. cs.items) table.now) (map outlook_of outlooks.now) n (mark_of mark.now)) }
{
    let regions = regions_of(alloc, at, globals, table, outlooks, n)?;
    Ok(Mark {
        stated: mark.stated,
        regions,
    })
}

fn mark_if(
    alloc: Allocator,
    at: Place,
    globals: &[&Global],
    table: &[Vec<usize>],
    outlooks: &[Outlook],
    n: usize,
    mark: &Option<Mark>,
) -> Result<Option<Mark>, AllocError>
    requires { n < length table.now }
    ensures { IfOk result (λ m. option_map mark_of m ≡ option_map (mark_found at (map (λ g. global_of g.now) globals.now) (map (λ cs. cs.items) table.now) (map outlook_of outlooks.now) n) (option_map mark_of mark.now)) }
{
    match mark {
        Some(m) => {
            let found = mark_found(alloc, at, globals, table, outlooks, n, m)?;
            Ok(Some(found))
        }
        None => Ok(None),
    }
}

/// The annotations of a function with a number.
fn notes_found(
    alloc: Allocator,
    globals: &[&Global],
    table: &[Vec<usize>],
    outlooks: &[Outlook],
    n: usize,
    f: &Function,
    found: &Outlook,
) -> Result<FunctionNotes, AllocError>
    requires { n < length table.now }
    ensures { IfOk result (λ x. notes_of x ≡ notes_found (map (λ g. global_of g.now) globals.now) (map (λ cs. cs.items) table.now) (map outlook_of outlooks.now) n (function_of f.now) (outlook_of found.now)) }
{
    let ranges = found.ranges.to_vec(alloc)?;
    let mark = mark_if(alloc, f.at, globals, table, outlooks, n, &f.mark)?;
    Ok(FunctionNotes { ranges, mark })
}

/// The annotations of all functions, by what is found of them.
fn all_notes(
    alloc: Allocator,
    globals: &[&Global],
    table: &[Vec<usize>],
    outlooks: &[Outlook],
    routines: &[Routine],
) -> Result<Vec<FunctionNotes>, AllocError>
    requires { length table.now ≡ length routines.now }
    ensures { IfOk result (λ all. map notes_of all.items ≡ all_notes_found (map (λ g. global_of g.now) globals.now) (map (λ cs. cs.items) table.now) (map outlook_of outlooks.now) 0 (map (λ r. function_of r.text.now) routines.now) (map outlook_of outlooks.now)) }
{
    let mut all = Vec::new(alloc);
    for n in 0..routines.len() {
        if n >= outlooks.len() {
            return Ok(all);
        }
        let text = routines[n].text;
        all.push(notes_found(alloc, globals, table, outlooks, n, text, &outlooks[n])?)?;
    }
    Ok(all)
}

/// The annotations that a program needs whose names are resolved, with the lengths that are stated.
fn notes_of_resolved(alloc: Allocator, r: &Resolved) -> Result<Vec<FunctionNotes>, AllocError>
    requires { AllRanged (items_of r.now.routines) }
    ensures { IfOk result (λ all. map notes_of all.items ≡ resolved_notes (resolved_of unlimited.turns r.now)) }
{
    let outlooks = infer(alloc, r.routines.items())?;
    let table = callee_table(alloc, r.routines.items())?;
    let all = all_notes(alloc, &r.globals, &table, &outlooks, r.routines.items())?;
    Ok(all)
}

/// The annotations that a program needs, of each function in the order of the text: the ranges of parameters, the regions of
/// marked functions, and the lengths that they state. It fails only for want of memory.
pub fn notes_of(alloc: Allocator, c: &Checked) -> Result<Vec<FunctionNotes>, AllocError>
    ensures { IfOk result (λ all. map notes_of all.items ≡ program_notes no_lengths (program_of (checked_program c.now))) }
{
    let program = c.program();
    have_words(program);
    let resolved = resolve(alloc, program)?;
    let all = notes_of_resolved(alloc, &resolved)?;
    Ok(all)
}

/// A mark whose length is at least this.
fn lengthened_mark(mark: Mark, length: u32) -> Mark
    ensures { mark_of result ≡ lengthened_mark length (mark_of mark) }
{
    Mark {
        stated: mark.stated.max(length),
        regions: mark.regions,
    }
}

fn lengthened_if(mark: Option<Mark>, length: u32) -> Option<Mark>
    ensures { option_map mark_of result ≡ option_map (lengthened_mark length) (option_map mark_of mark) }
{
    match mark {
        Some(mark) => Some(lengthened_mark(mark, length)),
        None => None,
    }
}

fn lengthened(notes: FunctionNotes, length: u32) -> FunctionNotes
    ensures { notes_of result ≡ lengthened_notes length (notes_of notes) }
{
    let FunctionNotes { ranges, mark } = notes;
    FunctionNotes {
        ranges,
        mark: lengthened_if(mark, length),
    }
}

/// The length that is asked for of the function with a number, or 0 where none is.
fn length_at(lengths: &[u32], n: usize) -> u32
    ensures { result ≡ length_at lengths.now n }
{
    match lengths.get(n) {
        Some(length) => *length,
        None => 0,
    }
}

/// The annotations with lengths that are at least those of the functions with the same numbers. It fails only for want of
/// memory.
pub fn with_lengths(
    alloc: Allocator,
    notes: Vec<FunctionNotes>,
    lengths: &[u32],
) -> Result<Vec<FunctionNotes>, AllocError>
    ensures same { IfOk result (λ all. map notes_of all.items ≡ lengthened (length_at lengths.now) 0 (map notes_of notes.items)) }
{
    let mut all = Vec::new(alloc);
    let mut n = 0;
    for one in notes {
        all.push(lengthened(one, length_at(lengths, n)))?;
        n += 1;
    }
    Ok(all)
}

/// The annotations that a program needs, with lengths, are those that it needs with these lengths.
pub fn lengths_are_put()
    ensures { LengthsArePut }
{}
