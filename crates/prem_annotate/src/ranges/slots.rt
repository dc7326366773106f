// What calls give the parameters of all functions.
ghost use Rattle.std.specs.Prelude.{◌≡◌, map, IfOk};
ghost use Rattle.prem_word.specs.Ranges.{join};
ghost use Rattle.prem_syntax.specs.SyntaxOf.{parameter_of};
ghost use Rattle.prem_analysis.specs.Ranging.View.{span_of};
ghost use Rattle.prem_analysis.specs.Functions.{plain_routine};
ghost use Rattle.prem_annotate.specs.Seeing.Sight.{argument_of};
ghost use Rattle.prem_annotate.specs.Ranges.Slots.{slot_of, row_of, given, at_number, with_argument, with_arguments, empty_slot, empty_row};

use crate::seeing::Argument;
use prem_analysis::ranging::{Range, convert};
use prem_syntax::Param;
use prem_tree::resolve::{Routine, promoted};
use prem_word::Kind;
use std::alloc::{AllocError, Global};

/// A parameter's kind, and the least range around what calls give it, if there is any.
#[derive(Clone, Copy)]
pub struct ParameterRange {
    pub kind: Kind,
    pub given: Option<Range>,
}

/// The least range around two.
pub fn least_around(a: Range, b: Range) -> Range
    ensures { span_of result ≡ join (span_of a) (span_of b) }
{
    Range {
        lo: a.lo.min(b.lo),
        hi: a.hi.max(b.hi),
    }
}

/// A slot that one more call gives a value of a range.
fn widened_by(s: ParameterRange, range: Range) -> ParameterRange
    ensures { slot_of result ≡ given (span_of range) (slot_of s) }
{
    let own = convert(s.kind, range);
    let around = match s.given {
        Some(other) => least_around(own, other),
        None => own,
    };
    ParameterRange {
        kind: s.kind,
        given: Some(around),
    }
}

/// One more call gives a parameter a value of a range.
fn add_to_slots(row: &mut [ParameterRange], k: usize, range: Range)
    ensures { map slot_of row.new ≡ at_number k (given (span_of range)) (map slot_of row.old) }
{
    if k < row.len() {
        row[k] = widened_by(row[k], range);
    }
}

fn add_to_row(row: &mut Vec<ParameterRange>, k: usize, range: Range)
    ensures { row_of row.new ≡ at_number k (given (span_of range)) (row_of row.old) }
{
    add_to_slots(row, k, range);
}

/// One more argument.
fn add(rows: &mut [Vec<ParameterRange>], a: Argument)
    ensures { map row_of rows.new ≡ with_argument (argument_of a) (map row_of rows.old) }
{
    if a.callee < rows.len() {
        add_to_row(&mut rows[a.callee], a.parameter, a.range);
    }
}

/// More arguments, from the last to the first.
fn add_to_rows(rows: &mut [Vec<ParameterRange>], arguments: &[Argument])
    ensures { map row_of rows.new ≡ with_arguments (map argument_of arguments.now) (map row_of rows.old) }
{
    let mut n = arguments.len();
    while n > 0 {
        n -= 1;
        add(rows, arguments[n]);
    }
}

/// Calls give the parameters of functions more.
pub fn add_all(rows: &mut Vec<Vec<ParameterRange>>, arguments: &[Argument])
    ensures { map row_of rows.new.items ≡ with_arguments (map argument_of arguments.now) (map row_of rows.old.items) }
{
    add_to_rows(rows, arguments);
}

/// The slot of a parameter that no call gives anything.
fn empty_slot(p: &Param) -> ParameterRange
    ensures { slot_of result ≡ empty_slot (parameter_of p.now) }
{
    ParameterRange {
        kind: promoted(p.ty),
        given: None,
    }
}

fn empty_row(alloc: Global, ps: &[Param]) -> Result<Vec<ParameterRange>, AllocError>
    ensures { IfOk result (λ row. row_of row ≡ map empty_slot (map parameter_of ps.now)) }
{
    let mut row = Vec::new(alloc);
    for p in ps {
        row.push(empty_slot(p))?;
    }
    Ok(row)
}

/// The parameters of functions that no call gives anything.
pub fn empty_rows(
    alloc: Global,
    routines: &[Routine],
) -> Result<Vec<Vec<ParameterRange>>, AllocError>
    ensures { IfOk result (λ rows. map row_of rows.items ≡ map empty_row (map plain_routine routines.now)) }
{
    let mut rows = Vec::new(alloc);
    for f in routines {
        rows.push(empty_row(alloc, f.text.params.items())?)?;
    }
    Ok(rows)
}
