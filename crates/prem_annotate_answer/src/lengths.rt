// The lengths that bounds ask for.
ghost use Rattle.std.specs.Prelude.{◌≡◌, IfOk, map};
ghost use Rattle.prem_place.specs.Verdict.Told.{bounds_of, numbered};
ghost use Rattle.prem_annotate.specs.Notes.{lengthened};
ghost use Rattle.prem_annotate_answer.specs.Written.{facts_told, length_for, length_in, length_told};
ghost use Rattle.prem_annotate_answer.specs.Steps.{all_lengthened, lengths_from, notes_in};

use prem_annotate::notes::{FunctionNotes, with_lengths};
use prem_bounds::facts::IntervalFact;
use prem_place::verdict::TaskBounds;
use std::alloc::{AllocError, Global};

/// The greatest length that can be stated, in cycles.
const GREATEST_LENGTH: u64 = 2_147_483_647;

/// The length that a bound asks for, where it can be stated.
fn length_for(bound: u64) -> u32
    ensures { result ≡ length_for bound }
{
    bound.min(GREATEST_LENGTH) as u32
}

/// The length that is asked for of the function with a number, or 0 where none is.
fn length_in(facts: &[IntervalFact], n: usize) -> u32
    ensures { result ≡ length_in (map numbered facts.now) n }
{
    for fact in facts {
        if usize::from(fact.function) == n {
            return length_for(fact.bound);
        }
    }
    0
}

/// The lengths of so many functions.
fn lengths_of(alloc: Global, facts: &[IntervalFact], count: usize) -> Result<Vec<u32>, AllocError>
    ensures { IfOk result (λ lengths. lengths.items ≡ lengths_from (map numbered facts.now) 0 count) }
{
    let mut lengths = Vec::new(alloc);
    for n in 0..count {
        lengths.push(length_in(facts, n))?;
    }
    Ok(lengths)
}

/// The notes of a program with the lengths that its task's bounds ask for.
fn lengthened(
    alloc: Global,
    notes: Vec<FunctionNotes>,
    facts: &[IntervalFact],
) -> Result<Vec<FunctionNotes>, AllocError>
    ensures { IfOk result (λ all. notes_in all ≡ lengthened (length_in (map numbered facts.now)) 0 (notes_in notes)) }
{
    let lengths = lengths_of(alloc, facts, notes.len())?;
    let all = with_lengths(alloc, notes, &lengths)?;
    Ok(all)
}

/// What is told of the marked functions of the task with a number; nothing where there is none.
#[tactic(auto, using(crate::proofs::Lengthening::facts_there, crate::proofs::Lengthening::facts_past))]
fn facts_at(bounds: &[TaskBounds], n: usize) -> &[IntervalFact]
    ensures { map numbered result.now ≡ facts_told (map bounds_of bounds.now) n }
{
    match bounds.get(n) {
        Some(found) => &found.facts,
        None => &[],
    }
}

/// The notes of the program with a number, with the lengths that its task's bounds ask for.
fn lengthened_at(
    alloc: Global,
    notes: Vec<FunctionNotes>,
    bounds: &[TaskBounds],
    n: usize,
) -> Result<Vec<FunctionNotes>, AllocError>
    ensures { IfOk result (λ all. notes_in all ≡ lengthened (length_told (map bounds_of bounds.now) n) 0 (notes_in notes)) }
{
    let all = lengthened(alloc, notes, facts_at(bounds, n))?;
    Ok(all)
}

/// The notes of all programs with the lengths that the bounds of their tasks ask for. It fails only for want of memory.
pub fn all_lengthened(
    alloc: Global,
    notes: Vec<Vec<FunctionNotes>>,
    bounds: &[TaskBounds],
) -> Result<Vec<Vec<FunctionNotes>>, AllocError>
    ensures { IfOk result (λ all. map notes_in all.items ≡ all_lengthened (length_told (map bounds_of bounds.now)) 0 (map notes_in notes.items)) }
{
    let mut all = Vec::new(alloc);
    let mut n = 0;
    for one in notes {
        all.push(lengthened_at(alloc, one, bounds, n)?)?;
        n += 1;
    }
    Ok(all)
}
