// The annotations of a set.
ghost use Rattle.std.specs.Prelude.{◌≡◌, IfOk, MatchResult, map};
ghost use Rattle.prem_tasks.specs.Broken.{broken};
ghost use Rattle.prem_tasks.specs.SetOf.{set_of};
ghost use Rattle.prem_tasks.specs.Stops.{Ends, Stops};
ghost use Rattle.prem_place.specs.Verdict.Told.{bounds_of};
ghost use Rattle.prem_stages.specs.Coded.{AreFormed};
ghost use Rattle.prem_stages.specs.Stages.{checked_text};
ghost use Rattle.prem_compile.specs.Bounding.{bounds_told};
ghost use Rattle.prem_annotate.specs.Notes.{no_lengths, program_notes};
ghost use Rattle.prem_annotate.specs.Writing.Text.{annotated_text};
ghost use Rattle.prem_annotate_answer.specs.Written.{IsAnnotated, unannotated, unlengthened, written};
ghost use Rattle.prem_annotate_answer.specs.Steps.{notes_in};

use crate::lengths::all_lengthened;
use crate::noted::noted_set;
use crate::others::other_rules;
use prem_annotate::notes::{FunctionNotes, notes_of};
use prem_compile::{bounds_of_set, compile_stages};
use prem_place::verdict::TaskBounds;
use prem_stages::checked_programs;
use prem_tasks::{Stop, TaskSet};
use prem_tree::Checked;
use std::alloc::{AllocError, Global};

/// A set that breaks no rule goes on; of one that breaks any the first is told.
fn judged(alloc: Global, set: TaskSet) -> Result<TaskSet, Stop>
    ensures ends { Ends result (broken (set_of set)) }
    ensures same { IfOk result (λ new. set_of new ≡ set_of set) }
{
    match compile_stages(alloc, &set) {
        Ok(_) => Ok(set),
        Err(stop) => Err(stop),
    }
}

/// The annotations that each program needs, with the lengths that stand. It fails only for want of memory.
fn all_notes(alloc: Global, programs: &[Checked]) -> Result<Vec<Vec<FunctionNotes>>, AllocError>
    ensures { IfOk result (λ all. map notes_in all.items ≡ map (program_notes no_lengths) (map checked_text programs.now)) }
{
    let mut all = Vec::new(alloc);
    for program in programs {
        all.push(notes_of(alloc, program)?)?;
    }
    Ok(all)
}

/// The set with its annotations, with the lengths that stand.
#[tactic(auto, using(crate::proofs::Stages::noted_first))]
fn unlengthened_set(
    alloc: Global,
    set: &TaskSet,
    programs: &[Checked],
    notes: &[Vec<FunctionNotes>],
) -> Result<TaskSet, AllocError>
    requires formed { AreFormed (set_of set.now) programs.now }
    requires notes { map notes_in notes.now ≡ map (program_notes no_lengths) (map checked_text programs.now) }
    ensures { IfOk result (λ new. set_of new ≡ unlengthened annotated_text (set_of set.now)) }
{
    let new = noted_set(alloc, set, programs, notes)?;
    Ok(new)
}

/// The set with its annotations, with lengths that are at least the bounds which it then has.
fn lengthened_set(
    alloc: Global,
    set: &TaskSet,
    programs: &[Checked],
    notes: Vec<Vec<FunctionNotes>>,
    bounds: &[TaskBounds],
) -> Result<TaskSet, AllocError>
    requires formed { AreFormed (set_of set.now) programs.now }
    requires notes { map notes_in notes.items ≡ map (program_notes no_lengths) (map checked_text programs.now) }
    requires bounds { map bounds_of bounds.now ≡ bounds_told (unlengthened annotated_text (set_of set.now)) }
    ensures { IfOk result (λ new. set_of new ≡ written annotated_text (set_of set.now)) }
{
    let lengthened = all_lengthened(alloc, notes, bounds)?;
    let new = noted_set(alloc, set, programs, &lengthened)?;
    Ok(new)
}

/// The set with the annotations of its programs, or the first rule that stands against it.
fn annotate_formed(alloc: Global, set: &TaskSet, programs: &[Checked]) -> Result<TaskSet, Stop>
    requires { AreFormed (set_of set.now) programs.now }
    ensures { MatchResult result (λ new. IsAnnotated annotated_text (set_of set.now) (set_of new)) (λ stop. Stops stop (unannotated annotated_text (set_of set.now))) }
{
    let _tasks = set.tasks();
    other_rules(alloc, programs)?;
    let notes = all_notes(alloc, programs)?;
    let first = unlengthened_set(alloc, set, programs, &notes)?;
    let bounds = bounds_of_set(alloc, &first)?;
    let last = lengthened_set(alloc, set, programs, notes, &bounds)?;
    let new = judged(alloc, last)?;
    Ok(new)
}

/// A set with its annotations: each parameter's range, the regions of marked functions, and lengths that are at least the bounds
/// which they then have; or the first rule that stands against it. All else in its texts stays as it is.
///
/// `Refused` comes for the first rule on the texts and programs that stand, then for the first one on ranges but for regions that a program
/// with its new ranges breaks, then for one of the set with its annotations, told by the lines of its texts; and `OutOfMemory` only for
/// want of memory.
#[tactic(auto, using(crate::proofs::Stages::stops_at_programs))]
pub fn annotate_set(alloc: Global, set: &TaskSet) -> Result<TaskSet, Stop>
    ensures { MatchResult result (λ new. IsAnnotated annotated_text (set_of set.now) (set_of new)) (λ stop. Stops stop (unannotated annotated_text (set_of set.now))) }
{
    let programs = checked_programs(alloc, set)?;
    let new = annotate_formed(alloc, set, &programs)?;
    Ok(new)
}
