// The bounds of a compiled set.
ghost use Rattle.std.specs.Prelude.{◌≡◌, [], ◌++◌, IfOk, OnOk, map, slice_index_or, string_bytes};
ghost use Rattle.std.specs.List.{flat_map};
ghost use Rattle.prem_syntax.specs.Name.{name_bytes};
ghost use Rattle.prem_bounds.specs.Facts.FactOf.{fact_of};
ghost use Rattle.prem_place.specs.Verdict.Told.{numbered};
ghost use Rattle.prem_compile.specs.CompiledOf.{compiled_of};
ghost use Rattle.prem_build.specs.Tables.Names.{first_name, rest_names};
ghost use Rattle.prem_build.specs.Tables.Check.{bound_line, check_text, fact_text, interval_text, part_text, parts_text};

use crate::tables::names::{first_name, rest_names};
use prem_compile::{Compiled, IntervalFact};
use prem_plant::{PartKind, PartSize};
use prem_syntax::Name;
use std::alloc::{AllocError, Global};

/// The line of a task and the bound of its jobs.
fn push_bound(alloc: Global, text: &mut Vec<u8>, name: &[u8], bound: u64) -> Result<(), AllocError>
    ensures { OnOk result (text.new.items ≡ text.old.items ++ bound_line name.now bound) }
{
    text.extend_from_slice(b"task ")?;
    text.extend_from_slice(name)?;
    text.extend_from_slice(format!(in alloc; " bound {bound}\n")?.as_bytes())
}

/// What is told of a marked function behind its name.
fn fact_text(alloc: Global, fact: &IntervalFact) -> Result<String, AllocError>
    ensures { IfOk result (λ s. string_bytes s ≡ fact_text (fact_of fact.now)) }
{
    let (lines, most) = (fact.lines, fact.most);
    let (bound, stated) = (fact.bound, fact.stated);
    format!(in alloc; " lines {lines} most {most} bound {bound} stated {stated}\n")
}

/// The name of a function by its number, and nothing where there is none.
fn function_name(functions: &[Name], n: usize) -> &[u8]
    ensures { result.now ≡ slice_index_or (map name_bytes functions.now) n [] }
{
    match functions.get(n) {
        Some(name) => name.bytes(),
        None => &[],
    }
}

/// The line of a marked function, where it is one of the task.
fn push_interval(
    alloc: Global,
    text: &mut Vec<u8>,
    task: u16,
    functions: &[Name],
    fact: &IntervalFact,
) -> Result<(), AllocError>
    ensures { OnOk result (text.new.items ≡ text.old.items ++ interval_text task (map name_bytes functions.now) (numbered fact.now)) }
{
    if fact.task != task {
        return Ok(());
    }
    text.extend_from_slice(b"interval ")?;
    text.extend_from_slice(function_name(functions, usize::from(fact.function)))?;
    text.extend_from_slice(fact_text(alloc, fact)?.as_bytes())
}

/// The lines of a task's marked functions.
fn push_intervals(
    alloc: Global,
    text: &mut Vec<u8>,
    task: u16,
    functions: &[Name],
    facts: &[IntervalFact],
) -> Result<(), AllocError>
    ensures { OnOk result (text.new.items ≡ text.old.items ++ flat_map (interval_text task (map name_bytes functions.now)) (map numbered facts.now)) }
{
    for fact in facts {
        push_interval(alloc, text, task, functions, fact)?;
    }
    Ok(())
}

/// The bound of a task's jobs, and 0 where there is no such task.
fn job_bound(jobs: &[u64], task: u16) -> u64
    ensures { result ≡ slice_index_or jobs.now task 0 }
{
    match jobs.get(usize::from(task)) {
        Some(bound) => *bound,
        None => 0,
    }
}

/// The lines of a task, where its start is the part.
fn push_part(
    alloc: Global,
    text: &mut Vec<u8>,
    compiled: &Compiled,
    part: &PartSize,
    names: &[Name],
) -> Result<(), AllocError>
    ensures { OnOk result (text.new.items ≡ text.old.items ++ part_text (compiled_of compiled.now).jobs (compiled_of compiled.now).intervals part.now.task part.now.kind (first_name (map name_bytes names.now)) (rest_names (map name_bytes names.now))) }
{
    if !matches!(part.kind, PartKind::Start) {
        return Ok(());
    }
    let bound = job_bound(compiled.jobs.items(), part.task);
    push_bound(alloc, text, first_name(names), bound)?;
    push_intervals(
        alloc,
        text,
        part.task,
        rest_names(names),
        compiled.intervals.items(),
    )
}

/// The lines of all tasks.
fn push_parts(alloc: Global, text: &mut Vec<u8>, compiled: &Compiled) -> Result<(), AllocError>
    ensures { OnOk result (text.new.items ≡ text.old.items ++ parts_text (compiled_of compiled.now).jobs (compiled_of compiled.now).intervals (compiled_of compiled.now).parts (compiled_of compiled.now).names) }
{
    let mut names = compiled.names.items();
    for part in compiled.parts.items() {
        push_part(alloc, text, compiled, part, names)?;
        names = rest_names(names);
    }
    Ok(())
}

/// Each task with the bound of its jobs and its marked functions, and the cycle by which all jobs have ended.
pub fn check_text(alloc: Global, compiled: &Compiled) -> Result<Vec<u8>, AllocError>
    ensures { IfOk result (λ text. text.items ≡ check_text (compiled_of compiled.now)) }
{
    let mut text = Vec::new(alloc);
    push_parts(alloc, &mut text, compiled)?;
    let limit = compiled.limit;
    text.extend_from_slice(format!(in alloc; "limit {limit}\n")?.as_bytes())?;
    Ok(text)
}
