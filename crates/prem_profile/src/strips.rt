// The strips of a compiled set.
ghost use Rattle.std.specs.Prelude.{◌≡◌, ◌++◌, ◌/◌, slice_get, length, map, IfOk, OnOk, IfSome, IsNone, Some, None, MatchResult};
ghost use Rattle.prem_list.specs.Sequence.{items_of};
ghost use Rattle.prem_syntax.specs.Name.{name_bytes};
ghost use Rattle.prem_tasks.specs.SetOf.{set_of};
ghost use Rattle.prem_tasks.specs.At.{broken_early};
ghost use Rattle.prem_tasks.specs.Stops.{Stops};
ghost use Rattle.prem_compile.specs.CompiledOf.{compiled_of};
ghost use Rattle.prem_profile.specs.Lines.Marks.{mark_lines};
ghost use Rattle.prem_profile.specs.Lines.Told.{lines_told, tables_of};
ghost use Rattle.prem_profile.specs.Sets.{coded_strips, first_name, has_code, is_called, part_strips, rest_names, set_lines, strip_at, strips_of, task_strips, told_as};
ghost use Rattle.prem_profile.specs.SetsTold.{tables_from};
ghost use Rattle.prem_profile.specs.Strips.{strip_of};

use crate::lines::{TaskLines, mark_lines, part_lines, task_lines};
use crate::strip::Strip;
use prem_compile::Compiled;
use prem_compile::coding::{CodedTask, coded_tasks};
use prem_plant::{PartKind, PartSize, Target};
use prem_stages::checked_programs;
use prem_syntax::Name;
use prem_tasks::{Stop, TaskSet, TaskText};
use prem_tree::resolve::Resolved;
use std::alloc::{AllocError, Global};

/// The lines of the code of a task.
fn lines_of(
    alloc: Global,
    target: Target,
    task: &TaskText,
    program: &Resolved<'_>,
) -> Result<TaskLines, AllocError>
    ensures { IfOk result (λ lines. lines_told lines ≡ tables_of target (mark_lines (items_of task.now.text)) program.now) }
{
    let marks = mark_lines(alloc, task.text.items())?;
    task_lines(alloc, target, &marks, program)
}

/// The lines of the code of tasks, which stand in the order of their texts.
fn tables_of(
    alloc: Global,
    target: Target,
    tasks: &[TaskText],
    coded: &[CodedTask],
) -> Result<Vec<TaskLines>, AllocError>
    requires { length coded.now ≡ length tasks.now }
    ensures { IfOk result (λ all. map lines_told all.items ≡ tables_from target tasks.now coded.now) }
{
    let mut all = Vec::new(alloc);
    'tasks: for n in 0..tasks.len() {
        let lines = lines_of(alloc, target, &tasks[n], &coded[n].program)?;
        all.push(lines)?;
    }
    Ok(all)
}

/// The lines of the code of each task of a set. A stop tells a rule that the set breaks.
pub fn set_lines(alloc: Global, set: &TaskSet) -> Result<Vec<TaskLines>, Stop>
    ensures { MatchResult result (λ lines. map lines_told lines.items ≡ set_lines (set_of set.now)) (λ stop. Stops stop (broken_early (set_of set.now))) }
{
    let programs = checked_programs(alloc, set)?;
    let coded = coded_tasks(alloc, set, &programs)?;
    let target = set.plant().target;
    let lines = tables_of(alloc, target, set.tasks(), &coded)?;
    Ok(lines)
}

/// Whether a part has code.
fn has_code(kind: PartKind) -> bool
    ensures { result ≡ has_code kind }
{
    match kind {
        PartKind::Start | PartKind::Code(_) | PartKind::Stub(_) => true,
        PartKind::Global(_) | PartKind::Stack | PartKind::Area(_) => false,
    }
}

/// Whether a part is called: a start isn't.
fn is_called(kind: PartKind) -> bool
    ensures { result ≡ is_called kind }
{
    match kind {
        PartKind::Code(_) | PartKind::Stub(_) => true,
        PartKind::Start | PartKind::Global(_) | PartKind::Stack | PartKind::Area(_) => false,
    }
}

/// Puts what the words of a part are told as behind a text.
fn push_told(text: &mut Vec<u8>, kind: PartKind, name: &[u8]) -> Result<(), AllocError>
    ensures { OnOk result (text.new.items ≡ text.old.items ++ told_as kind name.now) }
{
    match kind {
        PartKind::Start => text.extend_from_slice(b"[start]"),
        PartKind::Code(_) => text.extend_from_slice(name),
        PartKind::Stub(_) => {
            text.extend_from_slice(b"[stub] ")?;
            text.extend_from_slice(name)
        }
        PartKind::Global(_) | PartKind::Stack | PartKind::Area(_) => Ok(()),
    }
}

/// What the words of a part are told as.
fn told_as(alloc: Global, kind: PartKind, name: &[u8]) -> Result<Vec<u8>, AllocError>
    ensures { IfOk result (λ text. text.items ≡ told_as kind name.now) }
{
    let mut text = Vec::new(alloc);
    push_told(&mut text, kind, name)?;
    Ok(text)
}

/// The strip of a part with code.
fn strip_at(
    alloc: Global,
    task: &TaskLines,
    part: PartSize,
    name: &[u8],
    at: u32,
) -> Result<Strip, AllocError>
    ensures { IfOk result (λ s. strip_of s ≡ strip_at (lines_told task.now) part name.now at) }
{
    let count = part.size / 4;
    let name = told_as(alloc, part.kind, name)?;
    let lines = part_lines(alloc, task, part.kind, count)?;
    Ok(Strip {
        task: part.task,
        name,
        called: is_called(part.kind),
        at,
        count,
        lines,
    })
}

/// Puts the strip of a part behind others, if it has code.
fn push_coded(
    alloc: Global,
    strips: &mut Vec<Strip>,
    task: &TaskLines,
    part: PartSize,
    name: &[u8],
    at: u32,
) -> Result<(), AllocError>
    ensures { OnOk result (map strip_of strips.new.items ≡ map strip_of strips.old.items ++ coded_strips (lines_told task.now) part name.now at) }
{
    if !has_code(part.kind) {
        return Ok(());
    }
    let strip = strip_at(alloc, task, part, name, at)?;
    strips.push(strip)?;
    Ok(())
}

/// The lines of the n-th task.
#[tactic(auto, using(crate::proofs::Tabled::told_at))]
fn task_at(tasks: &[TaskLines], n: u16) -> Option<&TaskLines>
    ensures some { IfSome result (λ t. slice_get (map lines_told tasks.now) n ≡ Some (lines_told t.now)) }
    ensures none { IsNone result → slice_get (map lines_told tasks.now) n ≡ None }
{
    tasks.get(usize::from(n))
}

/// Puts the strip of a part at an address behind others, if it has a task and code.
fn push_at(
    alloc: Global,
    strips: &mut Vec<Strip>,
    tasks: &[TaskLines],
    part: PartSize,
    name: &[u8],
    at: u32,
) -> Result<(), AllocError>
    ensures { OnOk result (map strip_of strips.new.items ≡ map strip_of strips.old.items ++ task_strips (slice_get (map lines_told tasks.now) part.task) part name.now at) }
{
    match task_at(tasks, part.task) {
        Some(task) => push_coded(alloc, strips, task, part, name, at),
        None => Ok(()),
    }
}

/// Puts the strip of a part behind others, if it has a place, a task and code.
fn push_part(
    alloc: Global,
    strips: &mut Vec<Strip>,
    tasks: &[TaskLines],
    part: PartSize,
    name: &[u8],
    place: Option<(u32, u32)>,
) -> Result<(), AllocError>
    ensures { OnOk result (map strip_of strips.new.items ≡ map strip_of strips.old.items ++ part_strips (map lines_told tasks.now) part name.now place) }
{
    match place {
        Some((at, _)) => push_at(alloc, strips, tasks, part, name, at),
        None => Ok(()),
    }
}

/// The first name; none where there is none.
fn first_name(names: &[Name]) -> &[u8]
    ensures { result.now ≡ first_name (map name_bytes names.now) }
{
    match names {
        [name, ..] => name.bytes(),
        [] => &[],
    }
}

/// The names behind the first one.
fn rest_names(names: &[Name]) -> &[Name]
    ensures { map name_bytes result.now ≡ rest_names (map name_bytes names.now) }
{
    match names {
        [_, rest @ ..] => rest,
        [] => names,
    }
}

/// The strips of a compiled set, whose tasks have these lines.
pub fn strips_of(
    alloc: Global,
    tasks: &[TaskLines],
    compiled: &Compiled,
) -> Result<Vec<Strip>, AllocError>
    ensures { IfOk result (λ strips. map strip_of strips.items ≡ strips_of (map lines_told tasks.now) (compiled_of compiled.now)) }
{
    let mut strips = Vec::new(alloc);
    let mut names = compiled.names.items();
    let mut n = 0usize;
    'parts: for part in compiled.parts.items() {
        let place = compiled.layout.part(n);
        push_part(alloc, &mut strips, tasks, *part, first_name(names), place)?;
        names = rest_names(names);
        n += 1;
    }
    Ok(strips)
}
