// The lines of all code of a task.
ghost use Rattle.std.specs.Prelude.{◌≡◌, ◌++◌, [], IfOk, OnOk, is_some, map, slice_index_or};
ghost use Rattle.prem_profile.specs.Lines.Memory.{routine_lines};
ghost use Rattle.prem_profile.specs.Lines.Told.{job_line, lines_told, marks_of, tables_of};
ghost use Rattle.prem_profile.specs.Lines.Tasks.{mark_line, marks_behind, part_lines};

use crate::lines::routine::routine_lines;
use crate::lines::term::push_words;
use prem_plant::{PartKind, Target};
use prem_tree::resolve::{Resolved, Routine};
use std::alloc::{AllocError, Global};

/// The lines of all code of a task.
#[derive(Drop)]
pub struct TaskLines {
    /// The line of its start.
    pub start: u32,
    /// The line of each word of each function.
    pub functions: Vec<Vec<u32>>,
    /// The line of the stub of each function.
    pub stubs: Vec<u32>,
}

/// The line of each word of each function.
fn function_tables(
    alloc: Global,
    target: Target,
    routines: &[Routine<'_>],
) -> Result<Vec<Vec<u32>>, AllocError>
    ensures { IfOk result (λ all. map (λ lines. lines.items) all.items ≡ map (routine_lines target) routines.now) }
{
    let mut all = Vec::new(alloc);
    'routines: for routine in routines {
        all.push(routine_lines(alloc, target, routine)?)?;
    }
    Ok(all)
}

/// The line of the first mark, or else another one.
fn mark_line(line: u32, marks: &[u32]) -> u32
    ensures { result ≡ mark_line line marks.now }
{
    match marks {
        [mark, ..] => *mark,
        [] => line,
    }
}

/// The marks behind the first one.
fn marks_behind(marks: &[u32]) -> &[u32]
    ensures { result.now ≡ marks_behind marks.now }
{
    match marks {
        [_, rest @ ..] => rest,
        [] => marks,
    }
}

/// Whether a function is marked.
fn is_marked(routine: &Routine<'_>) -> bool
    ensures { result ≡ is_some routine.now.text.now.mark }
{
    let text = routine.text;
    text.mark.is_some()
}

/// The line of each function's mark; that of its name where it has none.
fn stub_lines(
    alloc: Global,
    marks: &[u32],
    routines: &[Routine<'_>],
) -> Result<Vec<u32>, AllocError>
    ensures { IfOk result (λ lines. lines.items ≡ marks_of marks.now routines.now) }
{
    let mut lines = Vec::new(alloc);
    let mut left = marks;
    'routines: for routine in routines {
        let line = routine.text.at.line;
        if is_marked(routine) {
            lines.push(mark_line(line, left))?;
            left = marks_behind(left);
        } else {
            lines.push(line)?;
        }
    }
    Ok(lines)
}

/// The line of `job`; 0 where there is none.
fn job_line(routines: &[Routine<'_>], job: usize) -> u32
    ensures { result ≡ job_line routines.now job }
{
    match routines.get(job) {
        Some(routine) => routine.text.at.line,
        None => 0,
    }
}

/// The lines of all code of a task, whose text has marks at these lines.
pub fn task_lines(
    alloc: Global,
    target: Target,
    marks: &[u32],
    program: &Resolved<'_>,
) -> Result<TaskLines, AllocError>
    ensures { IfOk result (λ t. lines_told t ≡ tables_of target marks.now program.now) }
{
    let routines = program.routines.items();
    Ok(TaskLines {
        start: job_line(routines, program.job),
        functions: function_tables(alloc, target, routines)?,
        stubs: stub_lines(alloc, marks, routines)?,
    })
}

/// The line of each word of a function; none where there is no such function.
fn function_lines(functions: &[Vec<u32>], f: usize) -> &[u32]
    ensures { result.now ≡ slice_index_or (map (λ lines. lines.items) functions.now) f [] }
{
    match functions.get(f) {
        Some(lines) => lines.as_slice(),
        None => &[],
    }
}

/// The line of a function's stub; 0 where there is no such function.
fn stub_line(stubs: &[u32], f: usize) -> u32
    ensures { result ≡ slice_index_or stubs.now f 0 }
{
    match stubs.get(f) {
        Some(line) => *line,
        None => 0,
    }
}

/// Puts the lines of a part of so many words behind others.
fn push_part(
    lines: &mut Vec<u32>,
    task: &TaskLines,
    kind: PartKind,
    count: u32,
) -> Result<(), AllocError>
    ensures { OnOk result (lines.new.items ≡ lines.old.items ++ part_lines (lines_told task.now) kind count) }
{
    match kind {
        PartKind::Start => push_words(lines, task.start, count),
        PartKind::Code(f) => {
            lines.extend_from_slice(function_lines(task.functions.as_slice(), usize::from(f)))
        }
        PartKind::Stub(f) => {
            let line = stub_line(task.stubs.as_slice(), usize::from(f));
            push_words(lines, line, count)
        }
        PartKind::Global(_) | PartKind::Stack | PartKind::Area(_) => Ok(()),
    }
}

/// The line of each word of a part of so many words.
pub fn part_lines(
    alloc: Global,
    task: &TaskLines,
    kind: PartKind,
    count: u32,
) -> Result<Vec<u32>, AllocError>
    ensures { IfOk result (λ lines. lines.items ≡ part_lines (lines_told task.now) kind count) }
{
    let mut lines = Vec::new(alloc);
    push_part(&mut lines, task, kind, count)?;
    Ok(lines)
}
