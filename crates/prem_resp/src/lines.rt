// What is written of the busy periods of a set.
ghost use Rattle.std.specs.Prelude.{◌≡◌, ◌++◌, All, IfOk, OnOk, length, string_bytes};
ghost use Rattle.prem_resp.specs.Busy.Busy.{IsLoad};
ghost use Rattle.prem_resp.specs.Lines.{all_within, fit_text, last_line, length_text, lines_from, task_line};
ghost use Rattle.prem_resp.specs.Told.{names_of};

use crate::busy::{Busy, Load, blocking};
use prem_image::TaskRecord;
use std::alloc::{AllocError, Global};

/// What is told of a busy period behind what blocks the task.
fn length_text(alloc: Global, busy: Busy) -> Result<String, AllocError>
    ensures { IfOk result (λ s. string_bytes s ≡ length_text busy) }
{
    match busy {
        Busy::Within { length } => format!(in alloc; " length {length}\n"),
        Busy::Past => String::from_str(alloc, " past\n"),
    }
}

/// What is told of a task behind its name.
#[derive(Clone, Copy)]
struct TaskLine {
    cost: u64,
    blocks: u64,
    busy: Busy,
}

/// The line of a task.
fn push_line(
    alloc: Global,
    text: &mut Vec<u8>,
    name: &str,
    line: TaskLine,
) -> Result<(), AllocError>
    ensures { OnOk result (text.new.items ≡ text.old.items ++ task_line name.now line.cost line.blocks line.busy) }
{
    let (cost, blocks) = (line.cost, line.blocks);
    text.extend_from_slice(b"task ")?;
    text.extend_from_slice(name.as_bytes())?;
    text.extend_from_slice(format!(in alloc; " cost {cost} blocks {blocks}")?.as_bytes())?;
    text.extend_from_slice(length_text(alloc, line.busy)?.as_bytes())
}

/// Whether each busy period is within its task's period.
pub fn all_within(found: &[Busy]) -> bool
    ensures { result ≡ all_within found.now }
{
    for busy in found {
        if matches!(busy, Busy::Past) {
            return false;
        }
    }
    true
}

/// The last line.
fn last_line(found: &[Busy]) -> &'static str
    ensures { result.now ≡ last_line found.now }
{
    if all_within(found) {
        "fits\n"
    } else {
        "late\n"
    }
}

/// The lines of all tasks.
fn push_lines(
    alloc: Global,
    text: &mut Vec<u8>,
    tasks: &[TaskRecord],
    loads: &[Load],
    found: &[Busy],
) -> Result<(), AllocError>
    requires loads { All IsLoad loads.now }
    requires tasks { length loads.now ≡ length tasks.now }
    requires found { length found.now ≡ length tasks.now }
    ensures { OnOk result (text.new.items ≡ text.old.items ++ lines_from loads.now 0 (names_of tasks.now) found.now) }
{
    for i in 0..tasks.len() {
        let line = TaskLine {
            cost: loads[i].cost,
            blocks: blocking(loads, i),
            busy: found[i],
        };
        push_line(alloc, text, tasks[i].name.text(), line)?;
    }
    Ok(())
}

/// Each task with what its jobs take, what blocks them, and its busy period; and last whether all are within the periods.
pub(crate) fn fit_text(
    alloc: Global,
    tasks: &[TaskRecord],
    loads: &[Load],
    found: &[Busy],
) -> Result<Vec<u8>, AllocError>
    requires loads { All IsLoad loads.now }
    requires tasks { length loads.now ≡ length tasks.now }
    requires found { length found.now ≡ length tasks.now }
    ensures { IfOk result (λ text. text.items ≡ fit_text (names_of tasks.now) loads.now found.now) }
{
    let mut text = Vec::new(alloc);
    push_lines(alloc, &mut text, tasks, loads, found)?;
    text.extend_from_slice(last_line(found).as_bytes())?;
    Ok(text)
}
