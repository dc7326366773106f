// Sets whose texts have notes.
ghost use Rattle.std.specs.Prelude.{◌≡◌, Ok, IfOk, length, map};
ghost use Rattle.prem_list.specs.Sequence.{items_of};
ghost use Rattle.prem_tasks.specs.Lawful.{AreTasks, IsSet};
ghost use Rattle.prem_tasks.specs.SetOf.{set_of, task_of};
ghost use Rattle.prem_text.specs.Texts.{reads};
ghost use Rattle.prem_stages.specs.Stages.{checked_text};
ghost use Rattle.prem_annotate.specs.Notes.{notes_of};
ghost use Rattle.prem_annotate.specs.Writing.Text.{annotated_text};
ghost use Rattle.prem_annotate_answer.specs.Written.{with_tasks, with_text};
ghost use Rattle.prem_annotate_answer.specs.Steps.{AreReadAs, noted_set, noted_tasks, notes_in};

use prem_annotate::notes::FunctionNotes;
use prem_annotate::writing::annotate_text;
use prem_list::Sequence;
use prem_plant::{Device, Label, Plant};
use prem_tasks::{TaskSet, TaskText};
use prem_tree::Checked;
use std::alloc::{AllocError, Global};

/// A task whose text has the notes of its program.
fn noted_task(
    alloc: Global,
    task: &TaskText,
    program: &Checked,
    notes: &[FunctionNotes],
) -> Result<TaskText, AllocError>
    requires { reads (items_of task.now.text) ≡ Ok (checked_text program.now) }
    ensures { IfOk result (λ t. task_of t ≡ with_text (annotated_text (map notes_of notes.now) (items_of task.now.text)) (task_of task.now)) }
{
    let name = Label::new(alloc, task.name.text())?;
    let program = program.program();
    let new = annotate_text(alloc, task.text.items(), program, notes)?;
    let text = Sequence::from_vec(new);
    Ok(TaskText {
        name,
        text,
        period: task.period,
        jobs: task.jobs,
    })
}

/// The tasks, each with the notes of its program.
fn noted_tasks(
    alloc: Global,
    tasks: &[TaskText],
    programs: &[Checked],
    notes: &[Vec<FunctionNotes>],
) -> Result<Sequence<TaskText>, AllocError>
    requires read { AreReadAs (map task_of tasks.now) (map checked_text programs.now) }
    requires noted { length notes.now ≡ length tasks.now }
    ensures { IfOk result (λ all. map task_of (items_of all) ≡ noted_tasks annotated_text (map task_of tasks.now) (map notes_in notes.now)) }
{
    let mut all = Sequence::with_room(alloc, tasks.len())?;
    for n in 0..tasks.len() {
        all.push(noted_task(alloc, &tasks[n], &programs[n], &notes[n])?)?;
    }
    Ok(all)
}

/// A device once more.
fn copy_device(alloc: Global, device: &Device) -> Result<Device, AllocError>
    ensures { IfOk result (λ d. d ≡ device.now) }
{
    Ok(Device {
        name: Label::new(alloc, device.name.text())?,
        queue: device.queue,
        cost: device.cost,
        lines: device.lines,
    })
}

fn copy_devices(alloc: Global, devices: &[Device]) -> Result<Sequence<Device>, AllocError>
    ensures { IfOk result (λ list. items_of list ≡ devices.now) }
{
    let mut list = Sequence::with_room(alloc, devices.len())?;
    for device in devices {
        list.push(copy_device(alloc, device)?)?;
    }
    Ok(list)
}

/// The set of lawful parts.
fn joined(plant: Plant, devices: Sequence<Device>, tasks: Sequence<TaskText>) -> TaskSet
    requires { IsSet plant (items_of devices) (items_of tasks) }
    ensures { set_of result ≡ record { plant = plant; devices = items_of devices; tasks = map task_of (items_of tasks) } }
{
    match TaskSet::new(plant, devices, tasks) {
        Some(set) => set,
        None => unreachable!(),
    }
}

/// A set with other tasks.
fn set_with(alloc: Global, set: &TaskSet, tasks: Sequence<TaskText>) -> Result<TaskSet, AllocError>
    requires { AreTasks (items_of tasks) }
    ensures { IfOk result (λ new. set_of new ≡ with_tasks (map task_of (items_of tasks)) (set_of set.now)) }
{
    let plant = set.plant();
    let devices = set.devices();
    let copies = copy_devices(alloc, devices)?;
    Ok(joined(*plant, copies, tasks))
}

/// The set whose texts have the notes of their programs. It fails only for want of memory.
pub fn noted_set(
    alloc: Global,
    set: &TaskSet,
    programs: &[Checked],
    notes: &[Vec<FunctionNotes>],
) -> Result<TaskSet, AllocError>
    requires read { AreReadAs (set_of set.now).tasks (map checked_text programs.now) }
    requires noted { length notes.now ≡ length (set_of set.now).tasks }
    ensures { IfOk result (λ new. set_of new ≡ noted_set annotated_text (map notes_in notes.now) (set_of set.now)) }
{
    let tasks = noted_tasks(alloc, set.tasks(), programs, notes)?;
    let new = set_with(alloc, set, tasks)?;
    Ok(new)
}
