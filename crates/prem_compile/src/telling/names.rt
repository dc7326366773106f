// The names of the parts of a set.
ghost use Rattle.std.specs.Prelude.{◌≡◌, ◌<◌, All, IfOk, length, map};
ghost use Rattle.std.specs.List.{AllByRecursion};
ghost use Rattle.prem_list.specs.Sequence.{items_of};
ghost use Rattle.prem_plant.specs.Label.{IsName};
ghost use Rattle.prem_plant.specs.Ranges.{IsDevice};
ghost use Rattle.prem_syntax.specs.Name.{name_bytes};
ghost use Rattle.prem_layout.specs.Placed.{name_at};
ghost use Rattle.prem_prefetch.specs.Sizes.CodedOf.{coded_in};
ghost use Rattle.prem_tasks.specs.Broken.{global_name};
ghost use Rattle.prem_tasks.specs.Compiled.{part_name, parts_in};
ghost use Rattle.prem_tasks.specs.SetOf.{set_of};
ghost use Rattle.prem_compile.specs.Joined.{HasCode};
ghost use Rattle.prem_compile.specs.Telling.Named.{AreNamed};
ghost use Rattle.prem_compile.specs.Telling.There.{HasName, IsThere};

use prem_list::Sequence;
use prem_place::placing::CodedTask;
use prem_plant::{Device, FnId, Label, PartKind, PartSize};
use prem_syntax::{Name, copy_name};
use prem_tasks::TaskSet;
use std::alloc::{AllocError, Global};

/// The parts of a set, in the order of the layout, with their names.
#[derive(Drop)]
pub struct NamedParts {
    pub sizes: Vec<PartSize>,
    /// A start and a stack have their task's name, any other part has its function's, global's or device's.
    pub names: Sequence<Name>,
}

/// The name of a task or of a device.
fn label_name(alloc: Global, label: &Label) -> Result<Name, AllocError>
    requires { IsName label.now }
    ensures { IfOk result (λ name. name_bytes name ≡ label.now) }
{
    let Some(name) = Name::new(alloc, label.text().as_bytes())? else {
        unreachable!()
    };
    Ok(name)
}

/// The name of a function of a task.
fn routine_name(alloc: Global, task: &CodedTask, f: FnId) -> Result<Name, AllocError>
    requires { f < length (coded_in task.now).program.routines }
    ensures { IfOk result (λ name. name_bytes name ≡ name_at (coded_in task.now).program.routines f) }
{
    let program = &task.program;
    let text = program.routines.items()[usize::from(f)].text;
    copy_name(alloc, &text.name)
}

/// The name of a global of a task.
fn global_name(alloc: Global, task: &CodedTask, g: u16) -> Result<Name, AllocError>
    requires { g < length (coded_in task.now).program.globals }
    ensures { IfOk result (λ name. name_bytes name ≡ global_name (coded_in task.now).program.globals g) }
{
    let global = task.program.globals[usize::from(g)];
    copy_name(alloc, &global.name)
}

/// The name of a part.
fn part_name(
    alloc: Global,
    devices: &[Device],
    tasks: &[CodedTask],
    part: &PartSize,
) -> Result<Name, AllocError>
    requires devices { All IsDevice devices.now }
    requires tasks { AllByRecursion HasName (map coded_in tasks.now) }
    requires part { IsThere devices.now (map coded_in tasks.now) part.now }
    ensures { IfOk result (λ name. name_bytes name ≡ part_name devices.now (map coded_in tasks.now) part.now) }
{
    let task = usize::from(part.task);
    match part.kind {
        PartKind::Start => label_name(alloc, tasks[task].name),
        PartKind::Code(f) => routine_name(alloc, &tasks[task], f),
        PartKind::Stub(f) => routine_name(alloc, &tasks[task], f),
        PartKind::Global(g) => global_name(alloc, &tasks[task], g),
        PartKind::Stack => label_name(alloc, tasks[task].name),
        PartKind::Area(d) => label_name(alloc, &devices[usize::from(d)].name),
    }
}

/// The names of parts.
fn names_by(
    alloc: Global,
    devices: &[Device],
    tasks: &[CodedTask],
    parts: &[PartSize],
) -> Result<Sequence<Name>, AllocError>
    requires devices { All IsDevice devices.now }
    requires tasks { AllByRecursion HasName (map coded_in tasks.now) }
    requires parts { All (IsThere devices.now (map coded_in tasks.now)) parts.now }
    ensures { IfOk result (λ names. map name_bytes (items_of names) ≡ map (part_name devices.now (map coded_in tasks.now)) parts.now) }
{
    let mut names = Sequence::new(alloc);
    for part in parts {
        let name = part_name(alloc, devices, tasks, part)?;
        names.push(name)?;
    }
    Ok(names)
}

/// The parts of a set's tasks with their names. It fails only for want of memory.
pub fn named_parts(
    alloc: Global,
    set: &TaskSet,
    tasks: &[CodedTask],
    sizes: Vec<PartSize>,
) -> Result<NamedParts, AllocError>
    requires code { HasCode (set_of set.now) tasks.now }
    requires sizes { sizes.items ≡ parts_in (set_of set.now) }
    ensures { IfOk result (AreNamed (set_of set.now)) }
{
    let devices = set.devices();
    let _stated = set.tasks();
    let names = names_by(alloc, devices, tasks, &sizes)?;
    Ok(NamedParts { sizes, names })
}
