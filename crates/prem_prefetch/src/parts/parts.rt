// The parts of a task, and the areas of devices.
ghost use Rattle.std.specs.Prelude.{◌≡◌, ◌<◌, ◌≤◌, ◌*◌, ◌++◌, length, map, OnOk};
ghost use Rattle.std.specs.List.{AllByRecursion};
ghost use Rattle.prem_syntax.specs.SyntaxOf.{global_of};
ghost use Rattle.prem_layout.specs.Parts.{stub_passes, element_size, global_size, code_parts, stub_parts, global_parts, area_parts};
ghost use Rattle.prem_split.specs.PlanOf.{plan_of};
ghost use Rattle.prem_prefetch.specs.Parts.Parts.{sizes_of, parts_with, IsShortPlan, IsShortGlobal, IsWordSize};

use crate::stub_size;
use prem_asm::{Piece, Sequence, size};
use prem_plant::{Device, PartKind, PartSize, Plant, TaskId};
use prem_split::IntervalPlan;
use prem_syntax::{Global, Ty};
use std::alloc::AllocError;

/// Puts the code of functions behind other parts.
fn push_code(
    parts: &mut Vec<PartSize>,
    task: TaskId,
    code: &[Sequence<Piece>],
) -> Result<(), AllocError>
    requires few { length code.now ≤ 256 }
    requires small { AllByRecursion IsWordSize (sizes_of code.now) }
    ensures { OnOk result (parts.new.items ≡ parts.old.items ++ code_parts task 0 (sizes_of code.now)) }
{
    let mut n = 0u16;
    for pieces in code {
        parts.push(PartSize {
            task,
            kind: PartKind::Code(n),
            size: size(pieces.items()) as u32,
            align: 4,
        })?;
        n += 1;
    }
    Ok(())
}

/// Puts the stubs of marked functions behind other parts.
fn push_stubs(
    parts: &mut Vec<PartSize>,
    task: TaskId,
    plans: &[IntervalPlan],
    p: &Plant,
) -> Result<(), AllocError>
    requires short { AllByRecursion IsShortPlan (map plan_of plans.now) }
    ensures { OnOk result (parts.new.items ≡ parts.old.items ++ stub_parts (stub_passes p.now) task (map plan_of plans.now)) }
{
    for plan in plans {
        parts.push(PartSize {
            task,
            kind: PartKind::Stub(plan.function),
            size: stub_size(plan, p),
            align: 4,
        })?;
    }
    Ok(())
}

/// The bytes of an element of a type.
fn element_size(ty: Ty) -> u64
    ensures size { result ≡ element_size ty }
    ensures small { result ≤ 4 }
{
    match ty {
        Ty::Short | Ty::Ushort => 2,
        Ty::Schar | Ty::Uchar => 1,
        Ty::Void | Ty::Int | Ty::Unsigned => 4,
    }
}

/// The bytes of a global, in whole words.
fn global_size(g: &Global) -> u32
    requires { IsShortGlobal (global_of g.now) }
    ensures { result ≡ global_size (global_of g.now) }
{
    let len = match g.len {
        Some(len) => u64::from(len),
        None => 1,
    };
    (element_size(g.ty) * len).next_multiple_of(4) as u32
}

/// Puts globals behind other parts.
fn push_globals(
    parts: &mut Vec<PartSize>,
    task: TaskId,
    globals: &[&Global],
) -> Result<(), AllocError>
    requires few { length globals.now ≤ 256 }
    requires short { AllByRecursion IsShortGlobal (map (λ g. global_of g.now) globals.now) }
    ensures { OnOk result (parts.new.items ≡ parts.old.items ++ global_parts task 0 (map (λ g. global_of g.now) globals.now)) }
{
    let mut n = 0u16;
    for g in globals {
        parts.push(PartSize {
            task,
            kind: PartKind::Global(n),
            size: global_size(g),
            align: 4,
        })?;
        n += 1;
    }
    Ok(())
}

/// Puts the parts of a task behind other parts.
pub fn push_task(
    parts: &mut Vec<PartSize>,
    task: TaskId,
    code: &[Sequence<Piece>],
    plans: &[IntervalPlan],
    globals: &[&Global],
    stack: u32,
    p: &Plant,
) -> Result<(), AllocError>
    requires functions { length code.now ≤ 256 }
    requires small { AllByRecursion IsWordSize (sizes_of code.now) }
    requires plans { AllByRecursion IsShortPlan (map plan_of plans.now) }
    requires few { length globals.now ≤ 256 }
    requires short { AllByRecursion IsShortGlobal (map (λ g. global_of g.now) globals.now) }
    ensures { OnOk result (parts.new.items ≡ parts.old.items ++ parts_with (stub_passes p.now) task (sizes_of code.now) (map plan_of plans.now) (map (λ g. global_of g.now) globals.now) stack) }
{
    parts.push(PartSize {
        task,
        kind: PartKind::Start,
        size: 8,
        align: 4,
    })?;
    push_code(parts, task, code)?;
    push_stubs(parts, task, plans, p)?;
    push_globals(parts, task, globals)?;
    parts.push(PartSize {
        task,
        kind: PartKind::Stack,
        size: stack,
        align: 16,
    })?;
    Ok(())
}

/// Puts the areas of devices behind other parts.
pub fn push_areas(
    parts: &mut Vec<PartSize>,
    line: u32,
    devices: &[Device],
) -> Result<(), AllocError>
    requires few { length devices.now ≤ 8 }
    requires line { line ≤ 256 }
    requires lines { AllByRecursion (λ d. d.lines ≤ 1024) devices.now }
    ensures { OnOk result (parts.new.items ≡ parts.old.items ++ area_parts line 0 devices.now) }
{
    let mut n = 0u16;
    for device in devices {
        parts.push(PartSize {
            task: 0,
            kind: PartKind::Area(n),
            size: device.lines * line,
            align: line,
        })?;
        n += 1;
    }
    Ok(())
}
