//! The image of a set of placed tasks.
ghost use Rattle.std.specs.Prelude.{◌≡◌, ◌+◌, ◌≤◌, length, map, take, drop, IfOk};
ghost use Rattle.prem_list.specs.Sequence.{items_of};
ghost use Rattle.prem_image.specs.Text.{image_text};
ghost use Rattle.prem_layout.specs.Image.{greatest_end, task_record, device_records, image_of};
ghost use Rattle.prem_place.specs.Placed.PlacedOf.{coded_of, placed_of};
ghost use Rattle.prem_place.specs.BuildImage.Built.{count_of, total_of, IsBuilt};

use crate::content::Block;
use crate::imaging::task_bytes;
use crate::placed::PlacedTask;
use prem_image::{DeviceRecord, Image, TaskRecord};
use prem_list::Sequence;
use prem_plant::{Device, Label, Layout, Plant};
use std::alloc::{AllocError, Global};

/// How many parts a task has.
fn part_count(task: &PlacedTask) -> usize
    requires { count_of task.now ≤ 100000 }
    ensures { result ≡ count_of task.now }
{
    2 + task.program.routines.items().len() + task.plans.items().len() + task.program.globals.len()
}

/// How many parts tasks have.
fn part_total(tasks: &[PlacedTask]) -> usize
    requires { total_of tasks.now ≤ 100000 }
    ensures { result ≡ total_of tasks.now }
{
    let mut total = 0;
    for n in 0..tasks.len() {
        total += part_count(&tasks[n]);
    }
    total
}

/// The greatest end of the first parts of a layout.
fn greatest_end(layout: &Layout, count: usize) -> u32
    ensures { result ≡ greatest_end (take count layout.now) }
{
    let mut greatest = 0u32;
    for n in 0..count {
        let (_, end) = layout.part(n).unwrap_or((0, 0));
        greatest = greatest.max(end);
    }
    greatest
}

/// What the machine knows of a task.
fn task_record(alloc: Global, task: &PlacedTask) -> Result<TaskRecord, AllocError>
    ensures { IfOk result (λ found. found ≡ task_record (placed_of task.now)) }
{
    Ok(TaskRecord {
        name: Label::new(alloc, task.name.text())?,
        period: task.period,
        jobs: task.jobs,
        entry: task.places.place(0).0,
        stack: task.places.stack_place().1,
    })
}

/// What the machine knows of tasks.
fn task_records(alloc: Global, tasks: &[PlacedTask]) -> Result<Sequence<TaskRecord>, AllocError>
    ensures { IfOk result (λ records. items_of records ≡ map task_record (map placed_of tasks.now)) }
{
    let mut records = Sequence::new(alloc);
    for n in 0..tasks.len() {
        records.push(task_record(alloc, &tasks[n])?)?;
    }
    Ok(records)
}

/// A device with the place of its area.
fn device_record(alloc: Global, device: &Device, area: u32) -> Result<DeviceRecord, AllocError>
    ensures { IfOk result (λ found. found ≡ record { device = device.now; area = area }) }
{
    Ok(DeviceRecord {
        device: Device {
            name: Label::new(alloc, device.name.text())?,
            queue: device.queue,
            cost: device.cost,
            lines: device.lines,
        },
        area,
    })
}

/// Devices with the places of their areas, which are the parts of a layout from a number on.
fn device_records(
    alloc: Global,
    devices: &[Device],
    layout: &Layout,
    first: usize,
) -> Result<Sequence<DeviceRecord>, AllocError>
    requires long { length layout.now ≡ first + length devices.now }
    requires few { length layout.now ≤ 100000 }
    ensures { IfOk result (λ records. items_of records ≡ device_records devices.now (drop first layout.now)) }
{
    let mut records = Sequence::new(alloc);
    for n in 0..devices.len() {
        let (area, _) = layout.part(first + n).unwrap_or((0, 0));
        records.push(device_record(alloc, &devices[n], area)?)?;
    }
    Ok(records)
}

/// The image of placed tasks and devices: their records, and what memory holds at the start. It fails only for want of memory.
///
/// The layout has the places of the parts of all tasks, and behind them those of the devices' areas.
pub fn image_of(
    alloc: Global,
    plant: &Plant,
    tasks: &[PlacedTask],
    blocks: &[Vec<Block>],
    devices: &[Device],
    layout: &Layout,
) -> Result<Image, AllocError>
    requires { IsBuilt plant.now tasks.now (map (λ bs. bs.items) blocks.now) devices.now layout.now }
    ensures { IfOk result (λ image. image_text image ≡ image_of plant.now devices.now layout.now (map coded_of tasks.now)) }
{
    let first = part_total(tasks);
    let end = greatest_end(layout, first);
    let content = task_bytes(alloc, end as usize, tasks, blocks)?;
    let records = task_records(alloc, tasks)?;
    let areas = device_records(alloc, devices, layout, first)?;
    Ok(Image {
        plant: *plant,
        tasks: records,
        devices: areas,
        content,
    })
}
