// The names of an image.
ghost use Rattle.std.specs.Prelude.{◌≡◌, IfOk};
ghost use Rattle.prem_image.specs.Records.{task_names};
ghost use Rattle.prem_report.specs.Fitting.Named.{devices_in, names_in};

use prem_image::{DeviceRecord, Image, TaskRecord};
use prem_plant::{Device, Label};
use prem_set::run::Names;
use std::alloc::{AllocError, Global};

/// Copies of the names of tasks.
fn labels_of(alloc: Global, tasks: &[TaskRecord]) -> Result<Vec<Label>, AllocError>
    ensures { IfOk result (λ labels. labels.items ≡ task_names tasks.now) }
{
    let mut labels = Vec::new(alloc);
    'tasks: for task in tasks {
        labels.push(Label::new(alloc, task.name.text())?)?;
    }
    Ok(labels)
}

/// A copy of a device.
fn device_of(alloc: Global, device: &Device) -> Result<Device, AllocError>
    ensures { IfOk result (λ copy. copy ≡ device.now) }
{
    Ok(Device {
        name: Label::new(alloc, device.name.text())?,
        queue: device.queue,
        cost: device.cost,
        lines: device.lines,
    })
}

/// Copies of devices.
fn devices_of(alloc: Global, records: &[DeviceRecord]) -> Result<Vec<Device>, AllocError>
    ensures { IfOk result (λ devices. devices.items ≡ devices_in records.now) }
{
    let mut devices = Vec::new(alloc);
    'records: for record in records {
        devices.push(device_of(alloc, &record.device)?)?;
    }
    Ok(devices)
}

/// The names of an image's tasks and devices. It fails only for want of memory.
pub fn names_of_image(alloc: Global, image: &Image) -> Result<Names, AllocError>
    ensures { IfOk result (λ names. names ≡ names_in image.now) }
{
    let labels = labels_of(alloc, image.tasks.items())?;
    let devices = devices_of(alloc, image.devices.items())?;
    Names::new(alloc, &labels, &devices)
}
