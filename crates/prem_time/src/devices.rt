// The devices that words name.
ghost use Rattle.std.specs.Prelude.{◌≡◌, IfOk, option_map};
ghost use Rattle.prem_tasks.specs.Lawful.{device_names, has_name};
ghost use Rattle.prem_latency.specs.Sets.{asking_of};
ghost use Rattle.prem_time.specs.Asked.{distances_in};
ghost use Rattle.prem_time.specs.Devices.{askings_in, every_of, named_in, unknown_in};
ghost use Rattle.prem_time.specs.Told.{AreNamed, IsBus, tops_of};

use crate::words::{Distance, is_same};
use prem_latency::{Asking, top};
use prem_plant::Device;
use std::alloc::{AllocError, Global};

/// A device that is named: its number in the set, and how far apart its requests are at least.
#[derive(Clone, Copy)]
pub(crate) struct Named {
    pub(crate) number: usize,
    pub(crate) every: u64,
}

/// What the words say of a device of this name.
pub fn every_of(distances: &[Distance], name: &[u8]) -> Option<u64>
    ensures { result ≡ every_of (distances_in distances.now) name.now }
{
    for distance in distances {
        if is_same(distance.device, name) {
            return Some(distance.every);
        }
    }
    None
}

/// Whether one of the devices has this name.
fn is_there(name: &[u8], devices: &[Device]) -> bool
    ensures { result ≡ has_name name.now (device_names devices.now) }
{
    for device in devices {
        if is_same(device.name.text().as_bytes(), name) {
            return true;
        }
    }
    false
}

/// The name of the first device that is named and isn't one of these.
pub fn unknown_in<'a>(distances: &[Distance<'a>], devices: &[Device]) -> Option<&'a [u8]>
    ensures { option_map (λ name. name.now) result ≡ unknown_in (distances_in distances.now) devices.now }
{
    for distance in distances {
        if !is_there(distance.device, devices) {
            return Some(distance.device);
        }
    }
    None
}

/// The devices that are named, in the order of the set.
pub(crate) fn named_in(
    alloc: Global,
    distances: &[Distance],
    devices: &[Device],
) -> Result<Vec<Named>, AllocError>
    ensures { IfOk result (λ named. named.items ≡ named_in (distances_in distances.now) devices.now) }
{
    let mut named = Vec::new(alloc);
    for number in 0..devices.len() {
        if let Some(every) = every_of(distances, devices[number].name.text().as_bytes()) {
            named.push(Named { number, every })?;
        }
    }
    Ok(named)
}

/// What a device asks of the bus; one that isn't named asks nothing.
fn asking_of(every: Option<u64>, device: &Device) -> Asking
    ensures { result ≡ asking_of every device.now }
{
    match every {
        Some(every) => Asking {
            cost: device.cost,
            every,
        },
        None => Asking { cost: 0, every: 1 },
    }
}

/// What all devices ask of the bus.
pub(crate) fn askings_in(
    alloc: Global,
    distances: &[Distance],
    devices: &[Device],
) -> Result<Vec<Asking>, AllocError>
    ensures { IfOk result (λ askings. askings.items ≡ askings_in (distances_in distances.now) devices.now) }
{
    let mut askings = Vec::new(alloc);
    for device in devices {
        askings.push(asking_of(every_of(distances, device.name.text().as_bytes()), device))?;
    }
    Ok(askings)
}

/// What all devices ask of the bus, and those that are named.
#[derive(Drop)]
pub(crate) struct Bus {
    pub(crate) askings: Vec<Asking>,
    pub(crate) named: Vec<Named>,
}

/// Those of a set.
pub(crate) fn bus_of(
    alloc: Global,
    distances: &[Distance],
    devices: &[Device],
) -> Result<Bus, AllocError>
    ensures { IfOk result (λ bus. IsBus (distances_in distances.now) devices.now bus) }
{
    Ok(Bus {
        askings: askings_in(alloc, distances, devices)?,
        named: named_in(alloc, distances, devices)?,
    })
}

/// Of each device that is named the longest transfer of it and of those before it.
pub(crate) fn tops_of(alloc: Global, bus: &Bus) -> Result<Vec<u32>, AllocError>
    requires { AreNamed bus.now }
    ensures { IfOk result (λ tops. tops.items ≡ tops_of bus.now.askings.items bus.now.named.items) }
{
    let mut tops = Vec::new(alloc);
    for device in &bus.named {
        tops.push(top(&bus.askings, device.number))?;
    }
    Ok(tops)
}
