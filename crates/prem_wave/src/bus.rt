// What the bus, the cache and the devices do in a cycle, by the machine before and behind it.
ghost use Rattle.std.specs.Prelude.{◌≡◌, ◌++◌, IfOk, OnOk, slice_get};
ghost use Rattle.prem_machine.specs.Parts.{state_of};
ghost use Rattle.prem_wave.specs.Signals.{before_of, bus_after, bus_word, core_word, device_values, direction_of, direction_word, each, ended_on, line_of, values_after};

use crate::doing::bit;
use crate::words::{CORE_BACK, CORE_FILL, DEVICE, FREE, GET, PUT};
use prem_cycle::TransactionKind;
use prem_gate::{Request, Transfer};
use prem_lru::Policy;
use prem_machine::Parts;
use std::alloc::{AllocError, Global};

/// A request that has the bus.
#[derive(Clone, Copy, PartialEq, Eq, Debug)]
pub struct OnBus {
    /// The place of its device in the set.
    pub device: u16,
    pub request: Request,
}

/// What the machine before a cycle gives to what is seen behind it.
#[derive(Clone, Copy, PartialEq, Eq, Debug)]
pub struct Before {
    /// The misses so far.
    pub misses: u64,
    /// The lines written back so far.
    pub backs: u64,
    /// The number of transfers that have ended.
    pub transfers: usize,
    /// What the core wants the bus for, if it wants it.
    pub wants: Option<TransactionKind>,
}

/// What the machine before a cycle gives.
pub fn before_of<P: Policy>(parts: &Parts<P>) -> Before
    ensures { result ≡ before_of (state_of parts.entry.now) }
{
    Before {
        misses: parts.facts.misses,
        backs: parts.facts.writebacks,
        transfers: parts.facts.transfers.items().len(),
        wants: parts.core.wants_bus_for(),
    }
}

/// The request whose transfer has this number, if it has ended.
fn ended_on(transfers: &[Transfer], n: usize) -> Option<OnBus>
    ensures { result ≡ ended_on (slice_get transfers.now n) }
{
    match transfers.get(n) {
        Some(transfer) => Some(OnBus {
            device: transfer.device,
            request: transfer.request,
        }),
        None => None,
    }
}

/// The request that had the bus.
fn bus_after<P: Policy>(parts: &Parts<P>, before: Before) -> Option<OnBus>
    ensures { result ≡ bus_after before (state_of parts.entry.now) }
{
    match parts.gates.carried() {
        Some(carried) => Some(OnBus {
            device: carried.device,
            request: carried.request,
        }),
        None => ended_on(parts.facts.transfers.items(), before.transfers),
    }
}

/// The word for a core that has the bus.
fn core_word(kind: TransactionKind) -> u64
    ensures { result ≡ core_word kind }
{
    match kind {
        TransactionKind::WriteBack => CORE_BACK,
        TransactionKind::Fill => CORE_FILL,
    }
}

/// The word for who has the bus.
fn bus_word(on: Option<OnBus>, wants: Option<TransactionKind>) -> u64
    ensures { result ≡ bus_word on wants }
{
    match (on, wants) {
        (Some(_), _) => DEVICE,
        (None, Some(kind)) => core_word(kind),
        (None, None) => FREE,
    }
}

/// The line that a device transfers.
fn line_of(d: u16, on: Option<OnBus>) -> Option<u64>
    ensures { result ≡ line_of d on }
{
    match on {
        Some(o) => {
            if o.device == d {
                Some(u64::from(o.request.line))
            } else {
                None
            }
        }
        None => None,
    }
}

/// The word for the direction of a transfer.
fn direction_word(put: Option<u32>) -> u64
    ensures { result ≡ direction_word put }
{
    match put {
        Some(_) => PUT,
        None => GET,
    }
}

/// How a device transfers.
fn direction_of(d: u16, on: Option<OnBus>) -> Option<u64>
    ensures { result ≡ direction_of d on }
{
    match on {
        Some(o) => {
            if o.device == d {
                Some(direction_word(o.request.put))
            } else {
                None
            }
        }
        None => None,
    }
}

/// Puts what a device does behind values.
fn push_device<P: Policy>(
    values: &mut Vec<Option<u64>>,
    parts: &Parts<P>,
    on: Option<OnBus>,
    d: u16,
) -> Result<(), AllocError>
    ensures { OnOk result (values.new.items ≡ values.old.items ++ device_values on (state_of parts.entry.now) d) }
{
    values.push(Some(u64::from(parts.gates.queued(d))))?;
    values.push(line_of(d, on))?;
    values.push(direction_of(d, on))?;
    Ok(())
}

/// Puts what each of so many devices does behind values.
fn push_devices<P: Policy>(
    values: &mut Vec<Option<u64>>,
    parts: &Parts<P>,
    on: Option<OnBus>,
    devices: u16,
) -> Result<(), AllocError>
    ensures { OnOk result (values.new.items ≡ values.old.items ++ each (device_values on (state_of parts.entry.now)) devices) }
{
    'devices: for d in 0..devices {
        push_device(values, parts, on, d)?;
    }
    Ok(())
}

/// Puts the values that the machine shows behind a cycle behind others.
fn push_after<P: Policy>(
    values: &mut Vec<Option<u64>>,
    parts: &Parts<P>,
    before: Before,
    devices: u16,
) -> Result<(), AllocError>
    ensures { OnOk result (values.new.items ≡ values.old.items ++ values_after devices before (state_of parts.entry.now)) }
{
    let on = bus_after(parts, before);
    values.push(Some(bus_word(on, before.wants)))?;
    values.push(Some(bit(before.misses < parts.facts.misses)))?;
    values.push(Some(bit(before.backs < parts.facts.writebacks)))?;
    push_devices(values, parts, on, devices)
}

/// The values that the machine shows behind a cycle, with so many devices.
pub fn values_after<P: Policy>(
    alloc: Global,
    parts: &Parts<P>,
    before: Before,
    devices: u16,
) -> Result<Vec<Option<u64>>, AllocError>
    ensures { IfOk result (λ values. values.items ≡ values_after devices before (state_of parts.entry.now)) }
{
    let mut values = Vec::new(alloc);
    push_after(&mut values, parts, before, devices)?;
    Ok(values)
}
