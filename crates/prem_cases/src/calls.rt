//! Calls of the libraries that take memory or reach the computer, and values that come from elsewhere.

mod caches;
mod disk;
mod labels;
mod layouts;
mod lists;
mod operations;
mod output;
mod ranges;
mod schedules;
mod sinks;
mod stores;
mod words;

use std::io;
use std::rt::Files;

/// What each call gives.
pub fn tell(rt: &(impl Print + Files + AllocGlobal)) -> io::Result<()> {
    let alloc = rt.alloc();
    lists::tell(rt, alloc)?;
    stores::tell(rt, alloc)?;
    disk::tell(rt, alloc)?;
    sinks::tell(rt, alloc)?;
    output::tell(rt)?;
    labels::tell(rt, alloc)?;
    ranges::tell(rt, alloc)?;
    layouts::tell(rt, alloc)?;
    schedules::tell(rt, alloc)?;
    caches::tell(rt, alloc)?;
    words::tell(rt)?;
    operations::tell(rt)
}
