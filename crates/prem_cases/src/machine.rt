//! Trials of the machine: runs of images that are built by hand, with all that each has to tell.
//!
//! A line tells why and when the run stops; for each task the jobs that have ended and what it has put out; the
//! intervals, each with its task, first cycle, length and stated length; the transfers and the devices; hits, misses and
//! write backs; and then execution misses, memory stores, clashes and overruns. Then come the instructions of a core
//! that is called by itself.

mod cores;
mod images;
mod logs;
mod programs;
mod runs;
mod tasks;
mod told;

use std::io;

/// What each run tells.
pub fn tell(rt: &(impl Print + AllocGlobal)) -> io::Result<()> {
    let alloc = rt.alloc();
    runs::tell(rt, alloc)?;
    logs::tell(rt, alloc)?;
    tasks::tell(rt, alloc)?;
    cores::tell(rt, alloc)
}
