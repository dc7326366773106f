//! Answers of the programs over stores and sinks in memory: to sources, at limits, to commands whose outside may fail, of
//! two cores, of the response test, of the times of sets, of profiles of runs, of texts with annotations, and in plain words; and
//! behind these, answers to hostile use.
//!
//! Each answer is a line, with a `$` for each end of a line of what is written. `stdout` has the lines as they were
//! worked out by hand.
#![tactic(auto)]

mod annotations;
mod commands;
mod fits;
mod hostile;
mod limits;
mod lints;
mod pairs;
mod sources;

use fits::FitProgram;
use std::io;

fn main(rt: HostRuntime) -> io::Result<()> {
    sources::tell(&rt)?;
    limits::tell(&rt, rt.alloc())?;
    commands::tell(&rt, "commands.txt")?;
    commands::tell(&rt, "sets.txt")?;
    commands::tell(&rt, "runs.txt")?;
    pairs::tell(&rt, "pairs.txt")?;
    fits::tell(&rt, FitProgram::Response, "fits.txt")?;
    fits::tell(&rt, FitProgram::Times, "times.txt")?;
    fits::tell(&rt, FitProgram::Profile, "profiles.txt")?;
    annotations::tell(&rt, "annotations.txt")?;
    commands::tell_steady(&rt)?;
    lints::tell(&rt)?;
    hostile::tell(&rt)
}
